//! Datagrams over loopback, through the program's front on UDP.

use super::LINK_1;
use rohc_concentrator::Concentrator;
use rohc_links::{Links, read_links};
use rohc_program::UdpFront;
use rohc_serve::{ServeTally, serve};
use std::alloc::Global;
use std::io;
use std::net::{Ipv4Addr, Net, UdpSocket};
use std::process::Abort;
use std::test::Fail;
use std::time::{Clock, Duration};

/// A socket on a free port, which waits for at most five seconds, and its port.
fn bound<R: Net>(rt: &R) -> io::Result<(UdpSocket, u16)> {
    let socket = UdpSocket::bind(rt, (Ipv4Addr::LOCALHOST, 0))?;
    socket.set_read_timeout(Some(Duration::from_secs(5)))?;
    let port = socket.local_addr()?.port();
    Ok((socket, port))
}

/// Compares the next datagram at a socket with these octets.
fn gets(rt: &impl Abort, socket: &UdpSocket, octets: &[u8]) -> io::Result<()> {
    let mut buffer = [0u8; 16];
    let (size, _) = socket.recv_from(&mut buffer)?;
    assert_eq!(rt; &buffer[..size], octets);
    Ok(())
}

/// The sockets that get what is sent for a link.
#[derive(Drop)]
struct Ends {
    deliver: UdpSocket,
    feedback: UdpSocket,
    relay: UdpSocket,
}

/// Three sockets, and the links file that names their ports.
fn bound_ends<R: Net + AllocGlobal>(rt: &R) -> Result<(Ends, String), Fail> {
    let (deliver, deliver_port) = bound(rt)?;
    let (feedback, feedback_port) = bound(rt)?;
    let (relay, relay_port) = bound(rt)?;
    let links = format!(in rt.alloc();
        "{LINK_1}deliver_port = {deliver_port}\nfeedback_port = {feedback_port}\nrelay_port = {relay_port}\n"
    )?;
    let ends = Ends {
        deliver,
        feedback,
        relay,
    };
    Ok((ends, links))
}

/// Compares the line of a tally with this text.
fn compare_line(rt: &impl Abort, alloc: Global, tally: ServeTally, text: &str) {
    let line = format!(in alloc; "{tally}").expect(rt, "memory");
    assert_eq!(rt; line.as_str(), text);
}

/// Datagrams that each socket gets one for, and one that nobody does.
const DATAGRAMS: [&[u8]; 3] = [
    b"\x00\x01\xfc\x00\xb7\x45\xaa",
    b"\x00\x09\x10\xac",
    b"\x00\x01\xf2\x20\x07",
];

#[test]
fn datagrams_go_to_their_ports(rt: HostRuntime) -> Result<(), Fail> {
    let (ends, links) = bound_ends(&rt)?;
    let tally = served(&rt, links.as_str(), &DATAGRAMS)?;
    let text = "datagrams 3 delivered 1 feedback 1 relayed 1 refused 1 failed 0";
    compare_line(&rt, rt.alloc(), tally, text);
    gets(&rt, &ends.deliver, b"\x45\xaa")?;
    gets(&rt, &ends.feedback, b"\xf1\x00")?;
    gets(&rt, &ends.relay, b"\x20\x07")?;
    Ok(())
}

/// The longest datagram of UDP over IPv4, in octets.
const LONGEST: usize = 65_507;

#[test]
fn the_longest_datagram_is_served_whole(rt: HostRuntime) -> Result<(), Fail> {
    let (socket, port) = bound(&rt)?;
    let links = format!(in rt.alloc();
        "{LINK_1}deliver_port = {port}\nfeedback_port = {port}\nrelay_port = {port}\n"
    )?;
    let mut datagram = Vec::new(rt.alloc());
    datagram.extend_from_slice(b"\x00\x01\xfc\x00\xb7")?;
    datagram.resize(LONGEST, 0x45)?;
    let tally = served(&rt, links.as_str(), &[datagram.as_slice()])?;
    assert_eq!(rt; (tally.delivered, tally.failed), (1, 0));
    let mut packet = vec![in rt.alloc(); 0u8; LONGEST]?;
    let (size, _) = socket.recv_from(packet.as_mut_slice())?;
    assert_eq!(rt; &packet.as_slice()[..size], &datagram.as_slice()[5..]);
    Ok(())
}

/// Serves these datagrams with the links of this text.
fn served<R>(rt: &R, links: &str, datagrams: &[&[u8]]) -> Result<ServeTally, Fail>
where
    R: Net + Clock + AllocGlobal,
{
    let links = read_links(rt.alloc(), links)?;
    served_on(rt, &links, datagrams)
}

/// Serves these datagrams on these links.
fn served_on<R>(rt: &R, links: &Links, datagrams: &[&[u8]]) -> Result<ServeTally, Fail>
where
    R: Net + Clock + AllocGlobal,
{
    let mut concentrator = Concentrator::new(rt.alloc(), links.settings())?;
    let mut front = waiting_front(rt, datagrams)?;
    let count = u32::try_from(datagrams.len()).unwrap_or(0);
    let tally = serve(rt.alloc(), &mut concentrator, links, &mut front, count)?;
    Ok(tally)
}

/// A front at which these datagrams wait. A receive waits for at most five seconds.
fn waiting_front<'a, R: Net + Clock>(
    rt: &'a R,
    datagrams: &[&[u8]],
) -> io::Result<UdpFront<'a, R>> {
    let (socket, port) = bound(rt)?;
    let front = UdpFront::over(rt, socket)?;
    let (sender, _) = bound(rt)?;
    for octets in datagrams {
        sender.send_to(octets, (Ipv4Addr::LOCALHOST, port))?;
    }
    Ok(front)
}
