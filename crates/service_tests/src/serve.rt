//! Datagrams, turns and what is sent, over a front in memory.

ghost use Rattle.std.specs.Prelude.{IfOk};
ghost use Rattle.rohc_serve.specs.Datagram.{AreSettingsOf};

use crate::examples::{LINKS, WHOLE_IR};
use rohc_concentrator::Concentrator;
use rohc_links::{Links, Ports, read_links};
use rohc_serve::{Front, Sends, ServeTally, answer_datagram, serve};
use std::alloc::Global;
use std::process::Abort;
use std::test::Fail;

/// The ports of link 1.
const PORTS_1: Ports = Ports {
    deliver: 6001,
    feedback: 6002,
    relay: 6003,
};

/// A front that gives these datagrams, one each millisecond; a receive without a datagram fails. Sends to
/// one port fail.
#[derive(Drop)]
struct Memory<'a> {
    datagrams: &'a [Option<&'a [u8]>],
    taken: usize,
    fails_at: u16,
    sent: Vec<(u16, Vec<u8>)>,
}

impl Front for Memory<'_> {
    fn receive(&mut self, buffer: &mut [u8]) -> Option<(usize, u64)> {
        let turn = self.taken;
        self.taken = self.taken.wrapping_add(1);
        let datagram = (*self.datagrams.get(turn)?)?;
        let room = buffer.get_mut(..datagram.len())?;
        room.copy_from_slice(datagram);
        Some((datagram.len(), turn as u64))
    }

    fn send(&mut self, port: u16, octets: &[u8]) -> bool {
        if port == self.fails_at {
            return false;
        }
        is_kept(&mut self.sent, port, octets)
    }
}

/// Appends a datagram and its port, and returns whether there was memory for them.
fn is_kept(sent: &mut Vec<(u16, Vec<u8>)>, port: u16, octets: &[u8]) -> bool {
    let mut datagram = Vec::new(*sent.allocator());
    datagram.extend_from_slice(octets).is_ok() && sent.push((port, datagram)).is_ok()
}

/// The links, and their concentrator without a record.
fn made(alloc: Global) -> Result<(Links, Concentrator), Fail>
    ensures { IfOk result (λ made. AreSettingsOf made.1 made.0.settings) }
{
    let links = read_links(alloc, LINKS)?;
    let concentrator = Concentrator::new(alloc, links.settings())?;
    Ok((links, concentrator))
}

/// Serves these datagrams, with sends that fail at one port. Returns the tally and what was sent.
fn served(
    alloc: Global,
    datagrams: &[Option<&[u8]>],
    fails_at: u16,
) -> Result<(ServeTally, Vec<(u16, Vec<u8>)>), Fail> {
    let (links, mut concentrator) = made(alloc)?;
    let mut front = Memory {
        datagrams,
        taken: 0,
        fails_at,
        sent: Vec::new(alloc),
    };
    let count = u32::try_from(datagrams.len()).unwrap_or(0);
    let tally = serve(alloc, &mut concentrator, &links, &mut front, count)?;
    Ok((tally, front.sent))
}

/// Compares what was sent with these datagrams.
fn were_sent(rt: &impl Abort, sent: &[(u16, Vec<u8>)], wanted: &[(u16, &[u8])]) {
    assert_eq!(rt; sent.len(), wanted.len());
    for ((port, octets), (wanted_port, wanted_octets)) in sent.iter().zip(wanted) {
        assert_eq!(rt; port, wanted_port);
        assert_eq!(rt; octets.as_slice(), *wanted_octets);
    }
}

/// Answers a datagram that is refused, with the ports of its link or without ports.
fn for_nobody(
    rt: &impl Abort,
    links: &Links,
    concentrator: &mut Concentrator,
    datagram: &[u8],
    ports: Option<Ports>,
)
    requires { AreSettingsOf concentrator.old links.now.settings }
    ensures { AreSettingsOf concentrator.new links.now.settings }
{
    let mut sends = answer_datagram(concentrator, links, 0, datagram);
    assert_eq!(rt; sends.ports, ports);
    assert!(rt; sends.relayed.next().is_none());
    assert!(rt; sends.packet.is_none() && sends.feedback.is_none() && sends.refused);
}

/// Compares what is sent of a datagram with this packet and this feedback, which go to the ports of link 1.
fn were_made(rt: &impl Abort, sends: Sends<'_>, octets: &[u8], element: &[u8]) {
    let Sends {
        ports,
        mut relayed,
        packet,
        feedback,
        refused,
    } = sends;
    let (Some(packet), Some(feedback)) = (packet, feedback) else {
        panic!(rt; "no packet, or no feedback");
    };
    assert_eq!(rt; ports, Some(PORTS_1));
    assert!(rt; relayed.next().is_none() && !refused);
    assert!(rt; packet.head.is_empty());
    assert_eq!(rt; packet.payload, octets);
    assert_eq!(rt; feedback.as_slice(), element);
}

#[test]
fn a_datagram_is_answered(rt: HostRuntime) -> Result<(), Fail> {
    let (links, mut concentrator) = made(rt.alloc())?;
    let first = b"\x00\x01\xfc\x00\xb7\x45\xaa";
    let sends = answer_datagram(&mut concentrator, &links, 0, first);
    were_made(&rt, sends, b"\x45\xaa", b"\xf1\x00");
    for_nobody(&rt, &links, &mut concentrator, b"\x00\x09\x10\xac", None);
    for_nobody(&rt, &links, &mut concentrator, b"\x00", None);
    for_nobody(&rt, &links, &mut concentrator, b"", None);
    let other_order = b"\x01\x00\xfc\x00\xb7\x45\xaa";
    for_nobody(&rt, &links, &mut concentrator, other_order, None);
    let no_context = b"\x00\x01\xe1\x10\xac";
    for_nobody(&rt, &links, &mut concentrator, no_context, Some(PORTS_1));
    Ok(())
}

// No contract can say that there is memory: a `serve` that always reports lack of memory fails here.
#[test]
fn a_turn_fails_and_the_run_goes_on(rt: HostRuntime) -> Result<(), Fail> {
    let datagrams: [Option<&[u8]>; 3] = [
        Some(b"\x00\x01\xfc\x00\xb7\x45\xaa"),
        None,
        Some(b"\x00\x09\x10\xac"),
    ];
    let (tally, sent) = served(rt.alloc(), &datagrams, 6002)?;
    let line = format!(in rt.alloc(); "{tally}")?;
    assert_eq!(rt;
        line.as_str(),
        "datagrams 2 delivered 1 feedback 1 relayed 0 refused 1 failed 2"
    );
    were_sent(&rt, sent.as_slice(), &[(6001, b"\x45\xaa")]);
    Ok(())
}

#[test]
fn everything_goes_to_its_port_in_its_order(rt: HostRuntime) -> Result<(), Fail> {
    let datagrams: [Option<&[u8]>; 3] = [
        Some(b"\x00\x01\xe0\xe0\xf2\x20\x07\xf0\x00\xfc\x00\xb7\x45\xaa"),
        Some(b"\x00\x02\xfc\x81\x2c\x00\xe6\x45\x01\x02"),
        Some(b"\x00\x02\x45\x81\x2c\x01\x02"),
    ];
    let (tally, sent) = served(rt.alloc(), &datagrams, 0)?;
    let wanted: [(u16, &[u8]); 7] = [
        (6003, b"\x20\x07"),
        (6003, b""),
        (6001, b"\x45\xaa"),
        (6002, b"\xf1\x00"),
        (6004, b"\x45\x01\x02"),
        (6005, b"\xf3\x81\x2c\x00"),
        (6004, b"\x45\x01\x02"),
    ];
    were_sent(&rt, sent.as_slice(), &wanted);
    assert_eq!(rt; tally.relayed, 2);
    assert_eq!(rt; tally.delivered, 3);
    Ok(())
}

#[test]
fn what_names_no_link_is_refused(rt: HostRuntime) -> Result<(), Fail> {
    let datagrams: [Option<&[u8]>; 6] = [
        Some(b""),
        Some(b"\x00"),
        Some(b"\x00\x09\x10\xac"),
        Some(b"\x01\x00\xfc\x00\xb7\x45\xaa"),
        Some(b"\x00\x01"),
        Some(b"\x00\x01\x10\xac"),
    ];
    let (tally, sent) = served(rt.alloc(), &datagrams, 0)?;
    were_sent(&rt, sent.as_slice(), &[]);
    assert_eq!(rt; tally.datagrams, 6);
    assert_eq!(rt; tally.refused, 6);
    assert_eq!(rt; tally.failed, 0);
    Ok(())
}

/// The longest datagram of UDP over IPv4, in octets.
const LONGEST_OF_UDP: usize = 65_507;

/// The longest datagram, in octets: a link's number and the longest packet.
const LONGEST: usize = 65_537;

#[test]
fn the_longest_packets_are_served_whole(rt: HostRuntime) -> Result<(), Fail> {
    let first = b"\x00\x01\xfc\x00\xb7\x45\xaa";
    let mut longest = Vec::new(rt.alloc());
    longest.extend_from_slice(b"\x00\x01")?;
    longest.resize(LONGEST, 0x45)?;
    for size in LONGEST_OF_UDP..LONGEST + 1 {
        let datagram = &longest.as_slice()[..size];
        let (tally, sent) = served(rt.alloc(), &[Some(first), Some(datagram)], 0)?;
        assert_eq!(rt; tally.delivered, 2);
        let wanted: [(u16, &[u8]); 3] = [
            (6001, b"\x45\xaa"),
            (6002, b"\xf1\x00"),
            (6001, &datagram[2..]),
        ];
        were_sent(&rt, sent.as_slice(), &wanted);
    }
    Ok(())
}

#[test]
fn counts_stay_at_the_greatest(rt: HostRuntime) -> Result<(), Fail> {
    let (links, mut concentrator) = made(rt.alloc())?;
    let greatest = ServeTally {
        datagrams: u64::MAX,
        delivered: u64::MAX,
        feedback: u64::MAX,
        relayed: u64::MAX,
        refused: u64::MAX,
        failed: u64::MAX,
    };
    let mut tally = greatest;
    let taken = b"\x00\x01\xf2\x20\x07\xfc\x00\xb7\x45\xaa";
    let sends = answer_datagram(&mut concentrator, &links, 0, taken);
    tally.add(&sends, 2);
    let sends = answer_datagram(&mut concentrator, &links, 0, b"\x00\x01\xf9");
    tally.add(&sends, 2);
    assert_eq!(rt; tally, greatest);
    Ok(())
}

/// Whole IR, first UO-0 and UOR-2-TS jump, under CID 0 of link 1.
const CALL: [&[u8]; 3] = [WHOLE_IR, b"\x10\xac", b"\xd4\xc3\x3e\xad"];

/// The length of the packets of the call, in octets.
const LENGTH: usize = 41;

/// The packets that these datagrams deliver, and their port.
const PACKETS: [(u16, &[u8]); 3] = [
    (
        6001,
        b"\x45\x00\x00\x29\x00\x01\x00\x00\x40\x11\x66\xc1\x0a\x00\x00\x01\x0a\x00\x00\x02\x13\x88\x13\x8a\x00\x15\x00\x00\x80\x00\x00\x01\x00\x00\x00\xa0\x00\x00\x00\x01\xab",
    ),
    (
        6001,
        b"\x45\x00\x00\x29\x00\x02\x00\x00\x40\x11\x66\xc0\x0a\x00\x00\x01\x0a\x00\x00\x02\x13\x88\x13\x8a\x00\x15\x00\x00\x80\x00\x00\x02\x00\x00\x01\x40\x00\x00\x00\x01\xac",
    ),
    (
        6001,
        b"\x45\x00\x00\x29\x00\x03\x00\x00\x40\x11\x66\xbf\x0a\x00\x00\x01\x0a\x00\x00\x02\x13\x88\x13\x8a\x00\x15\x00\x00\x80\x80\x00\x03\x00\x00\x0c\x80\x00\x00\x00\x01\xad",
    ),
];

/// Datagrams under other CIDs and links, or under none.
const HOSTILE: [&[u8]; 24] = [
    b"",
    b"\x00",
    b"\x00\x01",
    b"\x00\x01\xe0",
    b"\x00\x01\xe1\xf1\x00",
    b"\x00\x01\xff\x00",
    b"\x00\x01\xf9",
    b"\x00\x01\xe1\xe0",
    b"\x00\x01\xe1",
    b"\x00\x01\xf0\x09\x01",
    b"\x00\x01\xf2\x20\x07",
    b"\x00\x01\xe1\xfc\x00\x30\x45\xaa",
    b"\x00\x01\xe1\x45\xff",
    b"\x00\x01\xe2\xfc\x00\x81\x45\xaa",
    b"\x00\x01\xe2\xfc\x00\x80\x45\xaa",
    b"\x00\x01\xe3\x10\xac",
    b"\x00\x01\xe7\xc0\x03\x80\xc1\x04",
    b"\x00\x01\xe8\xf8\x01\x0e",
    b"\x00\x02\xfc\x81\x2c\x00\xe6\x45\x01\x02",
    b"\x00\x02\x45\x81\x2c\x01\x02",
    b"\x00\x02\xfc\xc0",
    b"\x00\x02\xe1\xfc",
    b"\x00\x09\x10\xac",
    b"\x01\x00\x10\xac",
];

/// How many hostile datagrams come before each datagram of the call.
const BETWEEN: u32 = 33_334;

/// A front that gives a call's datagrams, each after this many hostile ones, and keeps the whole packets
/// that are sent to the call's link.
#[derive(Drop)]
struct Flood {
    taken: u32,
    sent: Vec<(u16, Vec<u8>)>,
}

impl Flood {
    /// The next datagram in two parts: link 1 and a packet of the call, or nothing and a hostile one.
    fn datagram(&self) -> (&'static [u8], &'static [u8]) {
        let place = (self.taken / (BETWEEN + 1)) as usize;
        if self.taken % (BETWEEN + 1) == BETWEEN && place < CALL.len() {
            (b"\x00\x01", CALL[place])
        } else {
            (b"", HOSTILE[self.taken as usize % HOSTILE.len()])
        }
    }
}

impl Front for Flood {
    fn receive(&mut self, buffer: &mut [u8]) -> Option<(usize, u64)> {
        let (link, packet) = self.datagram();
        self.taken = self.taken.wrapping_add(1);
        let size = link.len() + packet.len();
        let (front, behind) = buffer.get_mut(..size)?.split_at_mut(link.len());
        front.copy_from_slice(link);
        behind.copy_from_slice(packet);
        Some((size, 0))
    }

    fn send(&mut self, port: u16, octets: &[u8]) -> bool {
        if port != PORTS_1.deliver || octets.len() < LENGTH {
            return true;
        }
        is_kept(&mut self.sent, port, octets)
    }
}

#[test]
fn a_flood_changes_no_packet_of_a_call(rt: HostRuntime) -> Result<(), Fail> {
    let (links, mut concentrator) = made(rt.alloc())?;
    let mut flood = Flood {
        taken: 0,
        sent: Vec::new(rt.alloc()),
    };
    let count = 3 * (BETWEEN + 1);
    let tally = serve(rt.alloc(), &mut concentrator, &links, &mut flood, count)?;
    assert_eq!(rt; tally.datagrams, 100_005);
    assert_eq!(rt; tally.failed, 0);
    were_sent(&rt, flood.sent.as_slice(), &PACKETS);
    Ok(())
}
