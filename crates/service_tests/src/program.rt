//! How the program ends, and its datagrams over loopback.

mod udp;

use rohc_end::End;
use rohc_program::run;
use std::alloc::{AllocError, Global};
use std::fs;
use std::net::{Ipv4Addr, Net, UdpSocket};
use std::rt::Files;
use std::test::Fail;
use std::time::Clock;

/// Link 1 of the worked examples, without its ports.
const LINK_1: &str = "version = 1
[[link]]
number = 1
cid = \"small\"
max_cid = 15
mode = \"O\"
k1 = 2
n1 = 3
k2 = 2
n2 = 3
packet_ms = 20
static_nack_ms = 1000
";

#[test]
fn each_end_has_its_status_and_its_text(rt: HostRuntime) -> Result<(), Fail> {
    let ends = [
        (End::Done, 0, ""),
        (End::CommandLine, 2, "rohcd: command line"),
        (End::LinksFile("NoLinks"), 3, "rohcd: links file: NoLinks"),
        (End::Read, 4, "rohcd: read"),
        (End::Write, 4, "rohcd: write"),
        (End::Socket, 4, "rohcd: socket"),
        (End::Memory, 5, "rohcd: memory"),
    ];
    for (end, status, text) in ends {
        let shown = format!(in rt.alloc(); "{end}")?;
        assert_eq!(rt; end.status(), status);
        assert_eq!(rt; shown.as_str(), text);
    }
    Ok(())
}

#[test]
fn a_port_that_is_taken_is_socket(rt: HostRuntime) -> Result<(), Fail> {
    let taken = UdpSocket::bind(&rt, (Ipv4Addr::LOCALHOST, 0))?;
    let port = taken.local_addr()?.port();
    let path = format!(in rt.alloc(); "/tmp/rohcd-{port}.toml")?;
    let links = format!(in rt.alloc();
        "{LINK_1}deliver_port = 6001\nfeedback_port = 6002\nrelay_port = 6003\n"
    )?;
    fs::write(&rt, path.as_str(), links.as_str())?;
    let end = end_at(&rt, port, path.as_str())?;
    fs::remove_file(&rt, path.as_str())?;
    assert_eq!(rt; (end, end.status()), (End::Socket, 4));
    Ok(())
}

/// How the program ends that serves at this port, with the links of this file.
fn end_at<R>(rt: &R, port: u16, path: &str) -> Result<End, AllocError>
where
    R: Files + Input + Print + Net + Clock + AllocGlobal,
{
    let line = format!(in rt.alloc(); "serve --count 1 --port {port} --links {path}")?;
    let words = words_of(rt.alloc(), line.as_str())?;
    Ok(run(rt, words.as_slice()))
}

/// The words of a line.
fn words_of(alloc: Global, line: &str) -> Result<Vec<String>, AllocError> {
    let mut words = Vec::new(alloc);
    for word in line.split(' ') {
        words.push(word.to_string(alloc)?)?;
    }
    Ok(words)
}
