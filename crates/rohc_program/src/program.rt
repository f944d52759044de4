//! The program, from the words after its name to how it ends.

use crate::buffered::replay_buffered;
use crate::command::{Request, read_request};
use crate::links_file::links_of;
use crate::udp::UdpFront;
use rohc_end::End;
use rohc_replay::RunFault;
use rohc_serve::serve;
use std::io;
use std::io::BufWriter;
use std::net::Net;
use std::rt::Files;
use std::time::Clock;

/// Runs the program with these words.
pub fn run<R>(rt: &R, words: &[String]) -> End
where
    R: Files + Input + Print + Net + Clock + AllocGlobal,
{
    match requested(rt, words) {
        Ok(()) => End::Done,
        Err(end) => end,
    }
}

/// Does what the words ask for.
fn requested<R>(rt: &R, words: &[String]) -> Result<(), End>
where
    R: Files + Input + Print + Net + Clock + AllocGlobal,
{
    match read_request(rt.alloc(), words)? {
        Request::Replay { links } => run_replay(rt, links),
        Request::Serve { links, port, count } => run_serve(rt, links, port, count),
    }
}

/// Runs the script on standard input, and writes its answers to standard output.
fn run_replay<R: Files + Input + Print + AllocGlobal>(rt: &R, links: &str) -> Result<(), End> {
    let (_, mut concentrator) = links_of(rt, links)?;
    let Ok(mut writer) = BufWriter::new(rt.alloc(), io::writer(rt)) else {
        return Err(End::Memory);
    };
    let mut reader = rt.reader();
    match replay_buffered(rt.alloc(), &mut concentrator, &mut reader, &mut writer) {
        Ok(_) => Ok(()),
        Err(RunFault::NoMemory) => Err(End::Memory),
        Err(RunFault::Read { .. }) => Err(End::Read),
        Err(RunFault::Write { .. }) => Err(End::Write),
    }
}

/// Serves `count` receives at the port, and prints the tally on standard output.
fn run_serve<R>(rt: &R, links: &str, port: u16, count: u32) -> Result<(), End>
where
    R: Files + Print + Net + Clock + AllocGlobal,
{
    let (links, mut concentrator) = links_of(rt, links)?;
    let mut front = UdpFront::open(rt, port).map_err(|_| End::Socket)?;
    let tally = serve(rt.alloc(), &mut concentrator, &links, &mut front, count).map_err(
        |_| End::Memory,
    )?;
    println!(rt; "{tally}").map_err(|_| End::Write)
}
