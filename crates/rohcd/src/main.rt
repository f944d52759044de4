//! rohcd: a ROHC decompressor for many links.
#![tactic(auto)]

use rohc_end::End;
use rohc_program::run;
use std::process::ExitCode;
use std::rt::Env;
use std::{env, io};

/// The words of the command line after the program's name.
fn words<R: Env + AllocGlobal>(rt: &R) -> io::Result<Vec<String>> {
    let mut words = Vec::new(rt.alloc());
    for word in env::args(rt)?.skip(1) {
        words.push(word)?;
    }
    Ok(words)
}

fn main(rt: HostRuntime) -> ExitCode {
    let end = match words(&rt) {
        Ok(words) => run(&rt, words.as_slice()),
        Err(e) if e.kind() == io::ErrorKind::InvalidData => End::CommandLine,
        Err(_) => End::Memory,
    };
    if end != End::Done {
        let _ = eprintln!(rt; "{end}");
    }
    ExitCode::from(end.status())
}
