//! rohc-gateway: a decompressor for many links that runs until it is told to stop.
#![tactic(auto)]

mod answers;
mod check;
mod clocks;
mod connection;
mod drops;
mod expiry;
mod front;
mod gateway;
mod journal;
mod late;
mod lines;
mod links_file;
mod lock;
mod long;
mod manager;
mod moving;
mod names;
mod outputs;
mod regular;
mod restoring;
mod run;
mod saves;
mod setup;
mod sockets;
mod stop;
mod stream;
mod streams;
mod time;

use crate::manager::Manager;
use crate::run::Host;
use crate::setup::Manner;
use rohc_disk::RealDisk;
use rohc_gateway_file::{
    Build, Ending, Level, Log, LogFormat, LostLines, Request, VERSION, read_request,
};
use rohc_loop::{folder_of, read_text};
use std::fs::File;
use std::net::Net;
use std::process::ExitCode;
use std::rt::{Env, Files};
use std::time::Clock;
use std::{env, io};

/// The words of the command line after the program's name.
fn words<R: Env + AllocGlobal>(rt: &R) -> io::Result<Vec<String>> {
    let mut words = Vec::new(rt.alloc());
    for word in env::args(rt)?.skip(1) {
        words.push(word)?;
    }
    Ok(words)
}

/// Does what the words ask for.
fn requested<R>(
    rt: &R,
    log: &mut Log<'_>,
    build: Build<'_>,
    words: &[String],
) -> Result<Ending, Ending>
where
    R: Files<File = File> + Env + Net + Clock + Print + Eprint + AllocGlobal,
{
    let Ok(version) = format!(in rt.alloc(); "{VERSION} ({build})") else {
        return Err(Ending::Memory);
    };
    match read_request(rt, version.as_str(), words)? {
        Request::Check { file, options } => check::check(rt, file, &options),
        Request::Run {
            file,
            options,
            fresh,
        } => {
            let manner = if fresh { Manner::Fresh } else { Manner::Run };
            let host = Host {
                build,
                manager: Manager::of(rt),
            };
            run::run(rt, log, host, file, &options, manner)
        }
    }
}

/// The text of the file in which a package says what it was built from, if there is one: in a folder beside that of the
/// program.
fn build_text<R: Files + AllocGlobal>(rt: &R) -> Option<String> {
    let program = env::current_exe(rt).ok()?;
    let folder = folder_of(program.as_str());
    let path = format!(in rt.alloc(); "{folder}/../share/polorowan/build").ok()?;
    read_text(&mut RealDisk::of(rt), rt.alloc(), path.as_str()).ok()
}

fn main(rt: HostRuntime) -> ExitCode {
    let lost = LostLines::new();
    let mut log = Log {
        is_journal: journal::is_journal(&rt),
        format: LogFormat::Text,
        lost: &lost,
    };
    let text = build_text(&rt);
    let build = Build::of(match &text {
        Some(text) => text.as_str(),
        None => "",
    });
    let ending = match words(&rt) {
        Ok(words) => match requested(&rt, &mut log, build, words.as_slice()) {
            Ok(ending) => ending,
            Err(ending) => ending,
        },
        Err(e) if e.kind() == io::ErrorKind::InvalidData => {
            let _ = eprintln!(rt;
                "error: a word of the command line is not UTF-8; expected UTF-8, also in file names"
            );
            Ending::CommandLine
        }
        Err(_) => Ending::Memory,
    };
    if ending.is_unsaid() {
        log.say(&rt, Level::Error, ending);
    }
    ExitCode::from(ending.status())
}
