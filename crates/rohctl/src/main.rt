//! rohctl: diagnoses ROHC links.
#![tactic(auto)]

use rohctl_ground::{Ending, Misuse, Screen};
use rohctl_program::run;
use std::io::IsTerminal;
use std::process::ExitCode;
use std::rt::Env;
use std::{env, io};

/// The words of the command line after the program's name.
fn words<R: Env + AllocGlobal>(rt: &R) -> io::Result<Vec<String>> {
    let mut words = Vec::new(rt.alloc());
    for word in env::args(rt)?.skip(1) {
        words.push(word)?;
    }
    Ok(words)
}

/// Whether colours are wanted: standard output is a terminal, and NO_COLOR is absent or empty.
fn wants_colour<R: Env + AllocGlobal>(rt: &R, is_terminal: bool) -> bool {
    match env::var(rt, "NO_COLOR") {
        Ok(text) => is_terminal && text.is_empty(),
        Err(_) => is_terminal,
    }
}

/// Prints how the run ends. Returns its status.
fn end<R: Eprint>(rt: &R, ending: Ending<'_>) -> ExitCode {
    let _ = eprint!(rt; "{ending}");
    ExitCode::from(ending.status())
}

fn main(rt: HostRuntime) -> ExitCode {
    let output = rt.stdout().is_terminal();
    let screen = Screen {
        input: rt.stdin().is_terminal(),
        output,
        colour: wants_colour(&rt, output),
        error: rt.stderr().is_terminal(),
    };
    match words(&rt) {
        Ok(words) => end(&rt, run(&rt, words.as_slice(), screen)),
        Err(e) if e.kind() == io::ErrorKind::InvalidData => {
            end(&rt, Ending::Misuse(Misuse::NotUtf8))
        }
        Err(_) => end(&rt, Ending::Memory),
    }
}
