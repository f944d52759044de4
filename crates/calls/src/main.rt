//! Makes calls of a concentrator, one for each line, and writes their answers to standard output.
//!
//! The lines are those of `calls.txt`, or those of standard input if the program is given the word `-`:
//!
//! - `arrive LINK MOMENT OCTETS`, a line of a script (docs/FORMATS.md), which is answered as there.
//! - `reset LINK`, `forget LINK CID`, `expire LINK MOMENT`, `remove LINK`.
//! - `add LINK SETTING` and `change LINK SETTING`. SETTING is the words SIZE MAX_CID MODE K1 N1 K2 N2
//!   PACKET_MS STATIC_NACK_MS IDLE_MS as in a links file, and up to eight words FIRST-LAST-MODE, its ranges.
//! - `put LINK CID FROM_LINK FROM_CID`, which puts what another CID holds. It is saved to octets first, and
//!   read again.
//! - `= NAME`, which begins an example, and is repeated.
//!
//! The answer of a call is one line, `LINK CALL WORDS`. The words are `done`, with the number of contexts
//! that went where the call returns one; the name of its fault; or `no such context`. Any other line is
//! answered as a bad line of a script.
//!
//! Each example begins with one link, whose setting is that of link 1 in examples/worked, and no context.
#![tactic(auto)]

mod call;
mod outcome;
mod run;
mod setting;
mod words;

use run::Run;
use std::io::{self, BufWriter, Input, Read, Write};
use std::rt::{Env, Files};
use std::{env, fs};

/// The file of the calls that are made if no word is given.
const CALLS: &str = "calls.txt";

/// Whether the first word of the command line is `-`.
fn is_asked_for_input<R: Env + AllocGlobal>(rt: &R) -> io::Result<bool> {
    let mut words = env::args(rt)?.skip(1);
    match words.next() {
        Some(word) => Ok(word.as_str() == "-"),
        None => Ok(false),
    }
}

/// The lines of the calls.
fn lines<R: Env + Files + Input + AllocGlobal>(rt: &R) -> io::Result<Vec<u8>> {
    let mut text = Vec::new(rt.alloc());
    if is_asked_for_input(rt)? {
        rt.reader().read_to_end(&mut text)?;
    } else {
        fs::open(rt, CALLS)?.read_to_end(&mut text)?;
    }
    Ok(text)
}

fn main(rt: HostRuntime) -> io::Result<()> {
    let alloc = rt.alloc();
    let text = lines(&rt)?;
    let mut writer = BufWriter::new(alloc, io::writer(&rt))?;
    Run::new(alloc)?.answer_lines(&text, &mut writer)?;
    writer.flush()
}
