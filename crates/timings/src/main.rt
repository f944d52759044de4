//! Times parts of the decompressor.
//!
//!     timings arrivals LINKS SCRIPT [TURNS]
//!     timings copies LINKS SCRIPT [TURNS]
//!     timings saved LINKS SCRIPT [TURNS]
//!     timings digits SCRIPT ANSWERS [TURNS]
//!     timings parts [TURNS]
//!
//! `arrivals` times the arrivals of a script, without the reading of its lines. `copies` also puts each delivered
//! packet into one buffer. `saved` times saving and restoring the contexts that a script leaves. `digits` times what a replay asks of `hex`, and nothing else. `parts` times the 8-bit check,
//! and the rebuilding of headers with their 3-bit check.
//!
//! Standard output gets the results, and standard error the nanoseconds. Files are read before the clock starts.
//! Without words on the command line nothing is timed, and one line says which words there are.
#![tactic(auto)]

mod arrivals;
mod digits;
mod input;
mod parts;
mod saved;
mod script;

use arrivals::Target;
use input::{bad_words, turns_at, word_at, words};
use std::io;
use std::rt::{Clock, Files};

/// What the program prints without words.
const USAGE: &str =
    "timings arrivals|copies|saved LINKS SCRIPT [TURNS], digits SCRIPT ANSWERS [TURNS] or parts [TURNS]";

/// What is timed.
#[derive(Clone, Copy, PartialEq, Eq)]
enum Mode {
    /// The arrivals of a script.
    Arrivals,
    /// The same, with each delivered packet put into one buffer.
    Copies,
    /// Saving and restoring.
    Saved,
    /// The calls of `hex` that a replay makes.
    Digits,
    /// Checks and headers.
    Parts,
}

impl Mode {
    /// The mode that a word names.
    fn of(word: &str) -> io::Result<Self> {
        match word {
            "arrivals" => Ok(Mode::Arrivals),
            "copies" => Ok(Mode::Copies),
            "saved" => Ok(Mode::Saved),
            "digits" => Ok(Mode::Digits),
            "parts" => Ok(Mode::Parts),
            _ => Err(bad_words()),
        }
    }
}

/// Times what the mode names. The words after the first are its files and the number of turns.
fn time<R>(rt: &R, mode: Mode, words: &[String]) -> io::Result<()>
where
    R: Files + Print + Eprint + Clock + AllocGlobal,
{
    let target = match mode {
        Mode::Arrivals => Target::Answer,
        Mode::Copies => Target::Buffer,
        Mode::Saved => {
            return saved::time(
                rt,
                word_at(words, 1)?,
                word_at(words, 2)?,
                turns_at(words, 3, 1),
            );
        }
        Mode::Digits => {
            return digits::time(
                rt,
                word_at(words, 1)?,
                word_at(words, 2)?,
                turns_at(words, 3, 1),
            );
        }
        Mode::Parts => return parts::time(rt, turns_at(words, 1, parts::TURNS)),
    };
    arrivals::time(
        rt,
        word_at(words, 1)?,
        word_at(words, 2)?,
        turns_at(words, 3, 1),
        target,
    )
}

fn main(rt: HostRuntime) -> io::Result<()> {
    let words = words(&rt)?;
    let Some(first) = words.first() else {
        println!(rt; "{USAGE}")?;
        return Ok(());
    };
    time(&rt, Mode::of(first.as_str())?, words.as_slice())
}
