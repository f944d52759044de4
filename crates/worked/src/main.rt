//! Runs the worked examples, and writes our answers to standard output.
//!
//! `examples.txt` has the examples. `= NAME` begins one, `> LINE` is a line of its script, and `? QUESTION` is a question
//! beside the script. `links-1.toml` and `links-2.toml` have the links, in the two versions of a links file.
//! `hostile-lines.script` is a script that a question runs.
//!
//! Each example runs with both files, with its script in pieces of several sizes, and after each of its packets was cut
//! before each octet. The answers of the first run are written. A run with other answers is named in a line that begins
//! with `differs`, and its answers follow.
#![tactic(auto)]

mod datagrams;
mod example;
mod front;
mod lines;
mod pieces;
mod run;
mod settings;
mod text;

use example::{Example, LinksFile, VERSION_1, VERSION_2};
use std::io::{self, BufWriter, Write};
use text::{bad_text, read_text};

fn main(rt: HostRuntime) -> io::Result<()> {
    let alloc = rt.alloc();
    let files = [
        LinksFile::read(&rt, VERSION_1)?,
        LinksFile::read(&rt, VERSION_2)?,
    ];
    let text = read_text(&rt, "examples.txt")?;
    let hostile = read_text(&rt, "hostile-lines.script")?;
    let Some(examples) = text.as_str().strip_prefix("= ") else {
        return Err(bad_text());
    };
    let mut writer = BufWriter::new(alloc, io::writer(&rt))?;
    for example in examples.split("\n= ") {
        let example = Example::of(example, hostile.as_str());
        writer.write_all(&example.answers(alloc, &files)?)?;
    }
    writer.flush()
}
