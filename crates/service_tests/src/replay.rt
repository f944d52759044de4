//! Worked examples through `replay`, with their tallies.

mod buffered;
mod calls;
mod faults;
mod honest;
mod lines;

use crate::examples::LINKS;
use rohc_concentrator::Concentrator;
use rohc_links::read_links;
use rohc_replay::{RunFault, Tally, replay};
use std::alloc::{AllocError, Global};
use std::io::{self, Error, ErrorKind, Read, Write};
use std::process::Abort;

/// Example *two calls and noise*, with an unfinished last line.
const SCRIPT: &str =
    "arrive 1 0 fd012b40110a0000010a0000021388138a00000001004000012000000090000001000000a0000980a0ab
arrive 1 999999999999 e110ac
arrive 2 5 fc812c00e6450102
oops
arrive 1 20 10ac
arrive 1 20 e2fc008145aa
arrive 1 40 d4c33ead";

/// Its answers, line by line.
const ANSWERS: [&str; 7] = [
    "1 0 ip 4500002900010000401166c10a0000010a0000021388138a0015000080000001000000a000000001ab
1 0 feedback f420011139
",
    "1 1 refused NoContext\n",
    "2 300 ip 450102\n2 300 feedback f3812c00\n",
    "- - refused BadLine\n",
    "1 0 ip 4500002900020000401166c00a0000010a0000021388138a00150000800000020000014000000001ac\n",
    "1 2 ip 45aa\n1 2 feedback f2e200\n",
    "1 0 ip 4500002900030000401166bf0a0000010a0000021388138a001500008080000300000c8000000001ad\n",
];

/// The concentrator with these links, without a record.
fn concentrator(rt: &impl Abort, alloc: Global, links: &str) -> Concentrator {
    let links = read_links(alloc, links).expect(rt, "links");
    Concentrator::new(alloc, links.settings()).expect(rt, "a concentrator")
}

/// The answers of this many first lines of the script.
fn first_answers(alloc: Global, lines: usize) -> Result<String, AllocError> {
    let mut text = String::new(alloc);
    for answer in ANSWERS.iter().take(lines) {
        text.push_str(answer)?;
    }
    Ok(text)
}

/// A reader that gives pieces of this size and fails when its calls are used up.
#[derive(Drop)]
struct Pieces<'a> {
    rest: &'a [u8],
    size: usize,
    calls_left: usize,
}

impl Read for Pieces<'_> {
    fn read(&mut self, buf: &mut [u8]) -> io::Result<usize> {
        if self.calls_left == 0 {
            return Err(Error::from(ErrorKind::TimedOut));
        }
        self.calls_left -= 1;
        let count = self.size.max(1).min(buf.len()).min(self.rest.len());
        let (piece, rest) = self.rest.split_at(count);
        buf[..count].copy_from_slice(piece);
        self.rest = rest;
        Ok(count)
    }
}

/// What a writer does when its calls are used up.
#[derive(Clone, Copy, PartialEq, Eq)]
enum Tired {
    Fails,
    FailsOnce,
    TakesNone,
    TakesOneThenFails,
}

/// A writer in memory that takes at most this many octets at a call, for a number of calls.
#[derive(Drop)]
struct Taker {
    text: Vec<u8>,
    most: usize,
    calls_left: usize,
    tired: Tired,
    flushes: bool,
}

impl Write for Taker {
    fn write(&mut self, buf: &[u8]) -> io::Result<usize> {
        let count = if self.calls_left > 0 {
            self.calls_left -= 1;
            buf.len().min(self.most)
        } else {
            match self.tired {
                Tired::Fails => return Err(Error::from(ErrorKind::TimedOut)),
                Tired::FailsOnce => {
                    self.calls_left = usize::MAX;
                    return Err(Error::from(ErrorKind::TimedOut));
                }
                Tired::TakesNone => 0,
                Tired::TakesOneThenFails => {
                    self.tired = Tired::Fails;
                    buf.len().min(1)
                }
            }
        };
        self.text.extend_from_slice(&buf[..count])?;
        Ok(count)
    }

    fn flush(&mut self) -> io::Result<()> {
        if self.flushes {
            Ok(())
        } else {
            Err(Error::from(ErrorKind::TimedOut))
        }
    }
}

/// Replays a script on a new concentrator with these links, to a writer that takes so many octets at a call and never
/// fails. Returns both.
fn replayed(
    rt: &impl Abort,
    alloc: Global,
    links: &str,
    script: &str,
    most: usize,
) -> (Concentrator, Taker) {
    let mut concentrator = concentrator(rt, alloc, links);
    let mut reader = steady_reader(script.as_bytes(), 4096);
    let mut writer = willing_writer(alloc);
    writer.most = most;
    let told = replay(alloc, &mut concentrator, &mut reader, &mut writer);
    assert!(rt; told.is_ok(), "for {script}");
    (concentrator, writer)
}

/// Runs a replay through this reader and writer, and compares its result and the text that was written with these.
fn compare_replay(
    rt: &impl Abort,
    alloc: Global,
    reader: &mut Pieces<'_>,
    writer: &mut Taker,
    wanted: Result<Tally, RunFault>,
    text: &str,
) {
    let mut concentrator = concentrator(rt, alloc, LINKS);
    let told = replay(alloc, &mut concentrator, reader, writer);
    compare(rt, told, writer.text.as_slice(), wanted, text);
}

/// Compares what a replay told and wrote with what it should.
fn compare(
    rt: &impl Abort,
    told: Result<Tally, RunFault>,
    written: &[u8],
    wanted: Result<Tally, RunFault>,
    text: &str,
) {
    assert_eq!(rt; told, wanted, "for {text}");
    assert_eq!(rt; written, text.as_bytes(), "for {text}");
}

/// A writer that never fails.
fn willing_writer(alloc: Global) -> Taker {
    Taker {
        text: Vec::new(alloc),
        most: usize::MAX,
        calls_left: usize::MAX,
        tired: Tired::Fails,
        flushes: true,
    }
}

/// A reader that never fails.
fn steady_reader(text: &[u8], size: usize) -> Pieces<'_> {
    Pieces {
        rest: text,
        size,
        calls_left: usize::MAX,
    }
}

/// A worked example: its name, a script of its packets, the answers, and how many of its lines are good and how
/// many bad.
type Example = (&'static str, &'static str, &'static str, u64, u64);

const EXAMPLES: [Example; 4] = [
    ("empty script", "", "", 0, 0),
    (
        "plain call",
        "arrive 1 0 fc00b745aa\n",
        "1 0 ip 45aa\n1 0 feedback f100\n",
        1,
        0,
    ),
    (
        "two calls and noise",
        "arrive 1 999999999999 e110ac\narrive 2 5 fc812c00e6450102\noops\narrive 1 20 e2fc008145aa\narrive 1 0 e710ac\n",
        "1 1 refused NoContext\n2 300 ip 450102\n2 300 feedback f3812c00\n- - refused BadLine\n1 2 ip 45aa\n1 2 feedback f2e200\n1 7 refused NoContext\n",
        4,
        1,
    ),
    ("script ends", "arrive 9 0 -", "9 - refused NoLink\n", 1, 0),
];

#[test]
fn worked_examples(rt: HostRuntime) {
    for (_, script, answers, events, bad) in EXAMPLES {
        let mut reader = steady_reader(script.as_bytes(), 4096);
        let mut writer = willing_writer(rt.alloc());
        let tally = Ok(Tally { events, bad });
        compare_replay(&rt, rt.alloc(), &mut reader, &mut writer, tally, answers);
    }
}
