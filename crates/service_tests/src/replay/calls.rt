//! In which order a replay reads, writes and flushes.

use super::{Pieces, Taker, concentrator, steady_reader, willing_writer};
use crate::examples::LINKS;
use rohc_replay::{RunFault, Tally, replay};
use std::alloc::Global;
use std::cell::RefCell;
use std::io::{self, Read, Write};
use std::process::Abort;

/// A reader or a writer that notes each call as a letter.
#[derive(Drop)]
struct Noted<'a, T> {
    inner: T,
    calls: &'a RefCell<String>,
}

impl<T> Noted<'_, T> {
    fn note(&self, letter: &str) -> io::Result<()> {
        if let Ok(mut calls) = self.calls.try_borrow_mut() {
            calls.push_str(letter)?;
        }
        Ok(())
    }
}

impl Read for Noted<'_, Pieces<'_>> {
    fn read(&mut self, buf: &mut [u8]) -> io::Result<usize> {
        self.note("r")?;
        self.inner.read(buf)
    }
}

impl Write for Noted<'_, Taker> {
    fn write(&mut self, buf: &[u8]) -> io::Result<usize> {
        self.note("w")?;
        self.inner.write(buf)
    }

    fn flush(&mut self) -> io::Result<()> {
        self.note("f")?;
        self.inner.flush()
    }
}

/// A script, how many of its reads succeed, and the calls: `r` for a read, `w` for a write, `f` for a flush.
type Row = (&'static str, usize, &'static str);

const WHOLE: [Row; 3] = [
    ("", 1, "rf"),
    ("arrive 9 0 -\n", 2, "rwfrf"),
    ("arrive 9 0 -\narrive 9 0 -", 2, "rwfrwf"),
];

const CUT: [Row; 3] = [
    ("arrive 9 0 -\n", 0, "r"),
    ("arrive 9 0 -\n", 1, "rwfr"),
    ("arrive 9 0 -\narrive 9 0 -", 1, "rwfr"),
];

#[test]
fn one_flush_follows_the_last_line_and_none_a_failed_read(rt: HostRuntime) {
    for row in WHOLE {
        assert!(rt; calls_are(&rt, rt.alloc(), row).is_ok(), "for {row:?}");
    }
    for row in CUT {
        let told = calls_are(&rt, rt.alloc(), row);
        assert!(rt; matches!(&told, Err(RunFault::Read { .. })), "for {row:?}");
    }
}

/// Replays the script of a row, and compares its calls. Returns the result of the replay.
fn calls_are(rt: &impl Abort, alloc: Global, row: Row) -> Result<Tally, RunFault> {
    let (script, reads, wanted) = row;
    let calls = RefCell::new(String::new(alloc));
    let told = noted_replay(rt, alloc, script, reads, &calls);
    assert_eq!(rt; calls.into_inner().as_str(), wanted);
    told
}

/// Replays a script, and notes the calls. Only the first `reads` reads succeed.
fn noted_replay(
    rt: &impl Abort,
    alloc: Global,
    script: &str,
    reads: usize,
    calls: &RefCell<String>,
) -> Result<Tally, RunFault> {
    let mut pieces = steady_reader(script.as_bytes(), 4096);
    pieces.calls_left = reads;
    let mut reader = Noted {
        inner: pieces,
        calls,
    };
    let mut writer = Noted {
        inner: willing_writer(alloc),
        calls,
    };
    let mut concentrator = concentrator(rt, alloc, LINKS);
    replay(alloc, &mut concentrator, &mut reader, &mut writer)
}
