//! In how many writes an answer goes.

use super::replayed;
use crate::examples::LINKS;
use std::alloc::{AllocError, Global};
use std::process::Abort;

/// How many octets a payload has, how many writes its line goes in, and how many octets the line has.
const WRITES: [(usize, usize, usize); 2] = [(200, 1, 408), (1400, 3, 2808)];

#[test]
fn a_short_line_is_one_write_and_a_long_one_goes_in_parts(rt: HostRuntime) {
    for (size, writes, len) in WRITES {
        goes_in(&rt, rt.alloc(), size, (writes, len));
    }
}

/// A payload of this size goes in this many writes, with this many octets in all.
fn goes_in(rt: &impl Abort, alloc: Global, size: usize, written: (usize, usize)) {
    let line = line_with_payload(alloc, size).expect(rt, "memory");
    let (_, whole) = replayed(rt, alloc, LINKS, line.as_str(), usize::MAX);
    let (_, slow) = replayed(rt, alloc, LINKS, line.as_str(), 7);
    assert_eq!(rt; (usize::MAX - whole.calls_left, whole.text.len()), written);
    assert!(rt; whole.text.ends_with(b"5a5a5a\n"));
    assert_eq!(rt; whole.text.as_slice(), slow.text.as_slice());
}

/// A line with an IR of profile 0x0000 for CID 0 of link 3, whose payload has this many octets.
fn line_with_payload(alloc: Global, size: usize) -> Result<String, AllocError> {
    let mut line = String::from_str(alloc, "arrive 3 0 fc00b7")?;
    for _ in 0..size {
        line.push_str("5a")?;
    }
    Ok(line)
}
