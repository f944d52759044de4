//! Reads and writes that fail.

use super::{
    ANSWERS, Pieces, SCRIPT, Taker, Tired, compare_replay, first_answers, steady_reader,
    willing_writer,
};
use rohc_replay::RunFault;
use std::alloc::Global;
use std::fmt::InlineText;
use std::process::Abort;

#[test]
fn each_read_fails_in_turn(rt: HostRuntime) {
    for calls in 0..=SCRIPT.len().div_ceil(7) {
        read_fails(&rt, rt.alloc(), calls);
    }
}

/// Replays the script in pieces of 7 octets, with a read that fails behind this many calls.
fn read_fails(rt: &impl Abort, alloc: Global, calls: usize) {
    let script = SCRIPT.as_bytes();
    let seen = &script[..calls.saturating_mul(7).min(script.len())];
    let finished = seen.iter().filter(|octet| **octet == b'\n').count();
    let want = first_answers(alloc, finished).expect(rt, "memory");
    let mut reader = Pieces {
        rest: script,
        size: 7,
        calls_left: calls,
    };
    let mut writer = willing_writer(alloc);
    let written = want.len() as u64;
    let fault = Err(RunFault::Read { written });
    compare_replay(rt, alloc, &mut reader, &mut writer, fault, want.as_str());
}

#[test]
fn each_write_fails_in_turn(rt: HostRuntime) {
    let whole = first_answers(rt.alloc(), ANSWERS.len()).expect(&rt, "memory");
    let places = [0, 90, 114, 136, 152, 176, 196, 286, 298, 318];
    for tired in [Tired::Fails, Tired::TakesNone, Tired::TakesOneThenFails] {
        let more = usize::from(tired == Tired::TakesOneThenFails);
        for (calls, place) in places.iter().enumerate() {
            let text = whole.as_str().get(..*place + more).unwrap_or("short");
            let mut writer = willing_writer(rt.alloc());
            writer.calls_left = calls;
            writer.tired = tired;
            stops_at(&rt, rt.alloc(), SCRIPT, &mut writer, text);
        }
    }
}

/// Replays a script, and compares what was written before the writer failed with this.
fn stops_at(rt: &impl Abort, alloc: Global, script: &str, writer: &mut Taker, text: &str) {
    let mut reader = steady_reader(script.as_bytes(), 4096);
    let written = text.len() as u64;
    let fault = Err(RunFault::Write { written });
    compare_replay(rt, alloc, &mut reader, writer, fault, text);
}

#[test]
fn the_flush_fails(rt: HostRuntime) {
    let whole = first_answers(rt.alloc(), ANSWERS.len()).expect(&rt, "memory");
    let mut writer = willing_writer(rt.alloc());
    writer.flushes = false;
    stops_at(&rt, rt.alloc(), SCRIPT, &mut writer, whole.as_str());
}

/// Writers that take so many octets at a call and fail behind so many calls, each with what it has then taken.
const WRITERS: [(usize, usize, &str); 4] = [
    (3, 1, "9 -"),
    (7, 2, "9 - refused No"),
    (0, 1, ""),
    (usize::MAX, 0, ""),
];

#[test]
fn a_fault_stops_the_line(rt: HostRuntime) {
    for (most, calls, text) in WRITERS {
        let mut writer = willing_writer(rt.alloc());
        writer.most = most;
        writer.calls_left = calls;
        stops_at(&rt, rt.alloc(), "reset 9", &mut writer, text);
    }
}

/// The faults, and their names.
const FAULTS: [(RunFault, &str); 3] = [
    (RunFault::NoMemory, "NoMemory"),
    (RunFault::Read { written: 1 }, "Read"),
    (RunFault::Write { written: 2 }, "Write"),
];

#[test]
fn faults_show_their_names(rt: HostRuntime) {
    for (fault, name) in FAULTS {
        assert_eq!(rt; InlineText::<16>::of(&fault).as_str(), name);
    }
}
