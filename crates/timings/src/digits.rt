//! Times what a replay asks of `hex`, and nothing else: for each line of a script `decode_to_slice` for the digits of
//! its packet, and for each answer line `encode_to_slice` for the octets that its digits encode.
//!
//! Standard output gets the number of calls, the octets that they read or wrote, and the sum of each call's last
//! written octet. Standard error gets the nanoseconds of each turn.

use crate::input::read_text;
use hex::{decode_to_slice, encode_to_slice};
use std::alloc::Global;
use std::io;
use std::rt::{Clock, Files};
use std::time::Instant;

/// The most octets that a call may read or write.
const LONGEST: usize = 131_072;

/// The sums over the calls of a turn.
#[derive(Clone, Copy, PartialEq, Eq)]
struct Sum {
    calls: u64,
    /// The octets that were decoded or encoded.
    octets: u64,
    /// The sum of the last octets that the calls wrote.
    lasts: u64,
}

/// The buffers that the calls write into.
#[derive(Drop)]
struct Buffers {
    octets: Vec<u8>,
    text: Vec<u8>,
}

/// The fourth words of those lines of a text that have four: the digits of a packet in a script, and those of a
/// rebuilt packet or of feedback among the answers.
fn fourth_words<'a>(alloc: Global, text: &'a str) -> io::Result<Vec<&'a [u8]>> {
    let mut found = Vec::new(alloc);
    for line in text.lines() {
        if let Some(word) = line.split(' ').nth(3) {
            found.push(word.as_bytes())?;
        }
    }
    Ok(found)
}

impl Sum {
    /// Counts a call that took or gave this many octets and wrote these.
    fn count(&mut self, octets: usize, written: &[u8]) {
        let last = written.last().copied().unwrap_or(0);
        self.calls = self.calls.wrapping_add(1);
        self.octets = self.octets.wrapping_add(octets as u64);
        self.lasts = self.lasts.wrapping_add(u64::from(last));
    }
}

impl Buffers {
    /// Buffers with room for the longest call.
    fn new(alloc: Global) -> io::Result<Self> {
        Ok(Buffers {
            octets: vec![in alloc; 0u8; LONGEST]?,
            text: vec![in alloc; 0u8; LONGEST]?,
        })
    }

    /// Decodes these digits, as a replay decodes those of a packet.
    fn decode(&mut self, digits: &[u8], sum: &mut Sum) {
        let half = digits.len() / 2;
        if half > self.octets.len() {
            return;
        }
        let octets = &mut self.octets[..half];
        if decode_to_slice(digits, octets).is_ok() {
            sum.count(half, octets);
        }
    }

    /// Encodes half as many octets as there are digits, as a replay encodes those of an answer. The time doesn't
    /// depend on their values.
    fn encode(&mut self, digits: &[u8], sum: &mut Sum) {
        let half = digits.len() / 2;
        if half > self.octets.len() || half > self.text.len() / 2 {
            return;
        }
        let octets = &self.octets[..half];
        let text = &mut self.text[..half * 2];
        if encode_to_slice(octets, text).is_ok() {
            sum.count(half, text);
        }
    }
}

/// One turn: all calls.
#[inline(never)]
fn run(packets: &[&[u8]], answers: &[&[u8]], buffers: &mut Buffers) -> Sum {
    let mut sum = Sum {
        calls: 0,
        octets: 0,
        lasts: 0,
    };
    for digits in packets {
        buffers.decode(digits, &mut sum);
    }
    for digits in answers {
        buffers.encode(digits, &mut sum);
    }
    sum
}

/// Times one turn, and prints its sums and its nanoseconds.
fn time_turn<R>(
    rt: &R,
    packets: &[&[u8]],
    answers: &[&[u8]],
    buffers: &mut Buffers,
) -> io::Result<()>
where
    R: Print + Eprint + Clock,
{
    let start = Instant::now(rt)?;
    let sum = run(packets, answers, buffers);
    let nanos = start.elapsed(rt)?.as_nanos();
    println!(rt;
        "calls {} octets {} lasts {}",
        sum.calls, sum.octets, sum.lasts
    )?;
    eprintln!(rt; "nanoseconds {nanos}")
}

/// Times so many turns of the calls for a script and the answers to it.
pub(crate) fn time<R>(rt: &R, script: &str, answers: &str, turns: u32) -> io::Result<()>
where
    R: Files + Print + Eprint + Clock + AllocGlobal,
{
    let alloc = rt.alloc();
    let script = read_text(rt, script)?;
    let answers = read_text(rt, answers)?;
    let packets = fourth_words(alloc, script.as_str())?;
    let answers = fourth_words(alloc, answers.as_str())?;
    let mut buffers = Buffers::new(alloc)?;
    for _ in 0..turns {
        time_turn(rt, packets.as_slice(), answers.as_slice(), &mut buffers)?;
    }
    Ok(())
}
