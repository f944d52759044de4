//! Times the arrivals of a script without the reading of its lines.
//!
//! Standard output gets the number of packets, the number delivered, the octets of those, and the sum of the last
//! octets of their heads, or with copies those of the packets in the buffer. Standard error gets the nanoseconds of
//! each turn. Each turn starts without contexts.

ghost use Rattle.std.specs.Prelude.{◌≤◌, length};

use crate::input::{bad_text, read_text};
use crate::script::{Arrival, Script};
use rohc_concentrator::{Answer, Concentrator, LinkSetting};
use rohc_context::Delivered;
use rohc_links::read_links;
use std::io;
use std::rt::{Clock, Files};
use std::time::Instant;

/// The longest head of a packet, in octets.
const HEAD: usize = 40;

/// The octets that a packet may need: an arrival's at most, and a head.
const ROOM: usize = 65_535 + HEAD;

/// Where a delivered packet goes.
#[derive(Clone, Copy, PartialEq, Eq)]
pub(crate) enum Target {
    /// It stays in the answer, which borrows its payload.
    Answer,
    /// It is also put into one buffer, head and payload, as a gateway does before it sends it.
    Buffer,
}

/// The sums over the outcomes of the packets.
#[derive(Clone, Copy, PartialEq, Eq)]
struct Sum {
    delivered: u64,
    octets: u64,
    /// The sum of the last octets of all heads, or of all packets in the buffer.
    lasts: u64,
}

/// The packet of an answer, if one was delivered.
#[inline(always)]
fn delivered<'b, 'a>(answer: &'b Answer<'a>) -> Option<&'b Delivered<'a>> {
    let Answer::Arrived { reply, .. } = answer else {
        return None;
    };
    reply.packet.as_ref()
}

/// Puts a packet's head at the start of a buffer. The head of nearly every packet has 40 octets, and the compiler makes
/// no call of a copy whose length it knows.
#[inline(always)]
fn put_head(head: &[u8], buffer: &mut [u8])
    requires { length head.now ≤ length buffer.old }
{
    if head.len() == HEAD {
        buffer[..HEAD].copy_from_slice(head);
    } else {
        buffer[..head.len()].copy_from_slice(head);
    }
}

/// Puts a packet into a buffer, and returns the octets that stand there; none if the buffer is too short. The payload
/// comes first, since the head was just written in parts of two to eight octets, and reading it back at once in wider
/// parts would wait for that.
#[inline(always)]
fn put_packet<'b>(packet: &Delivered<'_>, buffer: &'b mut [u8]) -> &'b [u8] {
    let head = packet.head.as_slice();
    if head.len() > buffer.len() || packet.payload.len() > buffer.len() - head.len() {
        return &[];
    }
    let len = head.len() + packet.payload.len();
    buffer[head.len()..len].copy_from_slice(packet.payload);
    put_head(head, buffer);
    &buffer[..len]
}

impl Sum {
    /// Counts a packet of so many octets.
    #[inline(always)]
    fn add(&mut self, len: u64, last: Option<&u8>) {
        let last = last.copied().unwrap_or(0);
        self.delivered = self.delivered.wrapping_add(1);
        self.octets = self.octets.wrapping_add(len);
        self.lasts = self.lasts.wrapping_add(u64::from(last));
    }

    /// Counts an answer. It is a function of its own and reads an octet, so that the answer must be made whole.
    #[inline(never)]
    fn count(&mut self, answer: &Answer<'_>) {
        let Some(packet) = delivered(answer) else {
            return;
        };
        let len = packet.head.len() as u64 + packet.payload.len() as u64;
        self.add(len, packet.head.last());
    }

    /// Puts the packet of an answer into a buffer, and counts what stands there.
    #[inline(never)]
    fn count_copy(&mut self, answer: &Answer<'_>, buffer: &mut [u8]) {
        let Some(packet) = delivered(answer) else {
            return;
        };
        let copy = put_packet(packet, buffer);
        self.add(copy.len() as u64, copy.last());
    }
}

/// One turn: all arrivals in their order. There is one loop for both targets. With a loop for each, the compiler
/// doesn't inline `arrive_into`, and an arrival takes 44 instructions more.
#[inline(never)]
fn run(
    concentrator: &mut Concentrator,
    arrivals: &[Arrival<'_>],
    target: Target,
    buffer: &mut [u8],
) -> Sum {
    let mut sum = Sum {
        delivered: 0,
        octets: 0,
        lasts: 0,
    };
    let mut answer = Answer::blank();
    for arrival in arrivals.iter() {
        concentrator.arrive_into(arrival.link, arrival.moment, arrival.octets, &mut answer);
        match target {
            Target::Answer => sum.count(&answer),
            Target::Buffer => sum.count_copy(&answer, buffer),
        }
    }
    sum
}

/// Times one turn on a concentrator without contexts. Returns its sums and its nanoseconds.
fn time_run<R>(
    rt: &R,
    settings: &[LinkSetting],
    arrivals: &[Arrival<'_>],
    target: Target,
    buffer: &mut [u8],
) -> io::Result<(Sum, u128)>
where
    R: Clock + AllocGlobal,
{
    let Ok(mut concentrator) = Concentrator::new(rt.alloc(), settings) else {
        return Err(bad_text());
    };
    let start = Instant::now(rt)?;
    let sum = run(&mut concentrator, arrivals, target, buffer);
    Ok((sum, start.elapsed(rt)?.as_nanos()))
}

/// Times one turn, and prints its sums and its nanoseconds. It starts without contexts.
fn time_turn<R>(
    rt: &R,
    settings: &[LinkSetting],
    arrivals: &[Arrival<'_>],
    target: Target,
    buffer: &mut [u8],
) -> io::Result<()>
where
    R: Print + Eprint + Clock + AllocGlobal,
{
    let (sum, nanos) = time_run(rt, settings, arrivals, target, buffer)?;
    let packets = arrivals.len();
    println!(rt;
        "packets {packets} delivered {} octets {} lasts {}",
        sum.delivered, sum.octets, sum.lasts
    )?;
    eprintln!(rt; "nanoseconds {nanos}")
}

/// Times so many turns of these arrivals.
fn time_turns<R>(
    rt: &R,
    settings: &[LinkSetting],
    arrivals: &[Arrival<'_>],
    turns: u32,
    target: Target,
) -> io::Result<()>
where
    R: Print + Eprint + Clock + AllocGlobal,
{
    let mut buffer = vec![in rt.alloc(); 0u8; ROOM]?;
    for _ in 0..turns {
        time_turn(rt, settings, arrivals, target, &mut buffer)?;
    }
    Ok(())
}

/// Times so many turns of a script's arrivals.
pub(crate) fn time<R>(
    rt: &R,
    links: &str,
    script: &str,
    turns: u32,
    target: Target,
) -> io::Result<()>
where
    R: Files + Print + Eprint + Clock + AllocGlobal,
{
    let text = read_text(rt, links)?;
    let Ok(links) = read_links(rt.alloc(), text.as_str()) else {
        return Err(bad_text());
    };
    let script = Script::read(rt, script)?;
    let arrivals = script.arrivals(rt.alloc())?;
    time_turns(rt, links.settings(), arrivals.as_slice(), turns, target)
}
