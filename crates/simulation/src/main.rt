//! Lives of gateways in a simulated outside.
//!
//! In each life, from a seed, a gateway's service answers honest and hostile datagrams. Links are held and exported, calls to
//! the outside fail, the system's clock jumps, and the gateway saves while it runs and at its stops. It is killed, alone or with
//! its host, also in the middle of a save. What it
//! sends is compared with machines that run alone, its file with what was saved, and its counts with what was done.
//!
//! usage: `simulation [FIRST COUNT]`. Without words it runs a thousand lives, from the first seed on, and prints only what is
//! wrong. With words the last line says what was done.
#![tactic(auto)]

mod life;
mod loopback;
mod machines;
mod sender;
mod shadow;
mod wrong;

use life::{Life, Tally};
use std::env;
use std::io::{self, BufWriter, Write};
use std::rt::Env;

/// The first seed, and how many lives there are.
#[derive(Clone, Copy)]
struct Order {
    first: u64,
    count: u64,
}

/// What the words of the command line ask for, if there are words.
fn order_in<R: Env + AllocGlobal>(rt: &R) -> io::Result<Option<Order>> {
    let mut words = env::args(rt)?.skip(1);
    let (Some(first), Some(count)) = (words.next(), words.next()) else {
        return Ok(None);
    };
    match (first.as_str().parse(), count.as_str().parse()) {
        (Ok(first), Ok(count)) => Ok(Some(Order { first, count })),
        _ => Ok(None),
    }
}

/// Adds what was done in a life.
fn add(all: &mut Tally, one: Tally) {
    all.datagrams = all.datagrams.saturating_add(one.datagrams);
    all.delivered = all.delivered.saturating_add(one.delivered);
    all.saves = all.saves.saturating_add(one.saves);
    all.ends = all.ends.saturating_add(one.ends);
}

/// Lives a life, and writes what is wrong in it. Returns whether nothing is.
fn is_right<W: Write>(out: &mut W, life: &mut Life, seed: u64) -> io::Result<bool> {
    match life.live() {
        Ok(()) => Ok(true),
        Err(wrong) => {
            writeln!(out, "seed {seed}: {wrong}")?;
            Ok(false)
        }
    }
}

/// Lives so many lives, and writes what is wrong.
fn live_all<R: AllocGlobal, W: Write>(rt: &R, out: &mut W, order: Order) -> io::Result<Tally> {
    let mut tally = Tally::default();
    let mut wrong = 0u64;
    for place in 0..order.count {
        let seed = order.first.saturating_add(place);
        let Ok(mut life) = Life::begin(rt.alloc(), seed) else {
            return Err(io::Error::from(io::ErrorKind::OutOfMemory));
        };
        wrong = wrong.saturating_add(u64::from(!is_right(out, &mut life, seed)?));
        add(&mut tally, life.tally);
    }
    let count = order.count;
    writeln!(out, "{count} lives, {wrong} of them wrong")?;
    Ok(tally)
}

fn main(rt: HostRuntime) -> io::Result<()> {
    let asked = order_in(&rt)?;
    let order = asked.unwrap_or(Order {
        first: 1,
        count: 1000,
    });
    let mut out = BufWriter::new(rt.alloc(), io::writer(&rt))?;
    let tally = live_all(&rt, &mut out, order)?;
    if asked.is_some() {
        let Tally {
            datagrams,
            delivered,
            saves,
            ends,
        } = tally;
        writeln!(
            &mut out,
            "{datagrams} datagrams, {delivered} packets delivered, {saves} saves, {ends} restarts"
        )?;
    }
    out.flush()
}
