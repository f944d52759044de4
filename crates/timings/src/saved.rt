//! Times saving and restoring all contexts that a script leaves, beside copying and hashing as many octets.
//!
//! Standard output gets the numbers of contexts and of octets, and standard error the nanoseconds of each turn.

use crate::input::{bad_text, read_text};
use crate::script::Script;
use rohc_concentrator::{Answer, Concentrator, LinkSetting};
use rohc_links::read_links;
use rohc_saved::{restore, save};
use sha2::{Digest, Sha256};
use std::io;
use std::rt::{Clock, Files};
use std::time::Instant;

/// The nanoseconds since then.
fn since<R: Clock>(rt: &R, start: Instant) -> io::Result<u128> {
    Ok(start.elapsed(rt)?.as_nanos())
}

/// Saves all contexts to an empty text, and returns the nanoseconds.
fn time_saving<R: Clock>(
    rt: &R,
    concentrator: &Concentrator,
    text: &mut Vec<u8>,
) -> io::Result<u128> {
    let start = Instant::now(rt)?;
    match save(concentrator, 0, text) {
        Ok(_) => since(rt, start),
        Err(_) => Err(bad_text()),
    }
}

/// Restores the contexts of a text. Returns whether it could be done, and the nanoseconds.
fn time_restoring<R>(rt: &R, settings: &[LinkSetting], text: &[u8]) -> io::Result<(bool, u128)>
where
    R: Clock + AllocGlobal,
{
    let start = Instant::now(rt)?;
    let restored = restore(rt.alloc(), settings, text).is_ok();
    Ok((restored, since(rt, start)?))
}

/// Copies octets to a text, and returns the nanoseconds.
fn time_copying<R: Clock>(rt: &R, octets: &[u8], text: &mut Vec<u8>) -> io::Result<u128> {
    let start = Instant::now(rt)?;
    text.clear();
    text.extend_from_slice(octets)?;
    since(rt, start)
}

/// Hashes a text. Returns the first octet of its digest, and the nanoseconds.
fn time_hashing<R: Clock>(rt: &R, text: &[u8]) -> io::Result<(u8, u128)> {
    let start = Instant::now(rt)?;
    let digest = Sha256::digest(text);
    Ok((digest[0], since(rt, start)?))
}

/// Times one turn, and prints its nanoseconds.
fn time_turn<R>(
    rt: &R,
    settings: &[LinkSetting],
    concentrator: &Concentrator,
    octets: &[u8],
) -> io::Result<()>
where
    R: Print + Eprint + Clock + AllocGlobal,
{
    let mut text = Vec::with_capacity(rt.alloc(), octets.len())?;
    let saving = time_saving(rt, concentrator, &mut text)?;
    let (restored, restoring) = time_restoring(rt, settings, text.as_slice())?;
    let copying = time_copying(rt, octets, &mut text)?;
    let (digest, hashing) = time_hashing(rt, text.as_slice())?;
    println!(rt; "restored {restored} digest {digest}")?;
    eprintln!(rt; "save {saving} restore {restoring} copy {copying} hash {hashing}")
}

/// Times so many turns with the contexts of a concentrator.
fn time_turns<R>(
    rt: &R,
    settings: &[LinkSetting],
    concentrator: &Concentrator,
    turns: u32,
) -> io::Result<()>
where
    R: Print + Eprint + Clock + AllocGlobal,
{
    let mut octets = Vec::new(rt.alloc());
    if save(concentrator, 0, &mut octets).is_err() {
        return Err(bad_text());
    }
    println!(rt; "octets {}", octets.len())?;
    for _ in 0..turns {
        time_turn(rt, settings, concentrator, octets.as_slice())?;
    }
    Ok(())
}

/// Times so many turns with the contexts that a script leaves.
pub(crate) fn time<R>(rt: &R, links: &str, script: &str, turns: u32) -> io::Result<()>
where
    R: Files + Print + Eprint + Clock + AllocGlobal,
{
    let text = read_text(rt, links)?;
    let Ok(links) = read_links(rt.alloc(), text.as_str()) else {
        return Err(bad_text());
    };
    let script = Script::read(rt, script)?;
    let arrivals = script.arrivals(rt.alloc())?;
    let Ok(mut concentrator) = Concentrator::new(rt.alloc(), links.settings()) else {
        return Err(bad_text());
    };
    let mut answer = Answer::blank();
    for arrival in arrivals.iter() {
        concentrator.arrive_into(arrival.link, arrival.moment, arrival.octets, &mut answer);
    }
    time_turns(rt, links.settings(), &concentrator, turns)
}
