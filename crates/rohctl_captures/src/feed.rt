//! `feed`: a capture or a script to the timed port of a gateway on this host.

use crate::bulk::capture_end;
use crate::carriage::{Carriage, sender_in};
use crate::feeder::{Fault, Feeder, Timing};
use crate::framing_words::framing_of;
use crate::rules::{RuleWords, rules_of};
use crate::source::{Front, take_source};
use crate::unmatched::no_frame;
use rohctl_ground::{
    Ending, Misuse, Nothing, Reading, STREAM, Screen, open_told, unprinted, unread,
};
use std::io::Read;
use std::net::Net;
use std::rt::Files;
use std::time::Clock;

/// What is asked of `feed`.
#[derive(Clone, Copy)]
pub struct Feed<'a> {
    /// The capture or the script that is read.
    pub input: &'a str,
    /// The timed port of a gateway on this host.
    pub to: u16,
    /// Which link a frame of a capture belongs to.
    pub rules: RuleWords<'a>,
    /// Who sent the packets of a capture that are sent: an Ethernet or an IPv4 address.
    pub from: Option<&'a str>,
    /// The pace, a factor of the arrivals' own, if they aren't sent as fast as they are taken.
    pub pace: Option<&'a str>,
    /// Whether each has the present moment.
    pub now: bool,
}

/// The fastest pace, in thousandths.
const MOST_PACE: u64 = 1_000_000;

/// The thousandths in the digits behind a decimal point, at most three.
fn thousandths_of(digits: &str) -> Option<u64> {
    let unit = match digits.len() {
        0 => return Some(0),
        1 => 100u64,
        2 => 10,
        3 => 1,
        _ => return None,
    };
    digits.parse::<u64>().ok()?.checked_mul(unit)
}

/// The pace of a text, a factor from 0.001 to 1000, in thousandths.
fn pace_of(text: &str) -> Option<u64> {
    let (whole, digits) = text.split_once(".").unwrap_or((text, ""));
    let whole: u64 = whole.parse().ok()?;
    let pace = whole
        .checked_mul(1000)?
        .checked_add(thousandths_of(digits)?)?;
    if 1 <= pace && pace <= MOST_PACE {
        Some(pace)
    } else {
        None
    }
}

/// When arrivals are sent.
fn timing_of<'a>(asked: &Feed<'a>) -> Result<Timing, Ending<'a>> {
    let pace = match asked.pace {
        None => None,
        Some(text) => Some(pace_of(text).ok_or(Ending::Misuse(Misuse::Value {
            word: "--pace",
            given: text,
            expected: "a factor from 0.001 to 1000 with at most three decimals, as 1 or 2.5",
        }))?),
    };
    Ok(Timing {
        pace,
        now: asked.now,
    })
}

/// Prints why sending ended early. Returns the ending.
fn failed<R: Eprint>(rt: &R, port: u16, fault: Fault) -> Ending<'static> {
    if fault == Fault::Memory {
        return Ending::Memory;
    }
    let _ = eprintln!(rt; "rohctl: 127.0.0.1:{port}: {fault}");
    Ending::NoGateway
}

/// Why a script has no arrival.
fn nothing_in<R>(input: &Reading<'_, R>, left_out: u64) -> Nothing
where
    R: Files + Input + Eprint + Clock + AllocGlobal,
{
    if left_out == 0 {
        Nothing::Empty
    } else {
        Nothing::NoEvent {
            lines: left_out,
            carriage: input.has_carriage(),
        }
    }
}

/// Prints what was sent, and how many datagrams the gateway's socket dropped. Returns the ending.
fn tell_sent<R>(
    rt: &R,
    feeder: &mut Feeder<'_, R>,
    port: u16,
) -> Result<Ending<'static>, Ending<'static>>
where
    R: Files + Net + Print + Eprint + Clock + AllocGlobal,
{
    let dropped = feeder.finish().map_err(|fault| failed(rt, port, fault))?;
    let (sent, octets) = (feeder.sent, feeder.octets);
    if let Err(error) = println!(rt;
        "sent {sent} datagrams, {octets} octets, to 127.0.0.1:{port}; dropped {dropped}"
    ) {
        return Err(unprinted(&error));
    }
    if dropped == 0 {
        return Ok(Ending::Good);
    }
    let _ = eprintln!(rt;
        "rohctl: 127.0.0.1:{port}: its socket dropped {dropped} datagrams; expected none (is another sender using it?)"
    );
    Ok(Ending::Dropped)
}

/// Sends the arrivals of an input that begins with these octets.
fn feed_from<'a, R>(
    rt: &R,
    asked: &Feed<'a>,
    timing: Timing,
    carriage: Option<Carriage<'_>>,
    front: Front,
    input: &mut Reading<'_, R>,
) -> Result<Ending<'a>, Ending<'a>>
where
    R: Files + Net + Input + Print + Eprint + Clock + AllocGlobal,
{
    let mut feeder = Feeder::new(rt, asked.to, timing).map_err(|fault| failed(
        rt, asked.to, fault,
    ))?;
    let taken = {
        let mut source = front.as_slice().chain(&mut *input);
        take_source(rt.alloc(), &mut source, carriage.as_ref(), &mut feeder)
    };
    if let Some(fault) = feeder.fault {
        return Err(failed(rt, asked.to, fault));
    }
    let rest = taken.map_err(|stop| stop.ending(asked.input, STREAM))?;
    if let Some(fault) = rest.fault {
        return Err(capture_end(asked.input, fault, input.unread(asked.input)));
    }
    if feeder.sent > 0 {
        return tell_sent(rt, &mut feeder, asked.to);
    }
    Err(match carriage {
        None => Ending::Nothing(asked.input, nothing_in(input, feeder.left_out)),
        Some(carriage) => no_frame(rt, asked.input, input.front(), &carriage.framing),
    })
}

/// Sends the arrivals of a capture or a script to a gateway.
pub fn run_feed<'a, R>(rt: &R, asked: &Feed<'a>, screen: Screen) -> Result<Ending<'a>, Ending<'a>>
where
    R: Files + Net + Input + Print + Eprint + Clock + AllocGlobal,
{
    let timing = timing_of(asked)?;
    let sender = sender_in(asked.from)?;
    let framing = framing_of(&asked.rules)?;
    let mut input = open_told(rt, asked.input, screen.error)?;
    let front = Front::read(&mut input).map_err(|reason| unread(asked.input, reason))?;
    if !front.is_capture() {
        return feed_from(rt, asked, timing, None, front, &mut input);
    }
    let rules = rules_of(rt.alloc(), &asked.rules)?;
    let carriage = Carriage {
        rules: rules.as_slice(),
        framing,
        sender,
    };
    feed_from(rt, asked, timing, Some(carriage), front, &mut input)
}
