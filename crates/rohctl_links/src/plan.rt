//! The subcommand `plan`: what k and n of a window mean, what memory calls take, and links spread over processes.

use crate::settings::{CALL, calls_of};
use rohc_concentrator::LinkSetting;
use rohc_plan::{Chain, Window, least_share};
use rohctl_ground::{Ending, Misuse, good_links, unprinted};
use std::alloc::Global;
use std::io;
use std::io::{BufWriter, Write};
use std::rt::Files;

/// A window that is asked for.
#[derive(Clone, Copy)]
pub struct AskedWindow<'a> {
    /// The word that names it.
    pub word: &'a str,
    pub k: u8,
    pub n: u8,
}

impl AskedWindow<'_> {
    /// The two numbers.
    fn pair(self) -> (u8, u8) {
        (self.k, self.n)
    }
}

/// What is asked of `plan`.
#[derive(Clone, Copy)]
pub struct Plan<'a> {
    /// How many of a hundred headers are damaged.
    pub damage: f64,
    /// The time between two packets of a call, in milliseconds.
    pub packet_ms: u32,
    /// A window that is asked for, K/N.
    pub window: Option<AskedWindow<'a>>,
    /// The calls whose memory is asked for.
    pub calls: Option<u64>,
    /// The processes over which links are spread.
    pub split: Option<u16>,
    /// The links file.
    pub links: Option<&'a str>,
    /// Whether JSON is wanted.
    pub json: bool,
}

/// The windows that are shown if none is asked for.
const SHOWN: [(u8, u8); 4] = [(2, 3), (2, 5), (3, 5), (4, 8)];

/// The longest window that is proposed.
const LONGEST: u8 = 8;

/// The share of damaged headers, and of headers against a lost context, that a check of 3 bits finds.
const FOUND: f64 = 0.875;

/// How many octets a gateway's counts of a call take at most (docs/OPERATING.md).
const COUNTS: u64 = 314;

/// A good call may fall once in so many milliseconds with a window that is proposed: an hour.
const SELDOM: f64 = 3_600_000.0;

/// What a window means on a link.
#[derive(Clone, Copy)]
struct Meaning {
    k: u8,
    n: u8,
    /// After how many milliseconds a good call falls, on average.
    falls: f64,
    /// How many milliseconds a lost context stays unnoticed, on average.
    unnoticed: f64,
}

impl Meaning {
    /// Whether both are of one window.
    fn is(&self, other: &Meaning) -> bool {
        self.k == other.k && self.n == other.n
    }
}

/// What the window means where this share of headers is damaged.
fn meaning_of(
    alloc: Global,
    k: u8,
    n: u8,
    plan: &Plan<'_>,
) -> Result<Option<Meaning>, Ending<'static>> {
    let Some(window) = Window::new(k, n) else {
        return Ok(None);
    };
    let failing = plan.damage / 100.0 * FOUND;
    let Ok(good) = Chain::new(window, failing).mean_packets(alloc) else {
        return Err(Ending::Memory);
    };
    let Ok(lost) = Chain::new(window, FOUND).mean_packets(alloc) else {
        return Err(Ending::Memory);
    };
    let packet_ms = f64::from(plan.packet_ms);
    Ok(Some(Meaning {
        k,
        n,
        falls: good * packet_ms,
        unnoticed: lost * packet_ms,
    }))
}

/// The window that notices a lost context first, of those with which a good call falls seldom.
fn proposed(alloc: Global, plan: &Plan<'_>) -> Result<Option<Meaning>, Ending<'static>> {
    let mut best: Option<Meaning> = None;
    for n in 1..=LONGEST {
        for k in 1..=n {
            if let Some(other) = meaning_of(alloc, k, n, plan)?
                && other.falls >= SELDOM
            {
                best = match best {
                    Some(first) if first.unnoticed <= other.unnoticed => Some(first),
                    _ => Some(other),
                };
            }
        }
    }
    Ok(best)
}

/// The units of time, each with its milliseconds, and with the time from which on it is used.
const UNITS: [(f64, f64, &str); 5] = [
    (315_360_000_000.0, 31_536_000_000.0, "years"),
    (864_000_000.0, 86_400_000.0, "days"),
    (36_000_000.0, 3_600_000.0, "hours"),
    (600_000.0, 60_000.0, "min"),
    (10_000.0, 1_000.0, "s"),
];

/// More milliseconds than these are never: a thousand years.
const NEVER: f64 = 31_536_000_000_000.0;

/// Writes a time in a unit that fits.
fn write_time<W: Write>(out: &mut W, ms: f64) -> io::Result<()> {
    if ms > NEVER {
        return write!(out, "{:>16}", "never");
    }
    for (least, unit, name) in UNITS {
        if ms >= least {
            return write!(out, "{:>10.0} {name:>5}", ms / unit);
        }
    }
    write!(out, "{ms:>10.0} {:>5}", "ms")
}

/// Writes a time in JSON.
fn write_ms<W: Write>(out: &mut W, ms: f64) -> io::Result<()> {
    if ms > NEVER {
        write!(out, "null")
    } else {
        write!(out, "{ms:.0}")
    }
}

/// Writes the object of a window.
fn write_object<W: Write>(out: &mut W, row: &Meaning, is_best: bool) -> io::Result<()> {
    write!(out, "{{\"k\":{},\"n\":{},\"falls_after_ms\":", row.k, row.n)?;
    write_ms(out, row.falls)?;
    write!(out, ",\"unnoticed_ms\":")?;
    write_ms(out, row.unnoticed)?;
    writeln!(out, ",\"recommended\":{is_best}}}")
}

/// Writes the row of a window. One that is proposed is good for both windows of a link.
fn write_row<W: Write>(out: &mut W, row: &Meaning, is_best: bool) -> io::Result<()> {
    write!(out, "{:>3}/{:<3} ", row.k, row.n)?;
    write_time(out, row.falls)?;
    write!(out, "{:>10}", "")?;
    write_time(out, row.unnoticed)?;
    if is_best {
        write!(out, "  recommended for k1/n1 and k2/n2")?;
    }
    writeln!(out, "")
}

/// Writes what windows mean.
fn write_plan<'a, W: Write>(
    out: &mut W,
    alloc: Global,
    plan: &Plan<'a>,
) -> Result<Ending<'a>, Ending<'a>> {
    let mut rows = Vec::new(alloc);
    let asked = plan.window.map(|window| window.pair());
    for (k, n) in asked.as_slice().iter().copied().chain(SHOWN) {
        let Some(row) = meaning_of(alloc, k, n, plan)? else {
            return Err(Ending::Misuse(Misuse::Value {
                word: "--window",
                given: plan.window.map_or("", |window| window.word),
                expected: "K/N, with K from 1 to N and N from 1 to 16",
            }));
        };
        if rows.push(row).is_err() {
            return Err(Ending::Memory);
        }
    }
    let best = proposed(alloc, plan)?;
    if let Some(best) = best
        && !rows.iter().any(|row| row.is(&best))
        && rows.push(best).is_err()
    {
        return Err(Ending::Memory);
    }
    match write_rows(out, rows.as_slice(), best, plan.json) {
        Ok(()) => Ok(Ending::Good),
        Err(error) => Err(unprinted(&error)),
    }
}

/// Writes the rows, and the window that is proposed.
fn write_rows<W: Write>(
    out: &mut W,
    rows: &[Meaning],
    best: Option<Meaning>,
    json: bool,
) -> io::Result<()> {
    if !json {
        writeln!(
            out,
            "k/n  a healthy call falls after   a lost context is noticed after"
        )?;
    }
    for row in rows {
        let is_best = best.is_some_and(|best| row.is(&best));
        if json {
            write_object(out, row, is_best)?;
        } else {
            write_row(out, row, is_best)?;
        }
    }
    if json {
        return Ok(());
    }
    match best {
        Some(best) => writeln!(
            out,
            "recommended: k1 = {}, n1 = {} (a healthy call falls to Static Context at most once per hour; a lost context is noticed after {:.0} ms)",
            best.k, best.n, best.unnoticed
        )?,
        None => writeln!(
            out,
            "recommended: none; with every window up to {LONGEST} a healthy call falls more than once per hour"
        )?,
    }
    writeln!(
        out,
        "note: lost packets do not count as failures; only damaged ones do"
    )
}

/// Writes the memory that so many calls take, and what they take in a gateway, which counts for each.
fn write_memory<W: Write>(out: &mut W, calls: u64) -> Result<Ending<'static>, Ending<'static>> {
    match writeln!(
        out,
        "calls {calls} memory at most {} octets, with the counts of rohc-gateway {} octets",
        calls.saturating_mul(CALL),
        calls.saturating_mul(CALL + COUNTS)
    ) {
        Ok(()) => Ok(Ending::Good),
        Err(error) => Err(unprinted(&error)),
    }
}

/// Spreads links over processes, each link to the process with the fewest calls so far, and writes a row for each.
fn write_split<W: Write>(
    out: &mut W,
    alloc: Global,
    settings: &[LinkSetting],
    processes: usize,
) -> Result<Ending<'static>, Ending<'static>> {
    let Ok(mut shares) = vec![in alloc; 0u64; processes] else {
        return Err(Ending::Memory);
    };
    let mut homes = Vec::new(alloc);
    for setting in settings {
        let home = least_share(shares.as_slice()).unwrap_or(0);
        if let Some(share) = shares.get_mut(home) {
            *share = share.saturating_add(calls_of(setting));
        }
        if homes.push((home, setting.link)).is_err() {
            return Err(Ending::Memory);
        }
    }
    match write_shares(out, shares.as_slice(), homes.as_slice()) {
        Ok(()) => Ok(Ending::Good),
        Err(error) => Err(unprinted(&error)),
    }
}

/// Writes a row for each process: its calls, its memory and its links.
fn write_shares<W: Write>(out: &mut W, shares: &[u64], homes: &[(usize, u16)]) -> io::Result<()> {
    for (place, share) in shares.iter().enumerate() {
        write!(
            out,
            "process {} calls {share} memory at most {} octets, links",
            place.saturating_add(1),
            share.saturating_mul(CALL)
        )?;
        for (home, link) in homes {
            if *home == place {
                write!(out, " {link}")?;
            }
        }
        writeln!(out, "")?;
    }
    Ok(())
}

/// Spreads the links of a file over so many processes.
fn write_split_of<'a, R: Files + Input + Eprint + AllocGlobal, W: Write>(
    rt: &R,
    out: &mut W,
    links: &'a str,
    processes: u16,
) -> Result<Ending<'a>, Ending<'a>> {
    let links = good_links(rt, links)?;
    let processes = usize::from(processes);
    write_split(out, rt.alloc(), links.settings(), processes)
}

/// Writes what was asked of `plan`.
fn write_asked<'a, R: Files + Input + Eprint + AllocGlobal, W: Write>(
    rt: &R,
    out: &mut W,
    plan: &Plan<'a>,
) -> Result<Ending<'a>, Ending<'a>> {
    if let Some(calls) = plan.calls {
        write_memory(out, calls)
    } else if let Some(processes) = plan.split {
        write_split_of(rt, out, plan.links.unwrap_or("-"), processes)
    } else {
        write_plan(out, rt.alloc(), plan)
    }
}

/// Tells what was asked of `plan`.
pub fn run_plan<'a, R: Files + Input + Print + Eprint + AllocGlobal>(
    rt: &R,
    plan: &Plan<'a>,
) -> Result<Ending<'a>, Ending<'a>> {
    let Ok(mut out) = BufWriter::new(rt.alloc(), io::writer(rt)) else {
        return Err(Ending::Memory);
    };
    let ending = write_asked(rt, &mut out, plan)?;
    match out.flush() {
        Ok(()) => Ok(ending),
        Err(error) => Err(unprinted(&error)),
    }
}
