//! The subcommand `explain`: packets of a script or a capture, or given ones, each with why it got its answer.

use crate::asked::{Asked, Source};
use crate::assumed::{Assumed, LINK, assumed_link};
use crate::decoding::Decoding;
use crate::falls::Falls;
use crate::input::{Wanted, explain_input, keep_to_unit};
use crate::run::{Run, Seen};
use rohc_concentrator::Concentrator;
use rohctl_captures::{Narrow, Unit, Which, payloads_of};
use rohctl_ground::{
    Ending, Misuse, Nothing, STREAM, Screen, Stop, concentrator_from, read_packets,
};
use std::io::{BufWriter, Write};
use std::rt::Files;
use std::time::Clock;
use std::{fs, io};

/// How many milliseconds lie between two packets of a call on this link, if there is such a link.
fn step_of(concentrator: &Concentrator, link: u16) -> Option<u64> {
    let records = concentrator.tables().get(&link)?;
    Some(u64::from(records.setting.settings.packet_ms))
}

/// Has packets taken that are given as digits.
fn take_text<'a, W: Write + Drop>(
    links: &'a str,
    link: u16,
    words: &[&str],
    run: &mut Run<W>,
) -> Result<(), Ending<'a>> {
    let Some(step) = step_of(&run.decoding.concentrator, link) else {
        return Err(Ending::Nothing(links, Nothing::NoLink(link)));
    };
    let Ok(packets) = words.join(run.decoding.alloc, " ") else {
        return Err(Ending::Memory);
    };
    let ran = read_packets(run.decoding.alloc, link, step, packets.as_str(), run);
    ran.map_err(|stop| stop.ending(STREAM, STREAM))
}

/// The word that leads to a file or is standard input, if one does.
fn script_in<'a, R: Files>(rt: &R, words: &[&'a str]) -> Option<&'a str> {
    words
        .iter()
        .copied()
        .find(|word| *word == STREAM || fs::metadata(rt, word).is_ok())
}

/// Has packets taken that are given as words, on the link that is assumed.
fn take_words<'a, R, W>(rt: &R, words: &[&'a str], run: &mut Run<W>) -> Result<(), Ending<'a>>
where
    R: Files,
    W: Write + Drop,
{
    if let [STREAM] = words {
        return Err(Ending::Misuse(Misuse::Script(STREAM)));
    }
    let Ok(packets) = words.join(run.decoding.alloc, " ") else {
        return Err(Ending::Memory);
    };
    let step = step_of(&run.decoding.concentrator, LINK).unwrap_or(0);
    match read_packets(run.decoding.alloc, LINK, step, packets.as_str(), run) {
        Ok(()) => Ok(()),
        Err(Stop::Words(fault)) => match script_in(rt, words) {
            Some(path) => Err(Ending::Misuse(Misuse::Script(path))),
            None => Err(Stop::Words(fault).ending(STREAM, STREAM)),
        },
        Err(stop) => Err(stop.ending(STREAM, STREAM)),
    }
}

/// Refuses a call of a link that the links file doesn't have.
fn keep_to_links<'a>(
    links: &'a str,
    which: Which,
    concentrator: &Concentrator,
) -> Result<(), Ending<'a>> {
    match which {
        Which::Call { link, .. } if step_of(concentrator, link).is_none() => {
            Err(Ending::Nothing(links, Nothing::NoLink(link)))
        }
        _ => Ok(()),
    }
}

/// Whether a word leads to an input: no packet has a dot, a slash, or a letter beyond `f` but `x`.
fn is_path<R: Files>(rt: &R, word: &str) -> bool {
    let is_digits = word.chars().all(|c| c.is_ascii_hexdigit()
        || matches!(c, 'x' | 'X' | ':' | ',' | ' '));
    word.contains(".") || word.contains("/") || (!is_digits && fs::metadata(rt, word).is_ok())
}

/// Has the packets of these words taken, or those of the input that the only word leads to.
fn take_linked<'a, R, W>(
    rt: &R,
    wanted: &Wanted<'a>,
    link: u16,
    words: &[&'a str],
    screen: Screen,
    run: &mut Run<W>,
) -> Result<Ending<'a>, Ending<'a>>
where
    R: Files + Input + Eprint + Clock + AllocGlobal,
    W: Write + Drop,
{
    if let [word] = words
        && is_path(rt, word)
    {
        let wanted = Wanted {
            path: word,
            ..*wanted
        };
        return explain_input(rt, &wanted, screen, run);
    }
    keep_to_unit(wanted.which, Unit::Packet)?;
    take_text(wanted.links, link, words, run)?;
    run.end()
}

/// Has the packets that are asked for taken, and ends the run.
fn take_packets<'a, R, W>(
    rt: &R,
    asked: &Asked<'a>,
    screen: Screen,
    run: &mut Run<W>,
) -> Result<Ending<'a>, Ending<'a>>
where
    R: Files + Input + Eprint + Clock + AllocGlobal,
    W: Write + Drop,
{
    let (which, times) = (asked.which, asked.times);
    match &asked.source {
        Source::Text {
            links,
            link,
            words,
            rules,
        } => {
            keep_to_links(links, which, &run.decoding.concentrator)?;
            let wanted = Wanted {
                links,
                path: STREAM,
                rules: *rules,
                which,
                times,
            };
            take_linked(rt, &wanted, *link, words.as_slice(), screen, run)
        }
        Source::Input { links, path, rules } => {
            keep_to_links(links, which, &run.decoding.concentrator)?;
            let wanted = Wanted {
                links,
                path,
                rules: *rules,
                which,
                times,
            };
            explain_input(rt, &wanted, screen, run)
        }
        Source::Words { words, .. } => {
            take_words(rt, words.as_slice(), run)?;
            run.end()
        }
    }
}

/// The concentrator on which the packets run, and what is assumed of its link if no links file is given.
fn links_of<'a, R>(rt: &R, asked: &Asked<'a>) -> Result<(Concentrator, Option<Assumed>), Ending<'a>>
where
    R: Files + Input + Eprint + Clock + AllocGlobal,
{
    match &asked.source {
        Source::Input { links, .. } | Source::Text { links, .. } => {
            Ok((concentrator_from(rt, links, asked.state)?, None))
        }
        Source::Words { large, .. } => {
            let (concentrator, assumed) = assumed_link(rt.alloc(), *large)?;
            Ok((concentrator, Some(assumed)))
        }
    }
}

/// Explains what was asked for.
pub fn run_explain<'a, R>(
    rt: &R,
    asked: &Asked<'a>,
    screen: Screen,
) -> Result<Ending<'a>, Ending<'a>>
where
    R: Files + Input + Print + Eprint + Clock + AllocGlobal,
{
    let (concentrator, assumed) = links_of(rt, asked)?;
    let Ok(out) = BufWriter::new(rt.alloc(), io::writer(rt)) else {
        return Err(Ending::Memory);
    };
    let mut run = Run {
        decoding: Decoding {
            alloc: rt.alloc(),
            concentrator,
            payloads: payloads_of(rt.alloc(), asked.payload)?,
            falls: Falls::new(rt.alloc()),
        },
        assumed,
        narrow: Narrow::new(asked.which, asked.times, false),
        telling: asked.telling,
        out,
        unit: Unit::Packet,
        found: false,
        seen: Seen::default(),
    };
    take_packets(rt, asked, screen, &mut run)
}
