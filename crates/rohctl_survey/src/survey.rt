//! The subcommand `survey`: what links an input has, before there is a links file.

use crate::asked::Survey;
use crate::counted::{Counted, LinkCounts};
use crate::gathered::Gathered;
use crate::survey_json::{write_object, write_rest_json};
use crate::survey_text::{write_link, write_next, write_rest};
use arrayvec::ArrayVec;
use indexmap::IndexMap;
use rohc_capture::Rule;
use rohc_concentrator::{Concentrator, LinkSetting};
use rohc_context::Settings;
use rohctl_captures::{
    Carriage, Held, Rest, RuleWords, capture_end, framing_of, hold, nothing_end, rules_of, take_all,
};
use rohctl_ground::{
    Ending, Nothing, Reason, Screen, keep_apart, make_target, unprinted, unread, usual_settings,
};
use rohctl_links::write_found;
use std::alloc::{AllocError, Global};
use std::io;
use std::io::{BufWriter, Write};
use std::rt::{Env, Files};
use std::time::Clock;

/// An input, and how it is read.
#[derive(Drop)]
struct Source<'a, 'p, F> {
    held: &'a Held<'p, F>,
    /// Only a capture has one.
    carriage: Option<Carriage<'a>>,
    screen: Screen,
}

/// The options that say which link a frame belongs to. Without them all ROHC frames are of link 1.
fn with_default<'a>(rules: RuleWords<'a>) -> RuleWords<'a> {
    match (rules.link, rules.vlan, rules.port) {
        (None, None, None) => RuleWords {
            link: Some("1"),
            ..rules
        },
        _ => rules,
    }
}

/// The rules for a capture; a script has none.
fn rules_for<'a, R>(
    rt: &R,
    held: &Held<'a, R::File>,
    words: &RuleWords<'a>,
) -> Result<Option<Vec<Rule>>, Ending<'a>>
where
    R: Files + AllocGlobal,
{
    if held.is_capture(rt)? {
        Ok(Some(rules_of(rt.alloc(), words)?))
    } else {
        Ok(None)
    }
}

/// The settings of each link, by the evidence for its CIDs.
fn settings_of(alloc: Global, gathered: &Gathered) -> Result<Vec<LinkSetting>, AllocError> {
    let mut all = Vec::new(alloc);
    for (link, evidence) in gathered.links.iter() {
        all.push(LinkSetting {
            link: *link,
            settings: usual_settings(evidence.kind()),
            ranges: ArrayVec::new(),
        })?;
    }
    Ok(all)
}

/// The run that counts, before the first packet.
fn counted_of(alloc: Global, gathered: &Gathered) -> Result<Counted, AllocError> {
    let settings = settings_of(alloc, gathered)?;
    let mut links = IndexMap::new(alloc);
    for setting in settings.iter() {
        links.insert(setting.link, LinkCounts::new(alloc))?;
    }
    match Concentrator::new(alloc, settings.as_slice()) {
        Ok(concentrator) => Ok(Counted {
            alloc,
            concentrator,
            links,
        }),
        Err(_) => Err(AllocError),
    }
}

/// Gathers the links of an input.
fn gather<'p, R>(rt: &R, source: &Source<'_, 'p, R::File>) -> Result<(Gathered, Rest), Ending<'p>>
where
    R: Files + Eprint + Clock + AllocGlobal,
{
    let mut gathered = Gathered::new(rt.alloc());
    let rest = take_all(
        rt,
        source.held,
        source.carriage,
        source.screen,
        &mut gathered,
    )?;
    if gathered.packets > 0 {
        return Ok((gathered, rest));
    }
    let path = source.held.path();
    if let Some(fault) = rest.fault {
        return Err(capture_end(path, fault, unread(path, Reason::Other(0))));
    }
    if gathered.resets > 0 {
        return Err(Ending::Nothing(path, Nothing::NoPacket));
    }
    Err(nothing_end(rt, source.held, source.carriage, gathered.bad))
}

/// Counts the packets of an input. It has to end as it did when its links were gathered.
fn count<'p, R>(
    rt: &R,
    source: &Source<'_, 'p, R::File>,
    gathered: &Gathered,
    rest: Rest,
) -> Result<Counted, Ending<'p>>
where
    R: Files + Eprint + Clock + AllocGlobal,
{
    let Ok(mut counted) = counted_of(rt.alloc(), gathered) else {
        return Err(Ending::Memory);
    };
    let again = take_all(
        rt,
        source.held,
        source.carriage,
        source.screen,
        &mut counted,
    )?;
    if again == rest {
        Ok(counted)
    } else {
        Err(Ending::Read(source.held.path(), Reason::Changed))
    }
}

/// Writes what is found of each link.
fn write_links<W: Write>(
    out: &mut W,
    json: bool,
    gathered: &Gathered,
    counted: &Counted,
) -> io::Result<()> {
    for (link, evidence) in gathered.links.iter() {
        match counted.links.get(link) {
            Some(counts) if json => write_object(out, *link, evidence, counts)?,
            Some(counts) => write_link(out, *link, evidence, counts)?,
            None => {}
        }
    }
    Ok(())
}

/// Writes the survey.
fn write_survey<W: Write>(
    out: &mut W,
    asked: &Survey<'_>,
    rules: Option<&RuleWords<'_>>,
    found: (&Gathered, &Counted, Rest),
) -> io::Result<()> {
    let (gathered, counted, rest) = found;
    write_links(out, asked.json, gathered, counted)?;
    if asked.json {
        write_rest_json(out, gathered, rest.left_out)?;
    } else {
        write_rest(out, gathered, rest.left_out)?;
    }
    match asked.links {
        Some(links) if !asked.json => write_next(out, links, asked.input, rules)?,
        _ => {}
    }
    out.flush()
}

/// The links with the settings for a links file.
fn found_links(
    alloc: Global,
    gathered: &Gathered,
    counted: &Counted,
) -> Result<Vec<(u16, Settings)>, AllocError> {
    let mut all = Vec::new(alloc);
    for (link, evidence) in gathered.links.iter() {
        if let Some(counts) = counted.links.get(link) {
            let settings = Settings {
                mode: counts.mode(),
                ..usual_settings(evidence.kind())
            };
            all.push((*link, settings))?;
        }
    }
    Ok(all)
}

/// Writes the links file that is asked for.
fn write_file<'p, R>(
    rt: &R,
    path: &'p str,
    gathered: &Gathered,
    counted: &Counted,
) -> Result<(), Ending<'p>>
where
    R: Files + Print + AllocGlobal,
{
    let Ok(links) = found_links(rt.alloc(), gathered, counted) else {
        return Err(Ending::Memory);
    };
    let mut out = make_target(rt, path)?;
    match write_found(&mut out, links.as_slice()) {
        Ok(()) => Ok(()),
        Err(_) => Err(out.unwritten(path)),
    }
}

/// How a survey ends: whether a line is no event, a packet is refused, or the CIDs of a link are assumed; or with the fault
/// of the capture, whose front was told.
fn end_of<'p>(
    path: &'p str,
    gathered: &Gathered,
    counted: &Counted,
    rest: Rest,
) -> Result<Ending<'p>, Ending<'p>> {
    if let Some(fault) = rest.fault {
        return Err(capture_end(path, fault, unread(path, Reason::Other(0))));
    }
    let is_assumed = gathered.links.values().any(|evidence| evidence.is_none());
    let is_refused = counted
        .links
        .values()
        .any(|counts| !counts.refusals.rows().is_empty());
    if gathered.bad > 0 || is_assumed || is_refused {
        Ok(Ending::Findings)
    } else {
        Ok(Ending::Good)
    }
}

/// Surveys an input, writes what is found and the links file that is asked for.
fn survey_source<'p, R>(
    rt: &R,
    asked: &Survey<'p>,
    words: &RuleWords<'p>,
    source: &Source<'_, 'p, R::File>,
) -> Result<Ending<'p>, Ending<'p>>
where
    R: Files + Print + Eprint + Clock + AllocGlobal,
{
    let (gathered, rest) = gather(rt, source)?;
    let counted = count(rt, source, &gathered, rest)?;
    if let Some(links) = asked.links {
        write_file(rt, links, &gathered, &counted)?;
    }
    let Ok(mut out) = BufWriter::new(rt.alloc(), io::writer(rt)) else {
        return Err(Ending::Memory);
    };
    let rules = if source.carriage.is_some() {
        Some(words)
    } else {
        None
    };
    if let Err(error) = write_survey(&mut out, asked, rules, (&gathered, &counted, rest)) {
        return Err(unprinted(&error));
    }
    end_of(asked.input, &gathered, &counted, rest)
}

/// Surveys the input that is asked for.
pub fn run_survey<'p, R>(
    rt: &R,
    asked: &Survey<'p>,
    screen: Screen,
) -> Result<Ending<'p>, Ending<'p>>
where
    R: Files + Input + Print + Eprint + Env + Clock + AllocGlobal,
{
    keep_apart(rt, &[asked.input], &[asked.links])?;
    let words = with_default(asked.rules);
    let held = hold(rt, asked.input, screen)?;
    let rules = rules_for(rt, &held, &words)?;
    let carriage = Carriage::of(&rules, framing_of(&words)?);
    let source = Source {
        held: &held,
        carriage,
        screen,
    };
    survey_source(rt, asked, &words, &source)
}
