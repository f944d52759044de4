//! What is asked of `explain`.

use crate::capture_words::rules_of;
use crate::narrow_words::{times_of, which_call};
use crate::replaying::state_in;
use crate::words_in::{input_of, keep_streams_apart, link_number, wrong_value};
use clap::ArgMatches;
use rohctl_captures::{Span, Unit, Which, numbers_of};
use rohctl_explain::{Asked, Source, Telling};
use rohctl_ground::{Ending, Misuse, STREAM};
use std::alloc::Global;

/// An option that names lines or frames.
#[derive(Clone, Copy)]
struct Naming {
    name: &'static str,
    word: &'static str,
    unit: Unit,
    /// Whether it names one of them, and not several.
    is_one: bool,
    expected: &'static str,
}

/// The options that name lines or frames.
const NAMINGS: [Naming; 4] = [
    Naming {
        name: "line",
        word: "--line",
        unit: Unit::Line,
        is_one: true,
        expected: "the number of a line, from 1",
    },
    Naming {
        name: "lines",
        word: "--lines",
        unit: Unit::Line,
        is_one: false,
        expected: "the first and the last line, as 3-7",
    },
    Naming {
        name: "frame",
        word: "--frame",
        unit: Unit::Frame,
        is_one: true,
        expected: "the number of a frame, from 1",
    },
    Naming {
        name: "frames",
        word: "--frames",
        unit: Unit::Frame,
        is_one: false,
        expected: "the first and the last frame, as 3-7",
    },
];

impl Naming {
    /// The lines or frames of its value, if it can be read.
    fn span_of(&self, text: &str) -> Option<Span> {
        if self.is_one && text.contains("-") {
            return None;
        }
        let (first, last) = numbers_of(text)?;
        Some(Span {
            unit: self.unit,
            first,
            last,
        })
    }
}

/// The packets that are told.
fn which_of<'a>(options: &ArgMatches<'a>) -> Result<Which, Ending<'a>> {
    let mut which = which_call(options)?;
    for naming in &NAMINGS {
        let Some(text) = options.get_str(naming.name) else {
            continue;
        };
        if which != Which::All {
            return Err(wrong_value(
                naming.word,
                text,
                "only one of --line, --lines, --frame, --frames and --call",
            ));
        }
        match naming.span_of(text) {
            Some(span) => which = Which::Within(span),
            None => return Err(wrong_value(naming.word, text, naming.expected)),
        }
    }
    Ok(which)
}

/// The path of the input. Only packets may have more than one word.
fn path_of<'a>(
    options: &ArgMatches<'a>,
    links: &'a str,
    is_terminal: bool,
) -> Result<&'a str, Ending<'a>> {
    if let Some([_, second, ..]) = options.get_strs("INPUT") {
        return Err(wrong_value(
            "INPUT",
            second,
            "one script or capture; packets in hexadecimal digits need --link",
        ));
    }
    let path = input_of(options, "INPUT", is_terminal)?;
    keep_streams_apart(links, "INPUT", path)?;
    Ok(path)
}

/// The words in which packets or an input are given.
fn words_in<'a>(alloc: Global, given: &[&'a str]) -> Result<Vec<&'a str>, Ending<'a>> {
    let mut words = Vec::new(alloc);
    match words.extend_from_slice(given) {
        Ok(()) => Ok(words),
        Err(_) => Err(Ending::Memory),
    }
}

/// Whether an option is given that only goes with a links file.
fn needs_links(options: &ArgMatches<'_>) -> bool {
    ["link", "line", "lines", "frame", "frames", "call"]
        .iter()
        .any(|name| options.contains_id(name))
}

/// The ending if there is no links file.
fn no_links<'a>(expected: &'static str) -> Ending<'a> {
    Ending::Misuse(Misuse::Missing {
        word: "--links",
        expected,
    })
}

/// Packets without a links file.
fn words_of<'a>(alloc: Global, options: &ArgMatches<'a>) -> Result<Source<'a>, Ending<'a>> {
    if needs_links(options) {
        return Err(no_links("the links file, since --link, --line, --frame or --call is given"));
    }
    let Some(given) = options.get_strs("INPUT") else {
        return Err(no_links(
            "the links file of a script or a capture, or a packet in hexadecimal digits, as fc00b745aa",
        ));
    };
    Ok(Source::Words {
        words: words_in(alloc, given)?,
        large: options.get_flag("large"),
    })
}

/// Where the packets stand.
fn source_of<'a>(
    alloc: Global,
    options: &ArgMatches<'a>,
    is_terminal: bool,
) -> Result<Source<'a>, Ending<'a>> {
    let Some(links) = options.get_str("links") else {
        return words_of(alloc, options);
    };
    let rules = rules_of(options);
    if let (Some(link), Some(given)) = (options.get_str("link"), options.get_strs("INPUT"))
        && !matches!(given, [STREAM])
    {
        return Ok(Source::Text {
            links,
            link: link_number("--link", link)?,
            words: words_in(alloc, given)?,
            rules,
        });
    }
    let path = path_of(options, links, is_terminal)?;
    Ok(Source::Input { links, path, rules })
}

/// What is asked of `explain`.
pub(crate) fn explain_of<'a>(
    alloc: Global,
    options: &ArgMatches<'a>,
    is_terminal: bool,
) -> Result<Asked<'a>, Ending<'a>> {
    let telling = if options.get_flag("json") {
        Telling::Json
    } else if options.get_flag("brief") {
        Telling::Brief
    } else {
        Telling::Whole
    };
    Ok(Asked {
        state: state_in(options)?,
        source: source_of(alloc, options, is_terminal)?,
        payload: options.get_str("payload"),
        which: which_of(options)?,
        times: times_of(options)?,
        telling,
    })
}
