//! The values of options and arguments, and what is said of one that is missing or can't be read.

use clap::ArgMatches;
use rohctl_ground::{Ending, Misuse, STREAM};

/// The ending for a value that can't be read.
pub(crate) fn wrong_value<'a>(
    word: &'static str,
    given: &'a str,
    expected: &'static str,
) -> Ending<'a> {
    Ending::Misuse(Misuse::Value {
        word,
        given,
        expected,
    })
}

/// The value of a word that the parser demands.
pub(crate) fn value_of<'a>(
    options: &ArgMatches<'a>,
    name: &'static str,
) -> Result<&'a str, Ending<'a>> {
    match options.get_str(name) {
        Some(value) => Ok(value),
        None => Err(Ending::Misuse(Misuse::Missing {
            word: name,
            expected: "a value",
        })),
    }
}

/// The path of an input: standard input if none is given, unless somebody would have to type it.
pub(crate) fn input_of<'a>(
    options: &ArgMatches<'a>,
    name: &'static str,
    is_terminal: bool,
) -> Result<&'a str, Ending<'a>> {
    match options.get_str(name) {
        Some(path) => Ok(path),
        None if is_terminal => Err(Ending::Misuse(Misuse::Missing {
            word: name,
            expected: "a file, - to type it here, or a pipe on standard input",
        })),
        None => Ok(STREAM),
    }
}

/// Refuses an input that is standard input if the links file is standard input too.
pub(crate) fn keep_streams_apart<'a>(
    links: &'a str,
    word: &'static str,
    input: &'a str,
) -> Result<(), Ending<'a>> {
    if links == STREAM && input == STREAM {
        Err(wrong_value(
            word,
            input,
            "a file, since the links file is standard input",
        ))
    } else {
        Ok(())
    }
}

/// A number that may be missing.
pub(crate) fn number_of<'a>(
    options: &ArgMatches<'a>,
    name: &'static str,
    word: &'static str,
    expected: &'static str,
) -> Result<Option<u64>, Ending<'a>> {
    match options.get_str(name) {
        Some(text) => match text.parse() {
            Ok(number) => Ok(Some(number)),
            Err(_) => Err(wrong_value(word, text, expected)),
        },
        None => Ok(None),
    }
}

/// The number of a link or a CID.
pub(crate) fn link_number<'a>(word: &'static str, text: &'a str) -> Result<u16, Ending<'a>> {
    text.parse()
        .map_err(|_| wrong_value(word, text, "a number from 0 to 65535"))
}

/// The link and the CID of a call, L/C.
pub(crate) fn call_in<'a>(word: &'static str, text: &'a str) -> Result<(u16, u16), Ending<'a>> {
    let wrong = wrong_value(word, text, "LINK/CID, as 1/0: each from 0 to 65535");
    let Some((link, cid)) = text.split_once("/") else {
        return Err(wrong);
    };
    match (link.parse(), cid.parse()) {
        (Ok(link), Ok(cid)) => Ok((link, cid)),
        _ => Err(wrong),
    }
}
