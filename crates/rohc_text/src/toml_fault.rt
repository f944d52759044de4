//! Why a text is no TOML document.

use crate::quoted::write_quoted;
use std::io;
use std::io::Write;
use toml::de::Error;

/// What the reader of TOML says of a key that is given twice.
const TWICE: &str = "duplicate key";

/// What it says of a text without its second quote.
const UNQUOTED: &str = "invalid string";

/// How what it says of a missing or wrong value begins.
const NO_VALUE: &str = "invalid value";

/// How what it says of a key without an equals sign begins.
const NO_EQUALS: &str = "key with no value";

/// How what it says of more behind a value begins.
const MORE: &str = "unexpected key or value";

/// The number of the line, counted from 1, in which an octet of the text lies.
fn line_at(text: &str, offset: usize) -> usize {
    let before = text.get(..offset).unwrap_or(text);
    before.split("\n").count()
}

/// The offset at which the text stops being TOML.
fn error_offset(text: &str, error: &Error) -> usize {
    match error.span() {
        Some(span) => span.start,
        None => text.len(),
    }
}

/// The number of the line, counted from 1, at which the text stops being TOML.
pub fn error_line(text: &str, error: &Error) -> usize {
    line_at(text, error_offset(text, error))
}

/// Whether a word can go on with this character.
fn is_word(character: char) -> bool {
    character.is_ascii_alphanumeric() || "_-./".contains(character)
}

/// The word at the front of a text.
fn first_word(text: &str) -> &str {
    match text.find(|character: char| !is_word(character)) {
        Some(end) => text.get(..end).unwrap_or(""),
        None => text,
    }
}

/// Whether the word looks like a text that needs quotes: it begins as no number does.
fn needs_quotes(word: &str) -> bool {
    match word.chars().next() {
        Some(first) => first.is_ascii_alphabetic() || "./_".contains(first),
        None => false,
    }
}

/// Writes a name as it stands if it is one word, otherwise in quotes.
fn write_name<W: Write>(out: &mut W, name: &str) -> io::Result<()> {
    if name.len() <= 60 && !name.is_empty() && first_word(name) == name {
        write!(out, "{name}")
    } else {
        write_quoted(out, name)
    }
}

/// Writes that a key, or the header of a table, is given twice. The text begins with it.
fn write_twice<W: Write>(out: &mut W, rest: &str) -> io::Result<()> {
    let inner = rest.trim_start_matches("[");
    let name = first_word(inner);
    write_name(out, name)?;
    if inner.len() == rest.len() {
        return write!(out, " is given twice; remove one of the two");
    }
    write!(out, " is one table and given again; write [[")?;
    write_name(out, name)?;
    write!(out, "]] before each one")
}

/// Writes what is wrong with the value of a key. The rest begins where the reader stopped, and the text where the value
/// should.
fn write_no_value<W: Write>(out: &mut W, key: &str, text: &str, rest: &str) -> io::Result<()> {
    let word = first_word(rest);
    if needs_quotes(word) {
        write_name(out, word)?;
        write!(out, " needs quotes; write ")?;
        return write_quoted(out, word);
    }
    let value = text.split("\n").next().unwrap_or("").trim();
    write_name(out, key)?;
    if value.is_empty() {
        return write!(out, " has no value; expected a number, or a text in quotes");
    }
    write!(out, " is ")?;
    write_quoted(out, value)?;
    write!(out, "; expected a number, or a text in quotes")
}

/// Writes what the reader of TOML says in words of its own.
fn write_message<W: Write>(out: &mut W, message: &str) -> io::Result<()> {
    match message.split_once(", expected ") {
        Some((wrong, expected)) => write!(out, "not TOML: {wrong}; expected {expected}"),
        None => write!(
            out,
            "not TOML: {message}; expected a TOML document (toml.io)"
        ),
    }
}

/// Writes why a text is no TOML, and what to write instead.
pub fn write_toml_reason<W: Write>(out: &mut W, text: &str, error: &Error) -> io::Result<()> {
    let offset = error_offset(text, error);
    let before = text.get(..offset).unwrap_or(text);
    let rest = text.get(offset..).unwrap_or("");
    let line = match before.rsplit_once("\n") {
        Some((_, line)) => line,
        None => before,
    };
    let (key, front) = match line.split_once("=") {
        Some((key, front)) => (key.trim(), front.trim_start()),
        None => (line.trim(), ""),
    };
    let value = text
        .get(offset.saturating_sub(front.len())..)
        .unwrap_or(rest);
    match error.message() {
        TWICE => write_twice(out, rest),
        UNQUOTED => write!(
            out,
            "a quote is missing; expected one before and one after the text"
        ),
        message if message.starts_with(NO_VALUE) => write_no_value(out, key, value, rest),
        message if message.starts_with(NO_EQUALS) => {
            write_name(out, key)?;
            write!(out, " has no value; expected = and a value after it")
        }
        message if message.starts_with(MORE) => {
            write!(
                out,
                "more text follows the value; expected the end of the line"
            )
        }
        message => write_message(out, message),
    }
}
