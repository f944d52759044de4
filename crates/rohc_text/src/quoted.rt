//! Texts of a file, so that they can put no control character on a terminal and break no JSON line.

ghost use Rattle.std.specs.Prelude.{◌≡◌, if◌then◌else◌, codes};
ghost use Rattle.std.specs.Str.{bytes_eq};

use std::io;
use std::io::Write;
use toml::Value;

/// A word of the command line as it is shown: an empty one as two quotes.
pub fn shown_word(word: &str) -> &str
    ensures { result.now ≡ (if bytes_eq word.now (codes "") then codes "''" else word.now) }
{
    if word == "" { "''" } else { word }
}

/// How many characters of a text are shown.
const SHOWN: usize = 60;

/// Writes a character of a text in quotes. One that isn't printable ASCII, a quote and a backslash are written as JSON
/// writes them.
fn write_character<W: Write>(out: &mut W, character: char) -> io::Result<()> {
    let code = u32::from(character);
    match character {
        '"' => write!(out, "\\\""),
        '\\' => write!(out, "\\\\"),
        ' '..='~' => write!(out, "{character}"),
        _ if code < 0x1_0000 => write!(out, "\\u{code:04x}"),
        _ => {
            let above = code.saturating_sub(0x1_0000);
            write!(
                out,
                "\\u{:04x}\\u{:04x}",
                0xd800 + above / 0x400,
                0xdc00 + above % 0x400
            )
        }
    }
}

/// Writes a text in quotes, as JSON writes it, in ASCII; of a long one the first characters.
pub fn write_quoted<W: Write>(out: &mut W, text: &str) -> io::Result<()> {
    write!(out, "\"")?;
    for (place, character) in text.chars().enumerate() {
        if place == SHOWN {
            write!(out, "..")?;
            break;
        }
        write_character(out, character)?;
    }
    write!(out, "\"")
}

/// Writes a whole text as JSON writes it, in ASCII.
pub fn write_json_text<W: Write>(out: &mut W, text: &str) -> io::Result<()> {
    write!(out, "\"")?;
    for character in text.chars() {
        write_character(out, character)?;
    }
    write!(out, "\"")
}

/// Writes what stands at a key.
pub fn write_value<W: Write>(out: &mut W, value: Option<&Value>) -> io::Result<()> {
    match value {
        None => write!(out, "nothing"),
        Some(Value::String(text)) => write_quoted(out, text.as_str()),
        Some(Value::Integer(number)) => write!(out, "{number}"),
        Some(Value::Boolean(truth)) => write!(out, "{truth}"),
        Some(Value::Float(_)) => write!(out, "a floating-point number"),
        Some(Value::Datetime(_)) => write!(out, "a date"),
        Some(Value::Array(values)) if values.is_empty() => write!(out, "an empty array"),
        Some(Value::Array(_)) => write!(out, "an array"),
        Some(Value::Table(_)) => write!(out, "a table"),
    }
}

/// Writes the first octets of a line. An octet that isn't printable ASCII, a quote and a backslash are written as JSON
/// writes characters.
pub fn write_octets<W: Write>(out: &mut W, line: &[u8]) -> io::Result<()> {
    for (place, octet) in line.iter().enumerate() {
        if place == SHOWN {
            return write!(out, "..");
        }
        match *octet {
            b'"' => write!(out, "\\\"")?,
            b'\\' => write!(out, "\\\\")?,
            b' '..=b'~' => write!(out, "{}", char::from(*octet))?,
            code => write!(out, "\\u{code:04x}")?,
        }
    }
    Ok(())
}
