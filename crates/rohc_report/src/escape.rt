//! Texts of the input in a page. No other function writes such a text.

ghost use Rattle.std.specs.Prelude.{◌≡◌, ◌<◌, ◌++◌, OnOk, IfOk};
ghost use Rattle.std.specs.Io.KnownBytes.{Appends};
ghost use Rattle.rohc_report.specs.Escaped.{digit_of, piece_of, escaped, IsTame};

use std::alloc::{AllocError, Global};
use std::io;
use std::io::Write;

/// A hexadecimal digit.
fn digit_of(number: u8) -> u8
    requires { number < 16 }
    ensures { result ≡ digit_of number }
{
    if number < 10 {
        48 + number
    } else {
        87 + number
    }
}

/// Appends an octet as a page has it.
fn push_octet(text: &mut Vec<u8>, octet: u8) -> Result<(), AllocError>
    ensures { OnOk result (text.new.items ≡ text.old.items ++ piece_of octet) }
{
    match octet {
        b'&' => text.extend_from_slice(b"&amp;"),
        b'<' => text.extend_from_slice(b"&lt;"),
        b'>' => text.extend_from_slice(b"&gt;"),
        b'"' => text.extend_from_slice(b"&quot;"),
        b'\'' => text.extend_from_slice(b"&#39;"),
        b'\n' => text.extend_from_slice(b"&#10;"),
        32..=126 => text.extend_from_slice(&[octet]),
        _ => text.extend_from_slice(&[92, 120, digit_of(octet / 16 % 16), digit_of(octet % 16)]),
    }
}

/// What stands for a text in a page.
fn pieces(alloc: Global, octets: &[u8]) -> Result<Vec<u8>, AllocError>
    ensures { IfOk result (λ text. text.items ≡ escaped octets.now) }
{
    let mut text = Vec::new(alloc);
    for octet in octets {
        push_octet(&mut text, *octet)?;
    }
    Ok(text)
}

/// A text as a page has it: characters that mean something there as entities, a newline too, and what is no printable
/// character of ASCII as `\x` and two digits.
pub fn escaped(alloc: Global, octets: &[u8]) -> Result<Vec<u8>, AllocError>
    ensures exact { IfOk result (λ text. text.items ≡ escaped octets.now) }
    ensures tame { IfOk result (λ text. IsTame text.items) }
{
    pieces(alloc, octets)
}

/// Writes a text of the input into a page.
pub fn write_escaped<W: Write>(alloc: Global, out: &mut W, octets: &[u8]) -> io::Result<()>
    ensures { OnOk result (Appends (W.contents out.old) (W.contents out.new) (escaped octets.now)) }
{
    let text = escaped(alloc, octets)?;
    out.write_all(&text)
}
