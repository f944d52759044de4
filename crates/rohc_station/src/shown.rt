//! Names in a page. Nothing else of a name is written there.

ghost use Rattle.std.specs.Prelude.{◌≡◌, ◌++◌, OnOk, IfOk};
ghost use Rattle.std.specs.Io.KnownBytes.{Appends};
ghost use Rattle.rohc_station.specs.Shown.{piece_of, shown};

use rohc_report::escaped;
use std::alloc::{AllocError, Global};
use std::io;
use std::io::Write;

/// Appends an octet of a name as a page has it.
fn push_octet(alloc: Global, text: &mut Vec<u8>, octet: u8) -> Result<(), AllocError>
    ensures { OnOk result (text.new.items ≡ text.old.items ++ piece_of octet) }
{
    if octet >= 128 {
        text.extend_from_slice(&[octet])
    } else {
        text.extend_from_slice(escaped(alloc, &[octet])?.as_slice())
    }
}

/// What stands for a name in a page.
fn pieces(alloc: Global, octets: &[u8]) -> Result<Vec<u8>, AllocError>
    ensures { IfOk result (λ text. text.items ≡ shown octets.now) }
{
    let mut text = Vec::new(alloc);
    for octet in octets {
        push_octet(alloc, &mut text, *octet)?;
    }
    Ok(text)
}

/// Writes a name into a page: letters beyond ASCII as they are, and the rest as `write_escaped` of rohc_report writes it.
/// The error is that of the writer, or lack of memory.
pub fn write_shown<W: Write>(alloc: Global, out: &mut W, name: &str) -> io::Result<()>
    ensures { OnOk result (Appends (W.contents out.old) (W.contents out.new) (shown name.now)) }
{
    let text = pieces(alloc, name.as_bytes())?;
    out.write_all(&text)
}
