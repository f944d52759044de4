//! The line that stands before the answers: the number and the text of a line of the script.

ghost use Rattle.std.specs.Prelude.{◌≡◌, ◌++◌, OnOk, IfOk};
ghost use Rattle.std.specs.List.{flat_map};
ghost use Rattle.rohc_trace.specs.Head.{shown_octet, shown, numbered_head};

use hex::encode_to_slice;
use itoa::Buffer;
use std::alloc::{AllocError, Global};

/// How many octets of a line are shown.
const SHOWN: usize = 120;

/// Appends an octet as it is, if it is a character of ASCII, and else as `\x` and two digits. So no line can put a
/// control character on a terminal.
fn push_shown(text: &mut Vec<u8>, octet: u8) -> Result<(), AllocError>
    ensures { OnOk result (text.new.items ≡ text.old.items ++ shown_octet octet) }
{
    if octet >= 32 && octet < 127 {
        text.push(octet)?;
        return Ok(());
    }
    let mut digits = [0; 2];
    let _ = encode_to_slice([octet].as_slice(), digits.as_mut_slice());
    text.extend_from_slice(b"\\x")?;
    text.extend_from_slice(digits.as_slice())?;
    Ok(())
}

/// Appends octets as they are shown.
fn push_all(text: &mut Vec<u8>, octets: &[u8]) -> Result<(), AllocError>
    ensures { OnOk result (text.new.items ≡ text.old.items ++ flat_map shown_octet octets.now) }
{
    for octet in octets {
        push_shown(text, *octet)?;
    }
    Ok(())
}

/// Appends the first octets of a line as they are shown, and `..` if there are more.
fn push_front(text: &mut Vec<u8>, line: &[u8]) -> Result<(), AllocError>
    ensures { OnOk result (text.new.items ≡ text.old.items ++ shown line.now) }
{
    if line.len() > SHOWN {
        let (front, _) = line.split_at(SHOWN);
        push_all(text, front)?;
        text.extend_from_slice(b"..")?;
        return Ok(());
    }
    push_all(text, line)
}

/// The number of a line, a space, and what is shown of it.
pub(crate) fn numbered_head(alloc: Global, number: u64, line: &[u8]) -> Result<Vec<u8>, AllocError>
    ensures { IfOk result (λ text. text.items ≡ numbered_head number line.now) }
{
    let mut buffer = Buffer::new();
    let mut text = Vec::from_slice(alloc, buffer.format(number).as_bytes())?;
    text.push(b' ')?;
    push_front(&mut text, line)?;
    text.push(b'\n')?;
    Ok(text)
}
