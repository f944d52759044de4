//! Packets as people give them: hexadecimal digits in either case, with blanks, colons or `0x`.

use std::alloc::{AllocError, Global};

/// Why a word is no packet.
#[derive(Clone, Copy, PartialEq, Eq)]
pub enum HexFault {
    /// This character is no hexadecimal digit.
    NoDigit(char),
    /// The number of digits, which is zero or odd.
    Odd(usize),
}

/// The digits of a word without `0x`.
fn bare(word: &str) -> &str {
    match word.strip_prefix("0x") {
        Some(rest) => rest,
        None => word.strip_prefix("0X").unwrap_or(word),
    }
}

/// Appends the digits of a word in lower case. Colons are left out.
fn push_digits(digits: &mut String, word: &str) -> Result<Option<HexFault>, AllocError> {
    for character in word.chars() {
        if character == ':' {
            continue;
        }
        if !character.is_ascii_hexdigit() {
            return Ok(Some(HexFault::NoDigit(character)));
        }
        digits.push(character.to_ascii_lowercase())?;
    }
    Ok(None)
}

/// The digits of a packet in lower case, as a script has them; `-` if there are no octets.
pub(crate) fn packet_digits(
    alloc: Global,
    text: &str,
) -> Result<Result<String, HexFault>, AllocError> {
    let mut digits = String::new(alloc);
    if text.trim() == "-" {
        digits.push('-')?;
        return Ok(Ok(digits));
    }
    for word in text.split(" ") {
        if let Some(fault) = push_digits(&mut digits, bare(word))? {
            return Ok(Err(fault));
        }
    }
    if digits.is_empty() || digits.len() % 2 == 1 {
        return Ok(Err(HexFault::Odd(digits.len())));
    }
    Ok(Ok(digits))
}
