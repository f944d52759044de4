//! Octets and numbers as the tables write them.

use hex::FromHexError;
use std::alloc::{AllocError, Global};
use std::num::ParseIntError;
use std::str::SplitWhitespace;

/// Why a question gets no answer.
#[derive(Clone, Copy)]
pub(crate) enum NoAnswer {
    /// It can't be read.
    Unreadable,
    /// The call that it names may not be made with these arguments.
    OutsideConditions,
    NoMemory(AllocError),
}

impl From<AllocError> for NoAnswer {
    fn from(error: AllocError) -> NoAnswer {
        NoAnswer::NoMemory(error)
    }
}

impl From<ParseIntError> for NoAnswer {
    fn from(_error: ParseIntError) -> NoAnswer {
        NoAnswer::Unreadable
    }
}

impl From<FromHexError> for NoAnswer {
    fn from(error: FromHexError) -> NoAnswer {
        match error {
            FromHexError::OutOfMemory => NoAnswer::NoMemory(AllocError),
            _ => NoAnswer::Unreadable,
        }
    }
}

/// How the tables write that there are no octets.
const NO_OCTETS: &str = "-";

/// The octets that are written in hexadecimal digits, or `-` for none.
pub(crate) fn read_octets(alloc: Global, text: &str) -> Result<Vec<u8>, NoAnswer> {
    if text == NO_OCTETS {
        return Ok(Vec::new(alloc));
    }
    Ok(hex::decode(alloc, text)?)
}

/// The octet that is written as two hexadecimal digits.
pub(crate) fn read_octet(alloc: Global, text: &str) -> Result<u8, NoAnswer> {
    match *hex::decode(alloc, text)? {
        [octet] => Ok(octet),
        _ => Err(NoAnswer::Unreadable),
    }
}

/// A number of 8 bits, in decimal digits.
pub(crate) fn read_small(text: &str) -> Result<u8, NoAnswer> {
    let number: u16 = text.parse()?;
    u8::try_from(number).ok().ok_or(NoAnswer::Unreadable)
}

/// The octets in hexadecimal digits, or `none` if there aren't any.
pub(crate) fn spell_or(alloc: Global, octets: &[u8], none: &str) -> Result<String, AllocError> {
    if octets.is_empty() {
        return String::from_str(alloc, none);
    }
    hex::encode(alloc, octets)
}

/// The octets in hexadecimal digits, or `-` for none.
pub(crate) fn spell(alloc: Global, octets: &[u8]) -> Result<String, AllocError> {
    spell_or(alloc, octets, NO_OCTETS)
}

/// The words of a text that are left to be read.
#[derive(Drop)]
pub(crate) struct Words<'a> {
    words: SplitWhitespace<'a>,
}

impl<'a> Words<'a> {
    pub(crate) fn of(text: &'a str) -> Words<'a> {
        Words {
            words: text.split_whitespace(),
        }
    }

    /// The next word. It is an error if there is none.
    pub(crate) fn text(&mut self) -> Result<&'a str, NoAnswer> {
        self.words.next().ok_or(NoAnswer::Unreadable)
    }

    /// A number of 32 bits.
    pub(crate) fn quad(&mut self) -> Result<u32, NoAnswer> {
        Ok(self.text()?.parse()?)
    }

    /// A number of 32 bits, or a dash for none.
    pub(crate) fn optional_quad(&mut self) -> Result<Option<u32>, NoAnswer> {
        match self.text()? {
            "-" => Ok(None),
            number => Ok(Some(number.parse()?)),
        }
    }

    /// A number of 16 bits.
    pub(crate) fn word(&mut self) -> Result<u16, NoAnswer> {
        Ok(self.text()?.parse()?)
    }

    /// A number of 8 bits.
    pub(crate) fn octet(&mut self) -> Result<u8, NoAnswer> {
        read_small(self.text()?)
    }

    /// A flag, 0 or 1.
    pub(crate) fn flag(&mut self) -> Result<bool, NoAnswer> {
        match self.text()? {
            "0" => Ok(false),
            "1" => Ok(true),
            _ => Err(NoAnswer::Unreadable),
        }
    }
}
