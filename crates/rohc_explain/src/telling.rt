//! Telling the fields of a packet in their order.

ghost use Rattle.std.specs.Prelude.{◌≡◌, ◌≤◌, All, true};
ghost use Rattle.rohc_explain.specs.Told.{StandsInPlace, are_in_turn};

use crate::bits::number_at;
use crate::field::{Field, FieldName};
use std::alloc::{AllocError, Global};

/// Why no more fields are told.
#[derive(Clone, Copy, PartialEq, Eq)]
pub(crate) enum Stop {
    /// The packet ends before the field does.
    Short,
    /// There is no memory.
    NoMemory,
}

impl From<AllocError> for Stop {
    fn from(_: AllocError) -> Stop {
        Stop::NoMemory
    }
}

/// The fields of a packet up to a bit.
#[derive(Drop)]
pub(crate) struct Telling<'a> {
    /// The octets of the packet.
    pub octets: &'a [u8],
    /// The bit at which the next field begins.
    pub at: u32,
    pub fields: Vec<Field>,
    ghost stand: { All (StandsInPlace octets.now) fields.items },
    ghost in_turn: { are_in_turn 0 fields.items at ≡ true },
}

impl<'a> Telling<'a> {
    /// No field yet.
    pub(crate) fn over(alloc: Global, octets: &'a [u8]) -> Self
        ensures { result.octets.now ≡ octets.entry.now }
    {
        Telling {
            octets,
            at: 0,
            fields: Vec::new(alloc),
        }
    }

    /// Tells the next field, which has `count` bits, and returns its number.
    pub(crate) fn tell(&mut self, name: FieldName, count: u8) -> Result<u32, Stop>
        requires { count ≤ 32 }
        ensures kept { self.new.octets.now ≡ self.old.octets.now }
    {
        let Some(value) = number_at(self.octets, self.at, count) else {
            return Err(Stop::Short);
        };
        let Some(behind) = self.at.checked_add(u32::from(count)) else {
            return Err(Stop::Short);
        };
        let field = Field {
            name,
            first: self.at,
            count,
            value,
        };
        let Ok(()) = self.fields.push(field) else {
            return Err(Stop::NoMemory);
        };
        self.at = behind;
        Ok(value)
    }
}

impl Telling<'_> {
    /// Tells a flag.
    pub(crate) fn flag(&mut self, name: FieldName) -> Result<bool, Stop>
        ensures kept { self.new.octets.now ≡ self.old.octets.now }
    {
        Ok(self.tell(name, 1)? == 1)
    }

    /// Tells a field if it is there.
    pub(crate) fn tell_if(&mut self, present: bool, name: FieldName, count: u8) -> Result<(), Stop>
        requires { count ≤ 32 }
        ensures kept { self.new.octets.now ≡ self.old.octets.now }
    {
        if present {
            self.tell(name, count)?;
        }
        Ok(())
    }

    /// Tells fields in their order.
    pub(crate) fn row(&mut self, row: &[(FieldName, u8)]) -> Result<(), Stop>
        ensures kept { self.new.octets.now ≡ self.old.octets.now }
    {
        for (name, count) in row {
            self.tell(*name, (*count).min(32))?;
        }
        Ok(())
    }

    /// The octet that comes next, if one does.
    pub(crate) fn next_octet(&self) -> Option<u8> {
        self.octets.get((self.at / 8) as usize).copied()
    }

    /// Tells a self-describing value: its first bits, and its number (RFC 3095 4.5.6).
    pub(crate) fn value(&mut self, name: FieldName) -> Result<u32, Stop>
        ensures kept { self.new.octets.now ≡ self.old.octets.now }
    {
        let Some(octet) = self.next_octet() else {
            return Err(Stop::Short);
        };
        let (length, count) = match octet {
            0x00..=0x7f => (1, 7),
            0x80..=0xbf => (2, 14),
            0xc0..=0xdf => (3, 21),
            0xe0..=0xff => (3, 29),
        };
        self.tell(FieldName::Length, length)?;
        self.tell(name, count)
    }
}
