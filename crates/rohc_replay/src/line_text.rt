//! A line of answers, built in a buffer of fixed size.

ghost use Rattle.std.specs.Prelude.{◌≤◌};

use crate::hex_octets::encode;

/// The longest part of a line, in octets, that is kept before it is offered.
pub(crate) const ROOM: usize = 1024;

/// How many octets are written as digits at once.
pub(crate) const PART: usize = 64;

/// The octets of a line that have not been offered yet.
#[derive(Drop)]
pub(crate) struct LineText {
    octets: [u8; ROOM],
    len: usize,
    ghost within: { len ≤ 1024 },
}

impl LineText {
    ghost use Rattle.std.specs.Prelude.{◌≡◌, ◌+◌, ◌*◌, ◌++◌, ◌↔◌, IsTrue, [], length};
    ghost use Rattle.std.specs.Fmt.{decimal};
    ghost use Rattle.hex.specs.Hex.{encode_lower};
    ghost use Rattle.rohc_replay.specs.Script.{hex_text};
    ghost use Rattle.rohc_replay.specs.AnswerLines.{pair_text};
    ghost use Rattle.rohc_replay.specs.LineText.{text_in};

    /// An empty line.
    pub(crate) fn new() -> Self
        ensures text { text_in result ≡ [] }
        ensures len { result.len ≡ 0 }
    {
        LineText {
            octets: [0; ROOM],
            len: 0,
        }
    }

    /// The octets of the line so far.
    pub(crate) fn as_slice(&self) -> &[u8]
        ensures { result.now ≡ text_in self.now }
    {
        &self.octets[..self.len]
    }

    /// How many octets may still be appended.
    pub(crate) fn room(&self) -> usize
        ensures { result + self.now.len ≡ ROOM }
    {
        ROOM - self.len
    }

    /// Whether the line is empty.
    pub(crate) fn is_empty(&self) -> bool
        ensures { IsTrue result ↔ (self.now.len ≡ 0) }
    {
        self.len == 0
    }

    /// Empties the line.
    pub(crate) fn clear(&mut self)
        ensures text { text_in self.new ≡ [] }
        ensures len { self.new.len ≡ 0 }
    {
        self.len = 0;
    }

    /// Appends a text to the line.
    pub(crate) fn put(&mut self, text: &[u8])
        requires { self.old.len + length text.now ≤ ROOM }
        ensures text { text_in self.new ≡ text_in self.old ++ text.now }
        ensures len { self.new.len ≡ self.old.len + length text.now }
    {
        let end = self.len + text.len();
        self.octets[self.len..end].copy_from_slice(text);
        self.len = end;
    }

    /// Appends octets to the line, as pairs of lower case digits.
    pub(crate) fn put_hex(&mut self, octets: &[u8])
        requires { self.old.len + 2 * length octets.now ≤ ROOM }
        ensures text { text_in self.new ≡ text_in self.old ++ encode_lower octets.now }
        ensures len { self.new.len ≡ self.old.len + 2 * length octets.now }
    {
        let end = self.len + 2 * octets.len();
        encode(octets, &mut self.octets[self.len..end]);
        self.len = end;
    }

    /// Appends a number to the line, in decimal.
    pub(crate) fn put_number(&mut self, number: u16)
        requires { self.old.len + 5 ≤ ROOM }
        ensures text { text_in self.new ≡ text_in self.old ++ decimal number }
        ensures len { self.new.len ≤ self.old.len + 5 }
    {
        // Most links and CIDs have at most three digits, which need no call.
        if number < 10 {
            self.put(&[b'0' + number as u8]);
        } else if number < 100 {
            self.put(&[b'0' + (number / 10) as u8, b'0' + (number % 10) as u8]);
        } else if number < 1000 {
            let tens = number / 10;
            self.put(&[
                b'0' + (tens / 10) as u8,
                b'0' + (tens % 10) as u8,
                b'0' + (number % 10) as u8,
            ]);
        } else {
            self.put_digits(number);
        }
    }

    /// Appends the digits of a number, the last of them after those before it.
    fn put_digits(&mut self, number: u16)
        requires { self.old.len + length (decimal number) ≤ ROOM }
        ensures text { text_in self.new ≡ text_in self.old ++ decimal number }
        ensures len { self.new.len ≡ self.old.len + length (decimal number) }
    {
        if number >= 10 {
            self.put_digits(number / 10);
        }
        self.put(&[b'0' + (number % 10) as u8]);
    }

    /// Appends a link and a CID to the line, each followed by a space.
    pub(crate) fn put_pair(&mut self, link: u16, cid: u16)
        requires { self.old.len + 12 ≤ ROOM }
        ensures text { text_in self.new ≡ text_in self.old ++ pair_text link cid }
        ensures len { self.new.len ≤ self.old.len + 12 }
    {
        self.put_number(link);
        self.put(b" ");
        self.put_number(cid);
        self.put(b" ");
    }

    /// Appends octets to the line, as pairs of lower case digits, or `-` for none.
    pub(crate) fn put_octets(&mut self, octets: &[u8])
        requires { self.old.len + 1 + 2 * length octets.now ≤ ROOM }
        ensures text { text_in self.new ≡ text_in self.old ++ hex_text octets.now }
        ensures len { self.new.len ≤ self.old.len + 1 + 2 * length octets.now }
    {
        if octets.is_empty() {
            self.put(b"-");
        } else {
            self.put_hex(octets);
        }
    }
}
