//! The words of a line.

/// The words of a line that are left to be read. One space stands between two of them.
#[derive(Clone, Copy)]
pub(crate) struct Words<'a> {
    /// The text behind the words that were read, or `None` behind the last.
    rest: Option<&'a str>,
}

impl<'a> Words<'a> {
    /// All words of a line.
    pub(crate) fn of(line: &'a str) -> Self {
        Words { rest: Some(line) }
    }

    /// Whether no word is left.
    pub(crate) fn is_at_end(self) -> bool {
        self.rest.is_none()
    }

    /// The next word.
    pub(crate) fn text(&mut self) -> Option<&'a str> {
        let rest = self.rest?;
        match rest.split_once(' ') {
            Some((word, behind)) => {
                self.rest = Some(behind);
                Some(word)
            }
            None => {
                self.rest = None;
                Some(rest)
            }
        }
    }

    /// The next word as a number of 64 bits.
    pub(crate) fn long(&mut self) -> Option<u64> {
        number_in(self.text()?)
    }

    /// The next word as a number of 32 bits.
    pub(crate) fn quad(&mut self) -> Option<u32> {
        u32::try_from(self.long()?).ok()
    }

    /// The next word as a number of 16 bits.
    pub(crate) fn short(&mut self) -> Option<u16> {
        u16::try_from(self.long()?).ok()
    }

    /// The next word as a number of 8 bits.
    pub(crate) fn octet(&mut self) -> Option<u8> {
        u8::try_from(self.long()?).ok()
    }
}

/// The number that a word is: decimal, and without leading zeros.
pub(crate) fn number_in(word: &str) -> Option<u64> {
    match word.as_bytes() {
        [b'0'] | [b'1'..=b'9', ..] => word.parse().ok(),
        _ => None,
    }
}
