//! A log line of bounded length.

ghost use Rattle.std.specs.Prelude.{◌≡◌, ◌≤◌, length, take};

use rohc_text::write_json_text;
use std::io::{self, Write};

/// The octets of the longest line without its line feed. With it, a pipe that has room accepts the line at once (PIPE_BUF,
/// pipe(7)).
const LONGEST: usize = 4095;

/// What ends a text that was cut.
const ELLIPSIS: &str = "…";

/// How many octets a text has at most, as JSON writes it. The rest of its line has fewer than 100.
const LONGEST_JSON: usize = 3_900;

/// The most octets of a character.
const CHARACTER: usize = 4;

/// A text, or the octets at its front up to a limit, without a character that the limit cuts.
pub fn shortened(text: &str, most: usize) -> &str
    ensures front { result.now ≡ take (length result.now) text.now }
    ensures within { length result.now ≤ most }
    ensures whole { length text.now ≤ most → result.now ≡ text.now }
{
    if text.len() <= most {
        return text;
    }
    for cut in 0..CHARACTER {
        if let Some(front) = text.get(..most.saturating_sub(cut)) {
            return front;
        }
    }
    ""
}

/// How many octets JSON has for a character.
fn json_size(character: char) -> usize {
    match character {
        '"' | '\\' => 2,
        ' '..='~' => 1,
        _ if u32::from(character) < 0x1_0000 => 6,
        _ => 12,
    }
}

/// The longest front of a text for which JSON has at most this many octets.
fn fitting(text: &str, most: usize) -> &str {
    let (mut size, mut octets) = (0usize, 0usize);
    for character in text.chars() {
        size = size.saturating_add(json_size(character));
        if size > most {
            break;
        }
        octets = octets.saturating_add(character.len_utf8());
    }
    shortened(text, octets)
}

/// A line, which is cut where it would be too long.
#[derive(Drop)]
pub(crate) struct Line {
    octets: [u8; LONGEST],
    size: usize,
    is_cut: bool,
}

impl Line {
    /// An empty line.
    pub(crate) fn new() -> Line {
        Line {
            octets: [0; LONGEST],
            size: 0,
            is_cut: false,
        }
    }

    /// The line as text.
    pub(crate) fn as_str(&self) -> &str {
        let octets = self.octets.get(..self.size).unwrap_or(&[]);
        std::str::from_utf8(octets).unwrap_or("")
    }

    /// Appends a text for which there is room.
    fn append(&mut self, text: &str) {
        let end = self.size.saturating_add(text.len());
        if let Some(place) = self.octets.get_mut(self.size..end) {
            place.copy_from_slice(text.as_bytes());
            self.size = end;
        }
    }

    /// Appends a text, and an ellipsis in place of what there is no room for. Nothing follows an ellipsis.
    fn push(&mut self, text: &str) {
        if self.is_cut {
            return;
        }
        let room = LONGEST
            .saturating_sub(self.size)
            .saturating_sub(ELLIPSIS.len());
        let front = shortened(text, room);
        self.append(front);
        if front.len() < text.len() {
            self.append(ELLIPSIS);
            self.is_cut = true;
        }
    }

    /// Appends a text as JSON writes it, with an ellipsis at its end if it is too long.
    pub(crate) fn write_json(&mut self, text: &str) -> io::Result<()> {
        let front = fitting(text, LONGEST_JSON);
        let mut shown = Line::new();
        shown.push(front);
        if front.len() < text.len() {
            shown.push(ELLIPSIS);
        }
        write_json_text(self, shown.as_str())
    }
}

impl Write for Line {
    fn write(&mut self, octets: &[u8]) -> io::Result<usize> {
        match std::str::from_utf8(octets) {
            Ok(text) => {
                self.push(text);
                Ok(octets.len())
            }
            Err(_) => Err(io::Error::from(io::ErrorKind::InvalidData)),
        }
    }

    fn flush(&mut self) -> io::Result<()> {
        Ok(())
    }
}
