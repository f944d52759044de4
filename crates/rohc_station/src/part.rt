//! The parts of a text that is written piece by piece.

use crate::scan::Scan;
use std::ops::Range;

/// The most links that one part of a text has.
const MOST_LINKS: usize = 16;

/// A part of a text: one of its sections, and from which link on.
#[derive(Clone, Copy, Default)]
pub(crate) struct Part {
    pub(crate) section: usize,
    place: usize,
}

impl Part {
    /// Whether its section begins with it.
    pub(crate) fn is_first(self) -> bool {
        self.place == 0
    }

    /// Where its links end.
    fn end(self) -> usize {
        self.place.saturating_add(MOST_LINKS)
    }

    /// Whether its section ends with it, if the section has a row for each link.
    pub(crate) fn is_last(self, scan: &Scan) -> bool {
        scan.link_count() <= self.end()
    }

    /// The places of its links.
    pub(crate) fn places(self, scan: &Scan) -> Range<usize> {
        self.place..self.end().min(scan.link_count())
    }

    /// The part that begins the next section.
    pub(crate) fn next_section(self) -> Part {
        Part {
            section: self.section.saturating_add(1),
            place: 0,
        }
    }

    /// The part that follows, if the section has a row for each link.
    pub(crate) fn next(self, scan: &Scan) -> Part {
        if self.is_last(scan) {
            return self.next_section();
        }
        Part {
            section: self.section,
            place: self.end(),
        }
    }
}
