//! The parts of a packet: feedback elements, and a header or none.

ghost use Rattle.std.specs.Iterator.{YieldsFirstRef, item_count};

use crate::header::Forward;
use crate::items::split_element;

/// The data of a packet's feedback elements, in order, borrowed from the packet.
#[derive(Clone, Copy)]
pub struct Elements<'a> {
    octets: &'a [u8],
}

impl<'a> Elements<'a> {
    ghost use Rattle.std.specs.Prelude.{◌≡◌, []};
    ghost use Rattle.rohc_frame.specs.Items.{elements_in};
    ghost use Rattle.rohc_frame.specs.Reading.{elements_of};

    /// No feedback elements.
    pub fn none() -> Self
        ensures { elements_of result ≡ [] }
    {
        Elements { octets: &[] }
    }

    /// The feedback elements among the padding and elements at the start of these octets.
    pub(crate) fn at_front_of(octets: &'a [u8]) -> Self
        ensures { elements_of result ≡ elements_in octets.entry.now }
    {
        Elements { octets }
    }
}

impl<'a> Iterator for Elements<'a> {
    type Item = &'a [u8];

    ghost use Rattle.rohc_frame.specs.Reading.{elements_of};

    ghost next_gives = { YieldsFirstRef elements_of };

    ghost remaining = { item_count elements_of };

    fn next(&mut self) -> Option<&'a [u8]> {
        let (data, behind) = split_element(self.octets)?;
        self.octets = behind;
        Some(data)
    }
}

/// A packet split into its parts.
#[derive(Clone, Copy)]
pub struct Framed<'a> {
    /// The header. It is `None` if the packet has only padding and feedback.
    pub forward: Option<Forward<'a>>,
    pub(crate) elements: Elements<'a>,
}

impl<'a> Framed<'a> {
    ghost use Rattle.std.specs.Prelude.{◌≡◌};
    ghost use Rattle.rohc_frame.specs.Reading.{elements_of, reading_of};

    /// The data of the packet's feedback elements, in order.
    pub fn feedback(&self) -> Elements<'a>
        ensures { elements_of result ≡ (reading_of self.now).elements }
    {
        self.elements
    }
}
