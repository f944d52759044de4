//! A run through packets, which are told to a writer.

use crate::asked::Telling;
use crate::assumed::{Assumed, fits_better, write_assumed, write_assumed_json};
use crate::decoding::Decoding;
use crate::explain_json::write_object;
use crate::explain_text::{write_brief, write_whole};
use crate::packet::{Explained, Got, explain_packet};
use rohctl_captures::{Narrow, Place, Unit};
use rohctl_ground::{Ending, Line, Reason, Stop, Taker, unprinted};
use std::io;
use std::io::Write;

/// A run through packets, which are told to a writer.
#[derive(Drop)]
pub(crate) struct Run<W: Write + Drop> {
    pub(crate) decoding: Decoding,
    /// What is assumed of the link, if no links file is given.
    pub(crate) assumed: Option<Assumed>,
    pub(crate) narrow: Narrow,
    pub(crate) telling: Telling,
    pub(crate) out: W,
    /// What has the numbers of the packets.
    pub(crate) unit: Unit,
    /// Whether a packet that was told is refused.
    pub(crate) found: bool,
    pub(crate) seen: Seen,
}

/// What was seen of an input.
#[derive(Clone, Copy, Default)]
pub(crate) struct Seen {
    /// The lines of a script.
    pub(crate) lines: u64,
    /// The lines or frames that are events.
    pub(crate) events: u64,
}

impl<W: Write + Drop> Run<W> {
    /// Writes what is told of a packet.
    fn tell(&mut self, number: u64, explained: &Explained) -> Result<(), Stop> {
        if matches!(explained.got, Got::Refused(_)) {
            self.found = true;
        }
        self.write(number, explained)
            .map_err(|error| Stop::Write(Reason::of(&error)))
    }

    /// Writes a packet, and before the first one what is assumed.
    fn write(&mut self, number: u64, explained: &Explained) -> io::Result<()> {
        self.tell_assumed()?;
        let at = Place {
            unit: self.unit,
            number,
        };
        let out = &mut self.out;
        match self.telling {
            Telling::Whole => write_whole(out, at, explained),
            Telling::Brief => write_brief(out, at, explained),
            Telling::Json => write_object(out, at, explained),
        }
    }

    /// Writes the settings that are assumed before the first packet, if some are and more than a line per packet is
    /// wanted.
    fn tell_assumed(&mut self) -> io::Result<()> {
        let Some(assumed) = &self.assumed else {
            return Ok(());
        };
        if self.narrow.shown() > 1 {
            return Ok(());
        }
        match self.telling {
            Telling::Whole => write_assumed(&mut self.out, &assumed.settings),
            Telling::Json => write_assumed_json(&mut self.out, &assumed.settings),
            Telling::Brief => Ok(()),
        }
    }

    /// Runs a packet, and explains it.
    fn explain(
        &mut self,
        number: u64,
        link: u16,
        moment: u64,
        packet: &[u8],
    ) -> Result<Explained, Stop> {
        let mut explained = self.decoding.arrive(number, link, moment, packet)?;
        if let Some(assumed) = &mut self.assumed {
            let alloc = self.decoding.alloc;
            let other = explain_packet(alloc, &mut assumed.other, link, moment, packet)?;
            explained.better = fits_better(&assumed.settings, explained.got, other.got);
        }
        Ok(explained)
    }

    /// Flushes what was told. Returns how the run ends: whether a packet that was told is refused.
    pub(crate) fn end(&mut self) -> Result<Ending<'static>, Ending<'static>> {
        match self.out.flush() {
            Err(error) => Err(unprinted(&error)),
            Ok(()) if self.found => Ok(Ending::Findings),
            Ok(()) => Ok(Ending::Good),
        }
    }
}

impl<W: Write + Drop> Taker for Run<W> {
    /// Runs the event of a line or a frame. A line that is no event changes nothing.
    fn take(&mut self, number: u64, line: Line<'_>) -> Result<(), Stop> {
        self.seen.lines = number;
        if !matches!(&line, Line::Bad) {
            self.seen.events = self.seen.events.saturating_add(1);
        }
        match line {
            Line::Arrive {
                link,
                moment,
                packet,
            } => {
                let explained = self.explain(number, link, moment, packet)?;
                if self.narrow.shows(&explained.seen(number)) {
                    self.tell(number, &explained)?;
                }
            }
            Line::Reset { link } => {
                let _ = self.decoding.concentrator.reset(link);
            }
            Line::Bad => {}
        }
        Ok(())
    }
}
