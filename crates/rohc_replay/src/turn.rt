//! One line of a script: its event is run, and its answers are offered to the writer.

ghost use Rattle.std.specs.Prelude.{◌≡◌, ◌≤◌, ℕ, List, length};
ghost use Rattle.rohc_links.specs.Limits.{longest_packet};
ghost use Rattle.rohc_replay.specs.Script.{longest_line};
ghost use Rattle.rohc_replay.specs.Run.{change};
ghost use Rattle.rohc_replay.specs.Turn.{TakesTurn, TakesLongTurn};

use crate::counts::Counts;
use crate::output::Stopped;
use crate::words::{Words, read_words};
use rohc_concentrator::Concentrator;
use rohc_context::Refusal;
use std::io::Write;

const BAD_LINE: &[u8] = b"- - refused BadLine\n";

const LONG_LINE: &[u8] = b"- - refused LongLine\n";

/// Runs a line that isn't long, and offers its answers to the writer.
pub(crate) fn take_turn<W: Write>(
    concentrator: &mut Concentrator,
    packet: &mut [u8],
    writer: &mut W,
    counts: &mut Counts,
    line: &[u8],
) -> Result<(), Stopped>
    requires room { length packet.old ≡ longest_packet }
    requires short { length line.now ≤ longest_line }
    ensures { TakesTurn (change concentrator.old (W.contents writer.old) concentrator.new (W.contents writer.new)) counts.old counts.new line.now result }
{
    match read_words(line, packet) {
        Some(Words::Arrive { link, moment, size }) => {
            counts.tally.events = counts.tally.events.saturating_add(1);
            let answer = concentrator.arrive(link, moment, &packet[..size]);
            counts.answers.offer_answer(writer, link, &answer)
        }
        Some(Words::Reset { link }) => {
            counts.tally.events = counts.tally.events.saturating_add(1);
            match concentrator.reset(link) {
                Ok(()) => Ok(()),
                Err(_) => counts.answers.offer_refusal(writer, link, Refusal::NoLink),
            }
        }
        None => {
            counts.tally.bad = counts.tally.bad.saturating_add(1);
            counts.answers.offer_text(writer, BAD_LINE)
        }
    }
}

/// Answers a long line, whose event isn't read.
pub(crate) fn take_long_turn<W: Write>(writer: &mut W, counts: &mut Counts) -> Result<(), Stopped>
    ensures { TakesLongTurn (W.contents writer.old) (W.contents writer.new) counts.old counts.new result }
{
    counts.tally.bad = counts.tally.bad.saturating_add(1);
    counts.answers.offer_text(writer, LONG_LINE)
}
