//! Lines that come in pieces.

ghost use Rattle.std.specs.Prelude.{◌≡◌, ◌≤◌, ◌<◌, ◌+◌, ◌-◌, ℕ, List, [], ◌∷◌, ◌++◌, length, take, drop, Option, false, slice_index, IfOk, IfErr, IfSome, IfNone};
ghost use Rattle.rohc_concentrator.specs.declared.concentrator.Concentrator.{Concentrator as State};
ghost use Rattle.rohc_links.specs.Limits.{longest_packet};
ghost use Rattle.rohc_replay.specs.Script.{longest_line, lines_of};
ghost use Rattle.rohc_replay.specs.Stream.{StandsInScript, EndsWithText, StopsAt, StopsWithin};
ghost use Rattle.rohc_replay.specs.Run.{change, Stops};
ghost use Rattle.rohc_replay.specs.Lines.{has_newline};

use crate::counts::Counts;
use crate::output::Stopped;
use crate::turn::{take_long_turn, take_turn};
use memchr::memchr;
use rohc_concentrator::Concentrator;
use std::io::Write;

/// The longest line without its newline, in octets.
pub(crate) const LONGEST_LINE: usize = 131_200;

/// The start of a line that isn't finished.
#[derive(Clone, Copy)]
pub(crate) struct LineFront {
    /// How many of its octets are kept: none if it is already too long.
    pub(crate) len: usize,
    /// Whether it is already longer than the longest line.
    pub(crate) long: bool,
}

impl LineFront {
    ghost use Rattle.std.specs.Prelude.{◌≡◌, false};

    /// A line of which nothing has been read.
    pub(crate) fn new() -> Self
        ensures len { result.len ≡ 0 }
        ensures long { result.long ≡ false }
    {
        LineFront {
            len: 0,
            long: false,
        }
    }
}

/// The index of the first newline.
fn first_newline(octets: &[u8]) -> Option<usize>
    ensures found { IfSome result (λ i. (i < length octets.now) × (slice_index octets.now i ≡ 10) × (has_newline (take i octets.now) ≡ false)) }
    ensures none { IfNone result (has_newline octets.now ≡ false) }
{
    memchr(b'\n', octets)
}

/// Runs the line that a newline ends, or answers it if it is long.
fn end_line<W: Write>(
    concentrator: &mut Concentrator,
    packet: &mut [u8],
    writer: &mut W,
    counts: &mut Counts,
    long: bool,
    line: &[u8],
) -> Result<(), Stopped>
    requires room { length packet.old ≡ longest_packet }
    requires short { length line.now ≤ longest_line }
    ensures stands { IfOk result (λ _. (first : State) (held : Option (List ℕ)) (seen : List ℕ) →
        StandsInScript (change first held concentrator.old (W.contents writer.old)) seen line.now long counts.old →
        StandsInScript (change first held concentrator.new (W.contents writer.new)) (seen ++ 10 ∷ []) [] false counts.new) }
    ensures stops { IfErr result (λ _. (first : State) (held : Option (List ℕ)) (seen : List ℕ) →
        StandsInScript (change first held concentrator.old (W.contents writer.old)) seen line.now long counts.old →
        StopsAt (change first held concentrator.new (W.contents writer.new)) (seen ++ 10 ∷ []) counts.new) }
{
    if long {
        take_long_turn(writer, counts)
    } else {
        take_turn(concentrator, packet, writer, counts, line)
    }
}

/// Runs each line that ends in `octets`. They start with what is kept of an unfinished line.
///
/// Returns what is kept of the line that is unfinished at their end: its octets are the last of
/// them.
pub(crate) fn run_lines<W: Write>(
    concentrator: &mut Concentrator,
    packet: &mut [u8],
    writer: &mut W,
    counts: &mut Counts,
    octets: &[u8],
    front: LineFront,
) -> Result<LineFront, Stopped>
    requires room { length packet.old ≡ longest_packet }
    requires within { front.len ≤ length octets.now }
    requires bounded { length octets.now ≤ longest_line + 1 }
    ensures used { IfOk result (λ next. next.len ≤ length octets.now) }
    ensures kept { IfOk result (λ next. next.len ≤ longest_line) }
    ensures stands { IfOk result (λ next. (first : State) (held : Option (List ℕ)) (seen : List ℕ) →
        StandsInScript (change first held concentrator.old (W.contents writer.old)) seen (take front.len octets.now) front.long counts.old →
        StandsInScript (change first held concentrator.new (W.contents writer.new)) (seen ++ drop front.len octets.now) (drop (length octets.now - next.len) octets.now) next.long counts.new) }
    ensures stops { IfErr result (λ _. (first : State) (held : Option (List ℕ)) (seen : List ℕ) →
        StandsInScript (change first held concentrator.old (W.contents writer.old)) seen (take front.len octets.now) front.long counts.old →
        StopsWithin (change first held concentrator.new (W.contents writer.new)) (seen ++ drop front.len octets.now) counts.new) }
{
    let mut start = 0;
    let mut from = front.len;
    let mut long = front.long;
    while let Some(ahead) = first_newline(&octets[from..]) {
        let stop = from + ahead;
        end_line(
            concentrator,
            packet,
            writer,
            counts,
            long,
            &octets[start..stop],
        )?;
        long = false;
        start = stop + 1;
        from = start;
    }
    let len = octets.len() - start;
    if long || len > LONGEST_LINE {
        return Ok(LineFront { len: 0, long: true });
    }
    Ok(LineFront { len, long: false })
}

/// Runs the last line, if the script ends without a newline.
pub(crate) fn end_script<W: Write>(
    concentrator: &mut Concentrator,
    packet: &mut [u8],
    writer: &mut W,
    counts: &mut Counts,
    long: bool,
    line: &[u8],
) -> Result<(), Stopped>
    requires room { length packet.old ≡ longest_packet }
    requires short { length line.now ≤ longest_line }
    ensures ends { IfOk result (λ _. (first : State) (held : Option (List ℕ)) (seen : List ℕ) →
        StandsInScript (change first held concentrator.old (W.contents writer.old)) seen line.now long counts.old →
        EndsWithText (change first held concentrator.new (W.contents writer.new)) seen counts.new) }
    ensures stops { IfErr result (λ _. (first : State) (held : Option (List ℕ)) (seen : List ℕ) →
        StandsInScript (change first held concentrator.old (W.contents writer.old)) seen line.now long counts.old →
        Stops (change first held concentrator.new (W.contents writer.new)) (lines_of seen) counts.new.answers.taken) }
{
    if long {
        take_long_turn(writer, counts)
    } else if line.is_empty() {
        Ok(())
    } else {
        take_turn(concentrator, packet, writer, counts, line)
    }
}
