//! Running a script line by line, as it is read.

ghost use Rattle.std.specs.Prelude.{◌≡◌, ◌≢◌, ℕ, List, Option, ◌+◌, ◌-◌, ◌<◌, ◌≤◌, length, take, IfOk, IfErr, IfSome, OnErr};
ghost use Rattle.std.specs.List.{slice_range};
ghost use Rattle.std.specs.Io.KnownBytes.{Consumes, IsAtEnd, Keeps};
ghost use Rattle.rohc_concentrator.specs.declared.concentrator.Concentrator.{Concentrator as State};
ghost use Rattle.rohc_links.specs.Limits.{longest_packet};
ghost use Rattle.rohc_replay.specs.Script.{longest_line};
ghost use Rattle.rohc_replay.specs.Isolation.{Isolates};
ghost use Rattle.rohc_replay.specs.Run.{change, Replays, WriteOrFlushFails, ReplayFails};
ghost use Rattle.rohc_replay.specs.Stream.{StandsInScript};

use crate::counts::Counts;
use crate::fault::RunFault;
use crate::output::Stopped;
use crate::stream::{LONGEST_LINE, LineFront, end_script, run_lines};
use crate::tally::Tally;
use rohc_concentrator::Concentrator;
use rohc_links::{LONGEST_PACKET, zeros};
use std::alloc::Global;
use std::io;
use std::io::{Read, Write};

/// The read call that counts as a fault, whatever it returns.
const LAST_READ: u64 = 1 << 40;

/// Runs a script from the reader on the concentrator, and writes its answers to the writer. Returns the number
/// of good lines and of others.
///
/// Each line is run when it ends, and its answers are offered to the writer before the next line is run. The
/// writer is flushed before each read call except the first, so that no answer waits for more input, and once after
/// the last line.
///
/// Two buffers, one for a line and one for a packet, are allocated before the first read. After that only an
/// accepted first IR asks for memory. Each error of a read, a write or the last flush is a fault. So are a write
/// that takes no octets and the 2^40th read call. An error of an earlier flush is ignored.
pub fn replay<R: Read, W: Write>(
    alloc: Global,
    concentrator: &mut Concentrator,
    reader: &mut R,
    writer: &mut W,
) -> Result<Tally, RunFault>
    ensures whole { IfOk result (λ tally. IfSome (R.remaining reader.old) (λ input.
        Replays (record {
          before = concentrator.old;
          after = concentrator.new;
          held = W.contents writer.old;
          holding = W.contents writer.new;
        }) input tally)) }
    ensures isolated { IfOk result (λ tally. IfSome (R.remaining reader.old) (λ input.
        Isolates concentrator.old input (W.contents writer.old) (W.contents writer.new) concentrator.new)) }
    ensures fault { IfErr result (λ e. ReplayFails R.remaining W.contents
        (record { concentrator = concentrator.old; reader = reader.old; writer = writer.old }) e
        (record { concentrator = concentrator.new; reader = reader.new; writer = writer.new })) }
{
    let (Ok(mut line), Ok(mut packet)) = (
        zeros(alloc, LONGEST_LINE + 1),
        zeros(alloc, LONGEST_PACKET),
    ) else {
        return Err(RunFault::NoMemory);
    };
    run_script(
        concentrator,
        reader,
        writer,
        line.as_mut_slice(),
        packet.as_mut_slice(),
    )
}

/// Runs a script with these two buffers.
fn run_script<R: Read, W: Write>(
    concentrator: &mut Concentrator,
    reader: &mut R,
    writer: &mut W,
    line: &mut [u8],
    packet: &mut [u8],
) -> Result<Tally, RunFault>
    requires line_room { length line.old ≡ longest_line + 1 }
    requires packet_room { length packet.old ≡ longest_packet }
    ensures whole { IfOk result (λ tally. IfSome (R.remaining reader.old) (λ input.
        Replays (change concentrator.old (W.contents writer.old) concentrator.new (W.contents writer.new)) input tally)) }
    ensures rich { IfErr result (λ e. e ≢ RunFault.NoMemory) }
    ensures fault { IfErr result (λ e. ReplayFails R.remaining W.contents
        (record { concentrator = concentrator.old; reader = reader.old; writer = writer.old }) e
        (record { concentrator = concentrator.new; reader = reader.new; writer = writer.new })) }
{
    let mut counts = Counts::new();
    let mut front = LineFront::new();
    for _ in 1..LAST_READ {
        let Ok(end) = read_more(reader, line, front.len) else {
            return Err(counts.read_fault());
        };
        if end == front.len {
            let last = &line[..end];
            let Ok(()) = finish(concentrator, packet, writer, &mut counts, front.long, last) else {
                return Err(counts.write_fault());
            };
            return Ok(counts.tally);
        }
        let seen = &line[..end];
        let Ok(next) = run_lines(concentrator, packet, writer, &mut counts, seen, front) else {
            return Err(counts.write_fault());
        };
        move_to_front(line, end, next.len);
        front = next;
        // If the flush fails, the read goes on. The writer keeps what it has, and its next write or flush fails.
        let _ = writer.flush();
    }
    Err(counts.read_fault())
}

/// Runs the last line of a script, if it ends without a newline, and flushes the writer.
fn finish<W: Write>(
    concentrator: &mut Concentrator,
    packet: &mut [u8],
    writer: &mut W,
    counts: &mut Counts,
    long: bool,
    line: &[u8],
) -> Result<(), Stopped>
    requires room { length packet.old ≡ longest_packet }
    requires short { length line.now ≤ longest_line }
    ensures whole { IfOk result (λ _. (first : State) (held : Option (List ℕ)) (seen : List ℕ) →
        StandsInScript (change first held concentrator.old (W.contents writer.old)) seen line.now long counts.old →
        Replays (change first held concentrator.new (W.contents writer.new)) seen counts.new.tally) }
    ensures fault { IfErr result (λ _. (first : State) (held : Option (List ℕ)) (seen : List ℕ) →
        StandsInScript (change first held concentrator.old (W.contents writer.old)) seen line.now long counts.old →
        WriteOrFlushFails (change first held concentrator.new (W.contents writer.new)) seen counts.new.answers.taken) }
{
    let Ok(()) = end_script(concentrator, packet, writer, counts, long, line) else {
        return Err(Stopped);
    };
    match writer.flush() {
        Ok(()) => Ok(()),
        Err(_) => Err(Stopped),
    }
}

/// Reads into `line` after its first `filled` octets, and returns where the octets that were read end.
fn read_more<R: Read>(reader: &mut R, line: &mut [u8], filled: usize) -> io::Result<usize>
    requires { filled < length line.old }
    ensures within { IfOk result (λ end. (filled ≤ end) × (end ≤ length line.new)) }
    ensures kept { take filled line.new ≡ take filled line.old }
    ensures read { IfOk result (λ end. Consumes (R.remaining reader.old) (R.remaining reader.new) (slice_range line.new filled end)) }
    ensures at_end { IfOk result (λ end. end ≡ filled → IsAtEnd (R.remaining reader.new)) }
    ensures fault { OnErr result (Keeps (R.remaining reader.old) (R.remaining reader.new)) }
{
    let given = reader.read(&mut line[filled..])?;
    Ok(filled + given)
}

/// Moves the `len` octets before `end` to the start of `line`.
fn move_to_front(line: &mut [u8], end: usize, len: usize)
    requires ordered { len ≤ end }
    requires within { end ≤ length line.old }
    ensures { take len line.new ≡ slice_range line.old (end - len) end }
{
    if len < end {
        line.copy_within(end - len..end, 0);
    }
}
