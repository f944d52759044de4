//! Tracing a script line by line, as it is read.

ghost use Rattle.std.specs.Prelude.{◌≡◌, ◌≢◌, ◌<◌, ◌≤◌, ◌+◌, ℕ, List, [], ◌∷◌, ◌++◌, length, Option, IfOk, IfSome, OnOk};
ghost use Rattle.rohc_concentrator.specs.declared.concentrator.Concentrator.{Concentrator as State};
ghost use Rattle.rohc_links.specs.Limits.{counted};
ghost use Rattle.rohc_replay.specs.Run.{change};
ghost use Rattle.rohc_trace.specs.Lines.{RunsText, ShowsAndRuns};
ghost use Rattle.rohc_trace.specs.Trace.{Traces, StandsInTrace};

use crate::fault::TraceFault;
use crate::head::numbered_head;
use crate::source::Source;
use rohc_concentrator::Concentrator;
use rohc_links::zeros;
use rohc_replay::{RunFault, replay};
use std::alloc::Global;
use std::io::{Read, Write};

/// The longest line without its newline, in octets.
const LONGEST_LINE: usize = 131_200;

/// How many octets are asked for at once.
const PIECE: usize = 65_536;

/// The read call that counts as a fault, whatever it returns.
const LAST_READ: u64 = 1 << 40;

/// How many lines are finished, and the front of the unfinished one.
#[derive(Drop)]
pub(crate) struct Tracer {
    alloc: Global,
    lines: u64,
    /// The unfinished line, or of a long one the first octets, one more than the longest line has.
    line: Vec<u8>,
}

/// Runs a line with its newline, and writes its answers.
fn run_line<W: Write>(
    alloc: Global,
    concentrator: &mut Concentrator,
    writer: &mut W,
    line: &[u8],
) -> Result<(), TraceFault>
    ensures { OnOk result (RunsText (change concentrator.old (W.contents writer.old) concentrator.new (W.contents writer.new)) line.now) }
{
    let mut source = Source { rest: line };
    match replay(alloc, concentrator, &mut source, writer) {
        Ok(_) => Ok(()),
        Err(RunFault::NoMemory) => Err(TraceFault::NoMemory),
        Err(RunFault::Read { .. }) => Err(TraceFault::Read),
        Err(RunFault::Write { .. }) => Err(TraceFault::Write),
    }
}

impl Tracer {
    /// Nothing was read.
    fn new(alloc: Global) -> Self
        ensures lines { result.lines ≡ 0 }
        ensures line { result.line.items ≡ [] }
    {
        Tracer {
            alloc,
            lines: 0,
            line: Vec::new(alloc),
        }
    }

    /// Shows the line, runs it with a newline, and writes its answers.
    fn run_kept<W: Write>(
        &mut self,
        concentrator: &mut Concentrator,
        writer: &mut W,
    ) -> Result<(), TraceFault>
        ensures lines { OnOk result (self.new.lines ≡ counted self.old.lines 1) }
        ensures ran { OnOk result (ShowsAndRuns self.old.line.items self.new.lines concentrator.old (W.contents writer.old) concentrator.new (W.contents writer.new)) }
    {
        self.lines = self.lines.saturating_add(1);
        let Ok(head) = numbered_head(self.alloc, self.lines, &self.line) else {
            return Err(TraceFault::NoMemory);
        };
        if writer.write_all(&head).is_err() {
            return Err(TraceFault::Write);
        }
        if self.line.push(b'\n').is_err() {
            return Err(TraceFault::NoMemory);
        }
        run_line(self.alloc, concentrator, writer, &self.line)
    }

    /// Takes a newline.
    fn end_line<W: Write>(
        &mut self,
        concentrator: &mut Concentrator,
        writer: &mut W,
    ) -> Result<(), TraceFault>
        ensures { OnOk result ((first : State) (held : Option (List ℕ)) (seen : List ℕ) →
            StandsInTrace (change first held concentrator.old (W.contents writer.old)) seen self.old →
            StandsInTrace (change first held concentrator.new (W.contents writer.new)) (seen ++ 10 ∷ []) self.new) }
    {
        self.run_kept(concentrator, writer)?;
        self.line.clear();
        Ok(())
    }

    /// Takes any other octet.
    fn keep(&mut self, octet: u8) -> Result<(), TraceFault>
        requires { octet ≢ 10 }
        ensures { OnOk result ((first : State) (held : Option (List ℕ)) (now : State) (holding : Option (List ℕ)) (seen : List ℕ) →
            StandsInTrace (change first held now holding) seen self.old →
            StandsInTrace (change first held now holding) (seen ++ octet ∷ []) self.new) }
    {
        if self.line.len() > LONGEST_LINE {
            return Ok(());
        }
        match self.line.push(octet) {
            Ok(()) => Ok(()),
            Err(_) => Err(TraceFault::NoMemory),
        }
    }

    /// Takes one octet.
    fn take<W: Write>(
        &mut self,
        concentrator: &mut Concentrator,
        writer: &mut W,
        octet: u8,
    ) -> Result<(), TraceFault>
        ensures { OnOk result ((first : State) (held : Option (List ℕ)) (seen : List ℕ) →
            StandsInTrace (change first held concentrator.old (W.contents writer.old)) seen self.old →
            StandsInTrace (change first held concentrator.new (W.contents writer.new)) (seen ++ octet ∷ []) self.new) }
    {
        if octet == b'\n' {
            self.end_line(concentrator, writer)
        } else {
            self.keep(octet)
        }
    }

    /// Takes octets in their order.
    fn take_all<W: Write>(
        &mut self,
        concentrator: &mut Concentrator,
        writer: &mut W,
        octets: &[u8],
    ) -> Result<(), TraceFault>
        ensures { OnOk result ((first : State) (held : Option (List ℕ)) (seen : List ℕ) →
            StandsInTrace (change first held concentrator.old (W.contents writer.old)) seen self.old →
            StandsInTrace (change first held concentrator.new (W.contents writer.new)) (seen ++ octets.now) self.new) }
    {
        for octet in octets {
            self.take(concentrator, writer, *octet)?;
        }
        Ok(())
    }

    /// Takes the last line, if it ends without a newline.
    fn end<W: Write>(
        &mut self,
        concentrator: &mut Concentrator,
        writer: &mut W,
    ) -> Result<(), TraceFault>
        ensures { OnOk result ((first : State) (held : Option (List ℕ)) (seen : List ℕ) →
            StandsInTrace (change first held concentrator.old (W.contents writer.old)) seen self.old →
            Traces (change first held concentrator.new (W.contents writer.new)) seen) }
    {
        if self.line.is_empty() {
            return Ok(());
        }
        self.run_kept(concentrator, writer)?;
        Ok(())
    }
}

/// Traces the script from the reader on the concentrator: writes each line with its number, and its answers behind
/// it.
///
/// A line's answers are those of `replay`. Of a line its first 120 octets are shown. Nothing is known after a fault.
pub fn trace<R: Read, W: Write>(
    alloc: Global,
    concentrator: &mut Concentrator,
    reader: &mut R,
    writer: &mut W,
) -> Result<(), TraceFault>
    ensures { OnOk result (IfSome (R.remaining reader.old) (λ text.
        Traces (change concentrator.old (W.contents writer.old) concentrator.new (W.contents writer.new)) text)) }
{
    let Ok(mut buffer) = zeros(alloc, PIECE) else {
        return Err(TraceFault::NoMemory);
    };
    trace_by(alloc, concentrator, reader, writer, buffer.as_mut_slice())
}

/// Traces a script, by way of this buffer.
fn trace_by<R: Read, W: Write>(
    alloc: Global,
    concentrator: &mut Concentrator,
    reader: &mut R,
    writer: &mut W,
    buffer: &mut [u8],
) -> Result<(), TraceFault>
    requires { 0 < length buffer.old }
    ensures { OnOk result (IfSome (R.remaining reader.old) (λ text.
        Traces (change concentrator.old (W.contents writer.old) concentrator.new (W.contents writer.new)) text)) }
{
    let mut tracer = Tracer::new(alloc);
    for _ in 1..LAST_READ {
        let Ok(count) = reader.read(buffer) else {
            return Err(TraceFault::Read);
        };
        if count == 0 {
            tracer.end(concentrator, writer)?;
            return Ok(());
        }
        tracer.take_all(concentrator, writer, &buffer[..count])?;
    }
    Err(TraceFault::Read)
}
