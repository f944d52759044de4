//! A replay whose answers go through a buffer.

ghost use Rattle.std.specs.Prelude.{◌≡◌, IfOk, IfErr, IfSome};
ghost use Rattle.std.specs.Io.Buffered.{writer_contents};
ghost use Rattle.rohc_replay.specs.Isolation.{Isolates};
ghost use Rattle.rohc_replay.specs.Run.{Replays, ReplayFails};

use rohc_concentrator::Concentrator;
use rohc_replay::{RunFault, Tally, replay};
use std::alloc::Global;
use std::io::{BufWriter, Read, Write};

/// Runs a script from the reader on the concentrator, and writes its answers to the buffered writer, as `replay` does.
/// The contract counts the octets in the buffer as written, after those of the inner writer.
///
/// `replay` flushes the buffer before the program waits for more input. After a failed read the buffer is flushed once
/// more, for answers that an earlier flush couldn't write out. The fault is still `Read`.
pub fn replay_buffered<R: Read, W: Write + Drop>(
    alloc: Global,
    concentrator: &mut Concentrator,
    reader: &mut R,
    writer: &mut BufWriter<W>,
) -> Result<Tally, RunFault>
    ensures whole { IfOk result (λ tally. IfSome (R.remaining reader.old) (λ input.
        Replays (record {
          before = concentrator.old;
          after = concentrator.new;
          held = writer_contents W.contents writer.old;
          holding = writer_contents W.contents writer.new;
        }) input tally)) }
    ensures isolated { IfOk result (λ tally. IfSome (R.remaining reader.old) (λ input.
        Isolates concentrator.old input (writer_contents W.contents writer.old)
        (writer_contents W.contents writer.new) concentrator.new)) }
    ensures fault { IfErr result (λ e. ReplayFails R.remaining (writer_contents W.contents)
        (record { concentrator = concentrator.old; reader = reader.old; writer = writer.old }) e
        (record { concentrator = concentrator.new; reader = reader.new; writer = writer.new })) }
{
    match replay(alloc, concentrator, reader, writer) {
        Err(RunFault::Read { written }) => {
            let _ = writer.flush();
            Err(RunFault::Read { written })
        }
        told => told,
    }
}
