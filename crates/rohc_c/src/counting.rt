//! Counting answers that stand in the caller's structs and buffers.

ghost use Rattle.rohc_c.specs.Counting.{CountsWritten};

use crate::arrival::RohcArrival;
use rohc_counts::Counts;

/// The kind of an answer to padding and feedback alone.
const FRONT: u8 = 1;

/// Counts the answer that stands in the struct, its feedback for the compressor in this buffer.
///
/// A number that is no outcome isn't counted, nor feedback that the buffer doesn't hold.
#[unsafe(no_mangle)]
pub extern "C" fn polorowan_count(counts: &mut Counts, arrival: &RohcArrival, feedback: &[u8])
    ensures { CountsWritten arrival.now feedback.now counts.old counts.new }
{
    let outcome = if arrival.kind == FRONT {
        None
    } else {
        Some(arrival.outcome)
    };
    let element = if arrival.has_feedback {
        feedback.get(..arrival.feedback_length)
    } else {
        None
    };
    let relayed = arrival.relayed_count as u64;
    counts.count_numbers(outcome, arrival.cid, element, relayed);
}
