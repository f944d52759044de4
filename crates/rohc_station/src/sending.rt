//! What came of a datagram.

ghost use Rattle.std.specs.Prelude.{◌≡◌};
ghost use Rattle.rohc_concentrator.specs.Report.{report_of};
ghost use Rattle.rohc_station.specs.Told.{refusal_of, refusal_in, told_of, told_unread, told_for, told_within};

use rohc_concentrator::Answer;
use rohc_context::{Outcome, Refusal};
use rohc_links::Ports;
use rohc_serve::Sends;

/// What came of a datagram.
#[derive(Drop)]
pub struct Taken<'a> {
    /// What is to be sent for it.
    pub sends: Sends<'a>,
    /// Why its packet was refused, if it was. A datagram that is too short or turned away has none: its packet wasn't read.
    pub refusal: Option<Refusal>,
}

/// The refusal of an outcome, if it is one.
pub(crate) fn refusal_of(outcome: Outcome) -> Option<Refusal>
    ensures { result ≡ refusal_of outcome }
{
    match outcome {
        Outcome::Refused(refusal) => Some(refusal),
        Outcome::Delivered | Outcome::Stored => None,
    }
}

/// Why a packet was refused, if it was.
fn refusal_in(answer: &Answer<'_>) -> Option<Refusal>
    ensures { result ≡ refusal_in (report_of answer.now) }
{
    match answer {
        Answer::Arrived { reply, .. } => refusal_of(reply.outcome),
        Answer::OnlyFront { .. } => None,
        Answer::Refused(refusal) => Some(*refusal),
    }
}

/// A datagram was refused, and its packet wasn't read.
pub(crate) fn unread<'a>() -> Taken<'a>
    ensures { told_of result ≡ told_unread }
{
    Taken {
        sends: Sends::refused(None),
        refusal: None,
    }
}

/// What came of a datagram, by the answer to its packet and the ports of its link.
pub(crate) fn answered<'a>(ports: Option<Ports>, answer: Answer<'a>) -> Taken<'a>
    ensures { told_of result ≡ told_for ports (report_of answer.entry) }
{
    let refusal = refusal_in(&answer);
    Taken {
        sends: Sends::answering(ports, answer),
        refusal,
    }
}

/// Removes the feedback for the compressor if it is withheld.
pub(crate) fn withhold_if(taken: &mut Taken<'_>, is_withheld: bool)
    ensures { told_of taken.new ≡ told_within is_withheld (told_of taken.old) }
{
    if is_withheld {
        taken.sends.feedback = None;
    }
}
