//! What is to be sent for a datagram.

use rohc_concentrator::Answer;
use rohc_context::{Delivered, Outcome};
use rohc_feedback::Element;
use rohc_frame::Elements;
use rohc_links::Ports;

/// What is to be sent for a datagram: first the relayed feedback, then the packet, then the
/// feedback for the peer.
#[derive(Drop)]
pub struct Sends<'a> {
    /// The ports of the datagram's link; `None` if it names no link that is there.
    pub ports: Option<Ports>,
    /// The data of the feedback that came from the peer, for the relay port.
    pub relayed: Elements<'a>,
    /// The rebuilt packet, for the deliver port.
    pub packet: Option<Delivered<'a>>,
    /// The feedback element to be sent to the peer, for the feedback port.
    pub feedback: Option<Element>,
    /// Whether the datagram or its packet was refused.
    pub refused: bool,
}

ghost use Rattle.std.specs.Prelude.{◌≡◌};
ghost use Rattle.rohc_concentrator.specs.Report.{is_refusal};

/// Whether an outcome is a refusal.
fn is_refusal(outcome: Outcome) -> bool
    ensures { result ≡ is_refusal outcome }
{
    match outcome {
        Outcome::Refused(_) => true,
        Outcome::Delivered | Outcome::Stored => false,
    }
}

impl<'a> Sends<'a> {
    ghost use Rattle.std.specs.Prelude.{◌≡◌, Some};
    ghost use Rattle.rohc_concentrator.specs.Report.{report_of};
    ghost use Rattle.rohc_serve.specs.Outgoing.{outgoing_of, refused_for, sends_of};

    /// What is to be sent for a refused datagram: nothing.
    pub fn refused(ports: Option<Ports>) -> Self
        ensures { outgoing_of result ≡ refused_for ports }
    {
        Sends {
            ports,
            relayed: Elements::none(),
            packet: None,
            feedback: None,
            refused: true,
        }
    }

    /// What is to be sent for an answer, to the ports of its link.
    pub fn answering(ports: Option<Ports>, answer: Answer<'a>) -> Self
        ensures { outgoing_of result ≡ sends_of ports (report_of answer.entry) }
    {
        match answer {
            Answer::Arrived { reply, relayed, .. } => Sends {
                ports,
                relayed,
                packet: reply.packet,
                feedback: reply.feedback,
                refused: is_refusal(reply.outcome),
            },
            Answer::OnlyFront { relayed } => Sends {
                relayed,
                refused: false,
                ..Sends::refused(ports)
            },
            Answer::Refused(_) => Sends::refused(ports),
        }
    }
}
