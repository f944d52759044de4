//! An answer with whether its packet was repaired, which the concentrator fills in.

use rohc_concentrator::{Answer, Sink};
use rohc_context::{Delivered, Refusal, Reply};
use rohc_frame::Elements;

/// An answer, and whether its packet was repaired: delivered by the second or the third try.
#[derive(Drop)]
pub(crate) struct Marked<'a> {
    pub answer: Answer<'a>,
    pub repaired: bool,
}

impl Marked<'_> {
    ghost use Rattle.std.specs.Prelude.{◌≡◌, false};

    /// A blank form for `arrive_into` to fill in.
    pub(crate) fn blank() -> Self
        ensures { result.repaired ≡ false }
    {
        Marked {
            answer: Answer::blank(),
            repaired: false,
        }
    }
}

impl<'a> Sink<'a> for Marked<'a> {
    ghost use Rattle.std.specs.Prelude.{◌≡◌};
    ghost use Rattle.rohc_concentrator.specs.Report.{report_of};

    ghost has_room = { λ _ _. Unit {0} };

    ghost takes = { λ _ report repaired new. (report_of new.answer ≡ report) × (new.repaired ≡ repaired) };

    fn rebuilt(&mut self, cid: u16, packet: Delivered<'a>) {
        self.answer.rebuilt(cid, packet);
        self.repaired = false;
    }

    fn arrived(&mut self, cid: u16, reply: Reply<'a>, repaired: bool, relayed: Elements<'a>) {
        self.answer.arrived(cid, reply, repaired, relayed);
        self.repaired = repaired;
    }

    fn only_front(&mut self, relayed: Elements<'a>) {
        self.answer.only_front(relayed);
        self.repaired = false;
    }

    fn refused(&mut self, refusal: Refusal) {
        self.answer.refused(refusal);
        self.repaired = false;
    }
}
