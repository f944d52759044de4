//! Full Context, as it begins after an IR or an IR-DYN (RFC 3095 5.7.7).

use crate::due::Due;
use crate::next::first_reference;
use crate::reply::Reply;
use crate::settings::Settings;
use crate::state::{FullContext, State};
use crate::window::Window;
use arrayvec::ArrayVec;
use rohc_frame::Forward;
use rohc_header::{Dynamic, Header, Prepared, Static};

impl FullContext {
    ghost use Rattle.std.specs.Prelude.{◌≡◌, ◌≤◌, ℕ, Some, length};
    ghost use Rattle.rohc_header.specs.Original.{longest_payload};
    ghost use Rattle.rohc_frame.specs.Reading.{header_of};
    ghost use Rattle.rohc_chain.specs.Good.{IsGoodStatic, IsGoodDynamic};
    ghost use Rattle.rohc_context.specs.Window.{outcomes};
    ghost use Rattle.rohc_context.specs.Record.{state_of};
    ghost use Rattle.rohc_context.specs.Response.{response_of};
    ghost use Rattle.rohc_context.specs.Renewal.{Delivers};
    ghost use Rattle.rohc_context.specs.Step.{Answers, arrival};

    /// The state after an IR or IR-DYN with these fields, and the answer: the rebuilt packet, with an
    /// ACK if the settings send feedback.
    ///
    /// The payload is at most 65,495 octets.
    #[inline(always)]
    pub(crate) fn begin<'a>(
        settings: &Settings,
        forward: &Forward<'a>,
        fixed: Static,
        moving: Dynamic,
        payload: &'a [u8],
        window: Window,
    ) -> (State, Reply<'a>)
        requires fixed { IsGoodStatic fixed }
        requires moving { IsGoodDynamic moving }
        requires payload { length payload.now ≤ longest_payload }
        ensures { (moment : ℕ) → Answers settings.now (header_of forward.now) (Delivers (arrival settings.now moment (header_of forward.now)) fixed moving payload.entry.now (outcomes window))
            (response_of result.1) (Some (record { accepted = moment; state = state_of result.0 })) }
    {
        let prepared = Prepared::of(&fixed, &moving);
        let header = Header::with_prepared(&fixed, &prepared, &moving, payload.len()).unwrap();
        let context = FullContext {
            fixed,
            reference: first_reference(&moving, header.registers()),
            prepared,
            previous: None,
            windows: (window, Window::empty()),
        };
        let feedback = Due::Ack(moving.sn).feedback(settings.mode, forward);
        let head = ArrayVec::from(header.octets);
        (
            State::Full(context),
            Reply::delivered(head, payload, feedback),
        )
    }
}
