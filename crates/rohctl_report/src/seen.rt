//! What became of a packet, from what is explained of it.

use rohc_context::ContextState;
use rohc_report::{Became, is_behind};
use rohctl_explain::{Explained, Got, state_in};

/// Whether a packet was delivered behind another. An IR may begin anew, so it is never late.
fn is_late(explained: &Explained) -> bool {
    match (explained.sn_before(), explained.sn) {
        (Some(before), Some(sn)) => !explained.is_ir() && is_behind(before, sn),
        _ => false,
    }
}

/// What became of a packet: as the step answered, by the try that fits.
pub(crate) fn became_of(explained: &Explained) -> Became {
    match explained.got {
        Got::Refused(refusal) => Became::Refused(refusal),
        Got::Stored => Became::Stored,
        Got::OnlyFront => Became::Front,
        Got::Delivered(_) => match explained.fitting() {
            Some(1 | 2) => Became::Repaired,
            _ if is_late(explained) => Became::Late,
            _ => Became::Delivered,
        },
    }
}

/// The feedback that a packet made due.
pub(crate) fn feedback_of(explained: &Explained) -> Option<&[u8]> {
    match &explained.feedback {
        Some(element) => Some(element.as_slice()),
        None => None,
    }
}

/// The state of the packet's context behind it, if there is one.
pub(crate) fn state_of(explained: &Explained) -> Option<ContextState> {
    explained.after.as_ref().map(|view| state_in(view))
}
