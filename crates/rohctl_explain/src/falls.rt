//! Where contexts fell: the packet that led to the state in which later packets are refused.

ghost use Rattle.std.specs.Prelude.{◌≡◌};
ghost use Rattle.rohctl_explain.specs.Falls.{is_fall};

use crate::held::state_in;
use crate::packet::{Explained, Got};
use indexmap::IndexMap;
use rohc_context::{ContextState, Refusal, View};
use std::alloc::{AllocError, Global};

/// A fall of a context.
#[derive(Clone, Copy, PartialEq, Eq)]
pub struct Fall {
    /// The number of the packet that led to it: its line or frame.
    pub number: u64,
    /// Why that packet was refused.
    pub refusal: Refusal,
    /// The state that the context fell to.
    pub to: ContextState,
}

/// Whether a context that had this state before a packet, and has the other after it, fell.
pub fn is_fall(before: ContextState, after: ContextState) -> bool
    ensures { result ≡ is_fall before after }
{
    match (before, after) {
        (ContextState::FullContext, ContextState::StaticContext | ContextState::NoContext) => true,
        (ContextState::StaticContext, ContextState::NoContext) => true,
        _ => false,
    }
}

/// The last fall of each context that hasn't risen since. Memory grows with these contexts.
#[derive(Drop)]
pub struct Falls {
    falls: IndexMap<(u16, u16), Fall>,
}

/// The fall between the views of a context, by a packet with this number and answer, if it fell.
fn fall_of(number: u64, got: Got, before: &View, after: &View) -> Option<Fall> {
    let to = state_in(after);
    match got {
        Got::Refused(refusal) if is_fall(state_in(before), to) => Some(Fall {
            number,
            refusal,
            to,
        }),
        _ => None,
    }
}

impl Falls {
    /// No context fell yet.
    pub fn new(alloc: Global) -> Self {
        Falls {
            falls: IndexMap::new(alloc),
        }
    }

    /// Takes a packet with this number. One that is refused for the state of its context gets the fall that led to it.
    pub fn take(&mut self, number: u64, explained: &mut Explained) -> Result<(), AllocError> {
        let Some(cid) = explained.cid else {
            return Ok(());
        };
        let call = (explained.link, cid);
        if explained.got == Got::Refused(Refusal::StateTooLow) {
            explained.fall = self.falls.get(&call).copied();
        }
        if let (Some(before), Some(after)) = (&explained.before, &explained.after)
            && let Some(fall) = fall_of(number, explained.got, before, after)
        {
            self.falls.insert(call, fall)?;
        } else if !matches!(explained.got, Got::Refused(_)) {
            self.falls.swap_remove(&call);
        }
        Ok(())
    }
}
