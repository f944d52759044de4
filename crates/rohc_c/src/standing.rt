//! What stands at a place, as C reads it.

ghost use Rattle.std.specs.Prelude.{◌≡◌, Some, None, IfSome};
ghost use Rattle.rohc_concentrator.specs.Tables.{setting_at, record_at};
ghost use Rattle.rohc_c.specs.Standing.{profile_number, state_number, identifier_at, IsContextAt, expired_of};

use rohc_concentrator::Concentrator;
use rohc_context::{ContextState, Profile};

/// A context: `struct polorowan_context_info` of include/polorowan.h.
#[repr(C)]
#[derive(Clone, Copy, Default, Drop)]
pub struct RohcContextInfo {
    /// Its CID.
    pub cid: u16,
    /// Its profile: 0x0000 or 0x0001.
    pub profile: u16,
    /// Its state: 0 for No Context, 1 for Static Context, 2 for Full Context.
    pub state: u8,
    /// The time of its last accepted arrival, in milliseconds.
    pub accepted: u64,
}

/// The number of a profile (RFC 3095 8).
fn profile_number(profile: Profile) -> u16
    ensures { result ≡ profile_number profile }
{
    match profile {
        Profile::Uncompressed => 0x0000,
        Profile::Rtp => 0x0001,
    }
}

/// The number of a state.
fn state_number(state: ContextState) -> u8
    ensures { result ≡ state_number state }
{
    match state {
        ContextState::NoContext => 0,
        ContextState::StaticContext => 1,
        ContextState::FullContext => 2,
    }
}

/// The context at a place among those of a link.
pub(crate) fn context_at(
    concentrator: &Concentrator,
    link: u16,
    place: usize,
) -> Option<RohcContextInfo>
    ensures shown { IfSome result (λ c. IsContextAt (Some concentrator.now) link place c) }
    ensures behind { result ≡ None → identifier_at (Some concentrator.now) link place ≡ None }
{
    let (cid, context) = concentrator.context_at(link, place)?;
    Some(RohcContextInfo {
        cid,
        profile: profile_number(context.profile()),
        state: state_number(context.state()),
        accepted: context.accepted(),
    })
}

/// Whether the record of a CID of a link has expired at a moment; false if there is none.
pub(crate) fn has_expired(concentrator: &Concentrator, link: u16, cid: u16, moment: u64) -> bool
    ensures { result ≡ expired_of (setting_at concentrator.now link) (record_at concentrator.now link cid) moment }
{
    let Some(records) = concentrator.tables().get(&link) else {
        return false;
    };
    match records.contexts.get(&cid) {
        Some(context) => records.setting.has_expired(context, moment),
        None => false,
    }
}
