//! What was asked, and what was answered.

ghost use Rattle.std.specs.Prelude.{◌≡◌, IfSome};

use rohc_world::Trouble;
use std::alloc::Global;

/// One call: what was asked, and last what was answered.
#[derive(Drop)]
pub enum Event {
    Opened(Vec<u8>, Result<(), Trouble>),
    Read(Result<Vec<u8>, Trouble>),
    Created(Vec<u8>, Result<(), Trouble>),
    Wrote(Vec<u8>, Result<usize, Trouble>),
    Synced(Result<(), Trouble>),
    Closed,
    Renamed(Vec<u8>, Vec<u8>, Result<(), Trouble>),
    Removed(Vec<u8>, Result<(), Trouble>),
    SyncedFolder(Vec<u8>, Result<(), Trouble>),
    SetModified(u64, Result<(), Trouble>),
    Modified(Vec<u8>, Result<u64, Trouble>),
    Dated(Result<u64, Trouble>),
    Timed(Result<u64, Trouble>),
    Logged(Vec<u8>, Result<(), Trouble>),
}

/// A copy of octets. `None` if there is no memory.
pub(crate) fn copied(alloc: Global, octets: &[u8]) -> Option<Vec<u8>>
    ensures { IfSome result (λ copy. copy.items ≡ octets.now) }
{
    Vec::from_slice(alloc, octets).ok()
}
