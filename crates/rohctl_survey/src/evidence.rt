//! What the IRs of a link say of its kind of CIDs.

ghost use Rattle.std.specs.Prelude.{◌≡◌};
ghost use Rattle.rohctl_survey.specs.Evidence.{ir_cid, kind_by};

use rohc_chain::read_ir;
use rohc_frame::{CidKind, HeadKind, cut};

/// The CID of a packet, if it is an IR that can be decoded, its CRC included, on a link with CIDs of this kind.
pub fn ir_cid(size: CidKind, octets: &[u8]) -> Option<u16>
    ensures { result ≡ ir_cid size octets.now }
{
    let Ok(framed) = cut(size, size.greatest_cid(), octets) else {
        return None;
    };
    let forward = framed.forward?;
    match forward.kind {
        HeadKind::Ir { .. } => match read_ir(&forward) {
            Ok(_) => Some(forward.cid),
            Err(_) => None,
        },
        HeadKind::IrDyn | HeadKind::Other => None,
    }
}

/// The kind of CIDs of a link, so many IRs of which can be decoded if its CIDs are small, and so many if they are large.
pub fn kind_by(small: u64, large: u64) -> CidKind
    ensures { result ≡ kind_by small large }
{
    if small < large {
        CidKind::Large
    } else {
        CidKind::Small
    }
}

/// How many IRs of a link can be decoded, if its CIDs are of either kind.
#[derive(Clone, Copy, Default)]
pub(crate) struct Evidence {
    pub(crate) small: u64,
    pub(crate) large: u64,
}

impl Evidence {
    /// Takes a packet of the link.
    pub(crate) fn take(&mut self, octets: &[u8]) {
        if ir_cid(CidKind::Small, octets).is_some() {
            self.small = self.small.saturating_add(1);
        }
        if ir_cid(CidKind::Large, octets).is_some() {
            self.large = self.large.saturating_add(1);
        }
    }

    /// The kind of CIDs.
    pub(crate) fn kind(&self) -> CidKind {
        kind_by(self.small, self.large)
    }

    /// Whether no IR can be decoded, so that the kind is a guess.
    pub(crate) fn is_none(&self) -> bool {
        self.small == 0 && self.large == 0
    }
}
