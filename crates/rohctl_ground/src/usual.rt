//! The settings of a link for which none are given.

ghost use Rattle.std.specs.Prelude.{◌≡◌};
ghost use Rattle.rohc_context.specs.Settings.{AreGood};

use rohc_context::{Mode, Settings};
use rohc_frame::CidKind;

/// The settings of a link of this CID kind to start from (docs/OPERATING.md, *Values to start with*). Each CID of its
/// kind may be used.
pub fn usual_settings(size: CidKind) -> Settings
    ensures good { AreGood result }
    ensures size { result.size ≡ size }
{
    Settings {
        size,
        max_cid: size.greatest_cid(),
        mode: Mode::O,
        k1: 2,
        n1: 3,
        k2: 2,
        n2: 3,
        packet_ms: 20,
        static_nack_ms: 1000,
        idle_ms: 600_000,
    }
}
