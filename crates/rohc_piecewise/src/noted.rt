//! What is noted of a link when a save begins.

ghost use Rattle.std.specs.Prelude.{◌≤◌};

use rohc_concentrator::LinkRecords;
use rohc_frame::CidKind;

/// What is noted of a link when a save begins.
#[derive(Clone, Copy)]
pub(crate) struct Noted {
    /// The link's number.
    pub(crate) number: u16,
    /// Whether its CIDs are small or large.
    pub(crate) size: CidKind,
    /// Its greatest CID.
    pub(crate) greatest: u16,
    ghost low: { greatest ≤ 16383 },
}

impl Noted {
    ghost use Rattle.std.specs.Prelude.{◌≡◌};
    ghost use Rattle.rohc_piecewise.specs.Piecewise.{head_of};
    ghost use Rattle.rohc_piecewise.specs.Noted.{head_in};

    /// What is noted of the link of these records.
    pub(crate) fn of(records: &LinkRecords) -> Noted
        ensures { head_in result ≡ head_of records.now.setting }
    {
        Noted {
            number: records.setting.link,
            size: records.setting.settings.size,
            greatest: records.setting.settings.max_cid,
        }
    }
}
