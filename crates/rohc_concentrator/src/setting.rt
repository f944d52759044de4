//! The settings of one link, with those of its ranges of CIDs.

use arrayvec::ArrayVec;
use rohc_context::{Mode, Settings};

/// A range of CIDs with a mode of its own.
#[derive(Clone, Copy, Debug, Default, PartialEq, Eq)]
pub struct CidRange {
    /// The first CID of the range.
    pub first: u16,
    /// The last CID of the range, inclusive.
    pub last: u16,
    /// The mode of these CIDs.
    pub mode: Mode,
}

/// The setting of a link.
#[derive(Clone, Drop)]
pub struct LinkSetting {
    /// The link's number.
    pub link: u16,
    /// The settings of all its CIDs, except for the mode of those in a range.
    pub settings: Settings,
    /// The ranges, in ascending order and without overlap.
    pub ranges: ArrayVec<CidRange, 8>,
}

impl LinkSetting {
    ghost use Rattle.std.specs.Prelude.{◌≡◌, ◌↔◌, IsTrue};
    ghost use Rattle.rohc_concentrator.specs.Setting.{settings_of, IsGoodSetting};

    /// The settings for a CID: the link's, with the mode of the range that holds the CID, if one does.
    pub fn settings_of(&self, cid: u16) -> Settings
        ensures { result ≡ settings_of self.now cid }
    {
        let mode = mode_in(self.ranges.as_slice(), cid).unwrap_or(self.settings.mode);
        Settings {
            mode,
            ..self.settings
        }
    }

    /// Whether the settings are within their limits, and the ranges in ascending order, without overlap
    /// and within `max_cid`.
    pub fn is_good(&self) -> bool
        ensures { IsTrue result ↔ IsGoodSetting self.now }
    {
        self.settings.is_good() && are_in_order(self.ranges.as_slice(), self.settings.max_cid)
    }
}

ghost use Rattle.std.specs.Prelude.{◌≡◌};
ghost use Rattle.rohc_concentrator.specs.Setting.{holds, mode_in, are_in_order};

/// Whether the range holds the CID.
fn holds(range: &CidRange, cid: u16) -> bool
    ensures { result ≡ holds cid range.now }
{
    range.first <= cid && cid <= range.last
}

/// The mode of the range that holds the CID, if one does.
fn mode_in(ranges: &[CidRange], cid: u16) -> Option<Mode>
    ensures { result ≡ mode_in cid ranges.now }
{
    for range in ranges {
        if holds(range, cid) {
            return Some(range.mode);
        }
    }
    None
}

/// Whether each range goes from low to high within `max_cid`, and starts above the one before it.
fn are_in_order(ranges: &[CidRange], max_cid: u16) -> bool
    ensures { result ≡ are_in_order 0 max_cid ranges.now }
{
    let mut least = 0u32;
    for range in ranges {
        if u32::from(range.first) < least || range.last < range.first || max_cid < range.last {
            return false;
        }
        least = u32::from(range.last) + 1;
    }
    true
}
