//! The settings of links, as a caller in C gives them.

ghost use Rattle.std.specs.Prelude.{◌≡◌, ◌≤◌, length, map, All, IfOk};
ghost use Rattle.rohc_c.specs.Settings.{mode_of, size_of, range_of, setting_of, link_settings, HasFewRanges};

use arrayvec::ArrayVec;
use rohc_concentrator::{CidRange, LinkSetting};
use rohc_context::{Mode, Settings};
use rohc_frame::CidKind;
use std::alloc::{AllocError, Global};

/// A range of CIDs with a mode of its own: `struct polorowan_range` of include/polorowan.h.
#[repr(C)]
#[derive(Clone, Copy)]
pub struct RohcRange {
    /// The least CID of the range.
    pub first: u16,
    /// The greatest CID of the range, inclusive.
    pub last: u16,
    /// The mode of these CIDs: O mode, which sends feedback, if true; else U mode.
    pub optimistic: bool,
}

/// The setting of a link: `struct polorowan_link` of include/polorowan.h. Its fields are those of `Settings` and
/// `LinkSetting`.
#[repr(C)]
#[derive(Clone, Copy)]
pub struct RohcLink {
    pub link: u16,
    pub max_cid: u16,
    pub large: bool,
    pub optimistic: bool,
    pub k1: u8,
    pub n1: u8,
    pub k2: u8,
    pub n2: u8,
    /// How many of the ranges are used, at most eight.
    pub range_count: u8,
    pub packet_ms: u32,
    pub static_nack_ms: u32,
    pub idle_ms: u32,
    pub ranges: [RohcRange; 8],
}

/// O mode if the flag is set, else U mode.
fn mode_of(optimistic: bool) -> Mode
    ensures { result ≡ mode_of optimistic }
{
    if optimistic { Mode::O } else { Mode::U }
}

/// Large CIDs if the flag is set, else small ones.
fn size_of(large: bool) -> CidKind
    ensures { result ≡ size_of large }
{
    if large {
        CidKind::Large
    } else {
        CidKind::Small
    }
}

/// A range of CIDs with a mode of its own.
fn range_of(range: &RohcRange) -> CidRange
    ensures { result ≡ range_of range.now }
{
    CidRange {
        first: range.first,
        last: range.last,
        mode: mode_of(range.optimistic),
    }
}

/// The ranges with their modes.
fn ranges_of(ranges: &[RohcRange]) -> ArrayVec<CidRange, 8>
    requires { length ranges.now ≤ 8 }
    ensures { result.items ≡ map range_of ranges.now }
{
    let mut list = ArrayVec::new();
    for range in ranges {
        list.push(range_of(range));
    }
    list
}

/// The setting of a link.
pub(crate) fn setting_of(link: &RohcLink) -> LinkSetting
    requires { HasFewRanges link.now }
    ensures { result ≡ setting_of link.now }
{
    LinkSetting {
        link: link.link,
        settings: Settings {
            size: size_of(link.large),
            max_cid: link.max_cid,
            mode: mode_of(link.optimistic),
            k1: link.k1,
            n1: link.n1,
            k2: link.k2,
            n2: link.n2,
            packet_ms: link.packet_ms,
            static_nack_ms: link.static_nack_ms,
            idle_ms: link.idle_ms,
        },
        ranges: ranges_of(&link.ranges[..usize::from(link.range_count)]),
    }
}

/// The settings of links, in their order.
pub(crate) fn link_settings(
    alloc: Global,
    links: &[RohcLink],
) -> Result<Vec<LinkSetting>, AllocError>
    requires { All HasFewRanges links.now }
    ensures { IfOk result (λ v. v.items ≡ link_settings links.now) }
{
    let mut settings = Vec::new(alloc);
    for link in links {
        settings.push(setting_of(link))?;
    }
    Ok(settings)
}
