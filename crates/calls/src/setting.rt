//! The setting of a link, in words.

use crate::words::{Words, number_in};
use arrayvec::ArrayVec;
use rohc_concentrator::{CidRange, LinkSetting};
use rohc_context::{Mode, Settings};
use rohc_frame::CidKind;

/// The greatest number of ranges of a link.
const RANGES: usize = 8;

/// The setting of the link that is there at first.
pub(crate) fn first_link() -> LinkSetting {
    LinkSetting {
        link: 1,
        settings: Settings {
            size: CidKind::Small,
            max_cid: 15,
            mode: Mode::O,
            k1: 2,
            n1: 3,
            k2: 2,
            n2: 3,
            packet_ms: 20,
            static_nack_ms: 1000,
            idle_ms: 0,
        },
        ranges: ArrayVec::new(),
    }
}

/// The setting that the next words say: the link's number, its settings and its ranges.
pub(crate) fn read_setting(words: &mut Words<'_>) -> Option<LinkSetting> {
    let link = words.short()?;
    let settings = read_settings(words)?;
    let ranges = read_ranges(words)?;
    Some(LinkSetting {
        link,
        settings,
        ranges,
    })
}

/// The settings that the next words say.
fn read_settings(words: &mut Words<'_>) -> Option<Settings> {
    Some(Settings {
        size: size_in(words.text()?)?,
        max_cid: words.short()?,
        mode: mode_in(words.text()?)?,
        k1: words.octet()?,
        n1: words.octet()?,
        k2: words.octet()?,
        n2: words.octet()?,
        packet_ms: words.quad()?,
        static_nack_ms: words.quad()?,
        idle_ms: words.quad()?,
    })
}

/// The ranges that the next words say, one each, up to the greatest number.
fn read_ranges(words: &mut Words<'_>) -> Option<ArrayVec<CidRange, 8>> {
    let mut ranges = ArrayVec::new();
    for _ in 0..RANGES {
        let Some(word) = words.text() else {
            break;
        };
        ranges.try_push(range_in(word)?).ok()?;
    }
    Some(ranges)
}

/// The range that a word is: `FIRST-LAST-MODE`.
fn range_in(word: &str) -> Option<CidRange> {
    let (first, rest) = word.split_once('-')?;
    let (last, mode) = rest.split_once('-')?;
    Some(CidRange {
        first: u16::try_from(number_in(first)?).ok()?,
        last: u16::try_from(number_in(last)?).ok()?,
        mode: mode_in(mode)?,
    })
}

/// The CID kind that a word names.
fn size_in(word: &str) -> Option<CidKind> {
    match word {
        "small" => Some(CidKind::Small),
        "large" => Some(CidKind::Large),
        _ => None,
    }
}

/// The mode that a word names.
fn mode_in(word: &str) -> Option<Mode> {
    match word {
        "U" => Some(Mode::U),
        "O" => Some(Mode::O),
        _ => None,
    }
}
