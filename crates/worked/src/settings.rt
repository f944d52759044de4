//! Questions on settings, and on texts of links files.

use crate::text::bad_text;
use arrayvec::ArrayVec;
use rohc_concentrator::{CidRange, Concentrator, LinkSetting};
use rohc_context::{Mode, Settings};
use rohc_links::{Links, read_links};
use std::alloc::Global;
use std::io::{self, Write};

/// Writes the fault of a links file with this text.
pub(crate) fn write_links_fault(
    alloc: Global,
    text: &str,
    answers: &mut Vec<u8>,
) -> io::Result<()> {
    match read_links(alloc, text) {
        Ok(_) => writeln!(answers, "no fault"),
        Err(fault) => writeln!(answers, "{fault}"),
    }
}

/// Writes the fault of the settings that these words describe.
pub(crate) fn write_setup_fault(
    alloc: Global,
    links: &Links,
    words: &str,
    answers: &mut Vec<u8>,
) -> io::Result<()> {
    let first = links.settings().first().ok_or(bad_text())?;
    let settings = described(alloc, first, words)?;
    match Concentrator::new(alloc, settings.as_slice()) {
        Ok(_) => writeln!(answers, "no fault"),
        Err(fault) => writeln!(answers, "{fault}"),
    }
}

/// The settings that these words describe. Those of link 1 are given.
fn described(alloc: Global, first: &LinkSetting, words: &str) -> io::Result<Vec<LinkSetting>> {
    let mut entries = Vec::new(alloc);
    match words {
        "no entries" => {}
        "257 entries" => {
            for link in 0..257 {
                entries.push(entry(link, first.settings, &[])?)?;
            }
        }
        "k1 4 with n1 3" => {
            let settings = Settings {
                k1: 4,
                n1: 3,
                ..first.settings
            };
            entries.push(entry(1, settings, &[])?)?;
        }
        "two entries of link 1" => {
            entries.push(entry(1, first.settings, &[])?)?;
            entries.push(entry(1, first.settings, &[])?)?;
        }
        "ranges 4 to 7 and 7 to 9" => {
            entries.push(entry(1, first.settings, &[range(4, 7), range(7, 9)])?)?;
        }
        _ => return Err(bad_text()),
    }
    Ok(entries)
}

/// A range in mode U.
fn range(first: u16, last: u16) -> CidRange {
    CidRange {
        first,
        last,
        mode: Mode::U,
    }
}

/// An entry with these settings and ranges.
fn entry(link: u16, settings: Settings, ranges: &[CidRange]) -> io::Result<LinkSetting> {
    let mut kept = ArrayVec::new();
    kept.try_extend_from_slice(ranges).map_err(|_| bad_text())?;
    Ok(LinkSetting {
        link,
        settings,
        ranges: kept,
    })
}
