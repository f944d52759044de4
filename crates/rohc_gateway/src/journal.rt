//! Whether the journal of systemd reads standard error.

use std::os::unix::fs::MetadataExt;
use std::rt::{Env, Files};
use std::{env, fs};

/// Standard error, as a file.
const STANDARD_ERROR: &str = "/proc/self/fd/2";

/// Whether the text is these two numbers, in decimal digits with a colon between them.
fn are_numbers(text: &str, device: u64, number: u64) -> bool {
    match text.split_once(":") {
        Some((first, second)) => {
            first.parse::<u64>() == Ok(device) && second.parse::<u64>() == Ok(number)
        }
        None => false,
    }
}

/// Whether the journal reads standard error: `JOURNAL_STREAM` is its device and inode (systemd.exec(5)).
pub(crate) fn is_journal<R: Env + Files + AllocGlobal>(rt: &R) -> bool {
    match (
        env::var(rt, "JOURNAL_STREAM"),
        fs::metadata(rt, STANDARD_ERROR),
    ) {
        (Ok(stream), Ok(found)) => are_numbers(stream.as_str(), found.dev(), found.ino()),
        _ => false,
    }
}
