//! What a program was built from, as the file of its package says.

use std::fmt;

/// What stands in place of a digest that no file gives.
const UNKNOWN: &str = "unknown";

/// The most digits of a digest.
const MOST_DIGITS: usize = 64;

/// Digests in hexadecimal digits, or `unknown`.
#[derive(Clone, Copy)]
pub struct Build<'a> {
    /// Of the sources (bin/sources digest).
    pub sources: &'a str,
    /// Of the logic of the toolchain that proved them (rt version).
    pub logic: &'a str,
}

/// Whether a text is a digest.
fn is_digest(text: &str) -> bool {
    !text.is_empty()
        && text.len() <= MOST_DIGITS
        && text.bytes().all(|octet| octet.is_ascii_hexdigit())
}

/// The digest of this name: behind it on a line.
fn digest_of<'a>(text: &'a str, name: &str) -> &'a str {
    for line in text.lines() {
        if let Some((front, digest)) = line.split_once(" ")
            && front == name
            && is_digest(digest)
        {
            return digest;
        }
    }
    UNKNOWN
}

impl<'a> Build<'a> {
    /// What the text of a package's file says, whose lines are a name and its digest.
    pub fn of(text: &'a str) -> Build<'a> {
        Build {
            sources: digest_of(text, "sources"),
            logic: digest_of(text, "logic"),
        }
    }
}

impl fmt::Display for Build<'_> {
    fn fmt<W: fmt::Write>(&self, f: &mut fmt::Formatter<W>) -> fmt::Result {
        write!(f, "sources {}, logic {}", self.sources, self.logic)
    }
}
