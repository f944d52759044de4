//! Texts of files, and their faults.

use std::io::{Error, ErrorKind, Read};
use std::rt::Files;
use std::{fs, io};

/// The error for a file that doesn't have the text that it should have.
pub(crate) fn bad_text() -> Error {
    Error::from(ErrorKind::InvalidData)
}

/// The text of a file.
pub(crate) fn read_text<R: Files + AllocGlobal>(rt: &R, path: &str) -> io::Result<String> {
    let mut octets = Vec::new(rt.alloc());
    let mut file = fs::open(rt, path)?;
    file.read_to_end(&mut octets)?;
    String::from_utf8(octets).map_err(|_| bad_text())
}
