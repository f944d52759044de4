//! What the modes share: the words of the command line, and the text of a file.

use std::io::{Error, ErrorKind, Read};
use std::rt::{Env, Files};
use std::{env, fs, io};

/// The error for words that the program doesn't know, or for a word that is absent.
pub(crate) fn bad_words() -> Error {
    Error::from(ErrorKind::InvalidInput)
}

/// The error for a file whose text isn't what it should be.
pub(crate) fn bad_text() -> Error {
    Error::from(ErrorKind::InvalidData)
}

/// The words of the command line after the program's name.
pub(crate) fn words<R: Env + AllocGlobal>(rt: &R) -> io::Result<Vec<String>> {
    let mut words = Vec::new(rt.alloc());
    for word in env::args(rt)?.skip(1) {
        words.push(word)?;
    }
    Ok(words)
}

/// The word at a place, which must be there.
pub(crate) fn word_at(words: &[String], place: usize) -> io::Result<&str> {
    match words.get(place) {
        Some(word) => Ok(word.as_str()),
        None => Err(bad_words()),
    }
}

/// The number of turns that the word at a place asks for, or the other number if there is no such word or no number.
pub(crate) fn turns_at(words: &[String], place: usize, otherwise: u32) -> u32 {
    match words.get(place) {
        Some(word) => word.parse().unwrap_or(otherwise),
        None => otherwise,
    }
}

/// The text of a file.
pub(crate) fn read_text<R: Files + AllocGlobal>(rt: &R, path: &str) -> io::Result<String> {
    let mut octets = Vec::new(rt.alloc());
    let mut file = fs::open(rt, path)?;
    file.read_to_end(&mut octets)?;
    String::from_utf8(octets).map_err(|_| bad_text())
}
