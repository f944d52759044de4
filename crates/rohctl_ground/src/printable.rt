//! Words and names as they are printed, so that none puts a control character on a terminal.

use std::alloc::{AllocError, Global};
use std::fmt;

/// A word of the command line or a name of a file. Each control character is shown by its escape.
#[derive(Clone, Copy)]
pub struct Printable<'a>(pub &'a str);

impl fmt::Display for Printable<'_> {
    fn fmt<W: fmt::Write>(&self, f: &mut fmt::Formatter<W>) -> fmt::Result {
        for character in self.0.chars() {
            if character.is_control() {
                write!(f, "{}", character.escape_debug())?;
            } else {
                write!(f, "{character}")?;
            }
        }
        Ok(())
    }
}

/// A word or a name as it is printed.
pub fn printed(alloc: Global, word: &str) -> Result<String, AllocError> {
    format!(in alloc; "{}", Printable(word))
}
