//! What is wrong, as lines for a reader.

use std::alloc::Global;
use std::io;
use std::io::Write;

/// Lines that say what is wrong.
#[derive(Drop)]
pub(crate) struct Lines {
    text: Vec<u8>,
}

impl Lines {
    /// No lines.
    pub(crate) fn new(alloc: Global) -> Lines {
        Lines {
            text: Vec::new(alloc),
        }
    }

    /// Whether there are none.
    pub(crate) fn is_empty(&self) -> bool {
        self.text.is_empty()
    }

    /// The lines, each with a line feed behind it.
    pub(crate) fn as_str(&self) -> &str {
        std::str::from_utf8(self.text.as_slice()).unwrap_or("")
    }
}

impl Write for Lines {
    fn write(&mut self, octets: &[u8]) -> io::Result<usize> {
        self.text.write(octets)
    }

    fn flush(&mut self) -> io::Result<()> {
        Ok(())
    }
}
