//! One of the two texts, as it is read.

use crate::reading::DiffFault;
use rohc_links::zeros;
use std::alloc::{AllocError, Global};
use std::io::Read;

/// The longest line that is kept, in octets. Of a longer one the front is compared.
const LONGEST_LINE: usize = 131_200;

/// How many octets are asked for at once.
const PIECE: usize = 65_536;

/// So many octets of a line count as its end.
const LONGEST: u64 = 1 << 40;

/// One of the two texts.
#[derive(Drop)]
pub(crate) struct Half {
    buffer: Vec<u8>,
    /// The octets of the buffer that are still to be read.
    start: usize,
    end: usize,
    /// Whether the text has ended.
    pub(crate) ended: bool,
}

impl Half {
    /// A text of which nothing was read.
    pub(crate) fn new(alloc: Global) -> Result<Self, AllocError> {
        Ok(Half {
            buffer: zeros(alloc, PIECE)?,
            start: 0,
            end: 0,
            ended: false,
        })
    }

    /// The next octet, if there is one.
    fn next_octet<R: Read>(&mut self, reader: &mut R) -> Result<Option<u8>, DiffFault> {
        if self.start >= self.end {
            match reader.read(self.buffer.as_mut_slice()) {
                Ok(count) => {
                    self.start = 0;
                    self.end = count;
                }
                Err(_) => return Err(DiffFault::Read),
            }
        }
        if self.start >= self.end {
            self.ended = true;
            return Ok(None);
        }
        match self.buffer.get(self.start) {
            Some(octet) => {
                let octet = *octet;
                self.start = self.start.saturating_add(1);
                Ok(Some(octet))
            }
            None => Ok(None),
        }
    }

    /// Reads the next line without its newline, if there is one.
    pub(crate) fn next_line<R: Read>(
        &mut self,
        alloc: Global,
        reader: &mut R,
    ) -> Result<Option<Vec<u8>>, DiffFault> {
        let mut line = Vec::new(alloc);
        for _ in 0..LONGEST {
            match self.next_octet(reader)? {
                Some(b'\n') => return Ok(Some(line)),
                Some(octet) if line.len() < LONGEST_LINE => {
                    if line.push(octet).is_err() {
                        return Err(DiffFault::NoMemory);
                    }
                }
                Some(_) => {}
                None => break,
            }
        }
        if line.is_empty() {
            Ok(None)
        } else {
            Ok(Some(line))
        }
    }
}
