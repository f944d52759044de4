//! A reader over octets.

use std::io;
use std::io::Read;

/// The octets that are still to be read.
#[derive(Drop)]
pub(crate) struct Source<'a> {
    pub rest: &'a [u8],
}

impl Read for Source<'_> {
    ghost use Rattle.std.specs.Prelude.{Some};

    ghost remaining = { λ s. Some s.rest.now };

    fn read(&mut self, buf: &mut [u8]) -> io::Result<usize> {
        let count = if buf.len() < self.rest.len() {
            buf.len()
        } else {
            self.rest.len()
        };
        let (front, rest) = self.rest.split_at(count);
        buf[..count].copy_from_slice(front);
        self.rest = rest;
        Ok(count)
    }
}
