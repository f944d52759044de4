//! Lines that wait for a reader who may be slow. Nobody waits for the reader: a line that has no room is left out, and
//! counted.

use circular_buffer::HeapCircularBuffer;
use std::alloc::{AllocError, Global};

/// Lines that wait for a reader, in a room that never grows.
#[derive(Drop)]
pub struct Backlog {
    /// The octets that wait.
    octets: HeapCircularBuffer<u8>,
    /// How many lines were left out.
    left_out: u64,
}

impl Backlog {
    ghost use Rattle.std.specs.Prelude.{◌≡◌, [], take, drop, length, min, nat_le, IfOk};
    ghost use Rattle.rohc_station.specs.Stream.{put_items, left_after};

    /// Nothing waits, in room for so many octets. The error is lack of memory.
    pub fn new(alloc: Global, room: usize) -> Result<Backlog, AllocError>
        ensures empty { IfOk result (λ backlog. backlog.octets.items ≡ []) }
        ensures room { IfOk result (λ backlog. backlog.octets.capacity ≡ room) }
        ensures left_out { IfOk result (λ backlog. backlog.left_out ≡ 0) }
    {
        Ok(Backlog {
            octets: HeapCircularBuffer::with_capacity(alloc, room)?,
            left_out: 0,
        })
    }

    /// How many lines were left out.
    pub fn left_out(&self) -> u64
        ensures { result ≡ self.now.left_out }
    {
        self.left_out
    }

    /// Whether nothing waits.
    pub fn is_empty(&self) -> bool
        ensures { result ≡ nat_le (length self.now.octets.items) 0 }
    {
        self.octets.len() == 0
    }

    /// Lets a line wait behind the others, if there is room for all of it. Otherwise it is left out, and counted.
    pub fn put(&mut self, line: &[u8])
        ensures items { self.new.octets.items ≡ put_items line.now self.old.octets.items self.old.octets.capacity }
        ensures left_out { self.new.left_out ≡ left_after line.now self.old.octets.items self.old.octets.capacity self.old.left_out }
        ensures room { self.new.octets.capacity ≡ self.old.octets.capacity }
    {
        if line.len() <= self.octets.capacity() - self.octets.len() {
            self.octets.fill_from_slice(line);
        } else {
            self.left_out = self.left_out.saturating_add(1);
        }
    }

    /// Moves the octets that wait longest into a piece, as many as it holds. Returns how many these are.
    pub fn take(&mut self, piece: &mut [u8]) -> usize
        ensures count { result ≡ min (length piece.old) (length self.old.octets.items) }
        ensures taken { take result piece.new ≡ take result self.old.octets.items }
        ensures rest { self.new.octets.items ≡ drop result self.old.octets.items }
        ensures room { self.new.octets.capacity ≡ self.old.octets.capacity }
        ensures left_out { self.new.left_out ≡ self.old.left_out }
    {
        self.octets.read_into(piece)
    }
}
