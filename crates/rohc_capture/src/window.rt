//! A window onto a reader: octets that were read and not yet passed.

ghost use Rattle.std.specs.Prelude.{◌≡◌, ◌+◌, ◌-◌, ◌≤◌, length, take, vec_len, vec_capacity, IfOk, OnErr};
ghost use Rattle.std.specs.List.{slice_range};
ghost use Rattle.std.specs.Io.KnownBytes.{Keeps, Consumes, IsAtEnd};

use crate::fault::FaultKind;
use std::alloc::{AllocError, Global};
use std::io;
use std::io::{ErrorKind, Read};

/// How many octets are asked for at once.
const PIECE: usize = 131_072;

/// The longest record or block, in octets.
pub(crate) const LONGEST: usize = 1_048_576;

/// Octets that were read and not yet passed, from `start` to `end`, and what they come from.
#[derive(Drop)]
pub(crate) struct Window<R> {
    reader: R,
    octets: Vec<u8>,
    start: usize,
    end: usize,
    place: u64,
    /// Whether the last read gave as many octets as were asked for.
    is_full: bool,
    ghost ordered: { start ≤ end },
    ghost within: { end ≤ vec_len octets },
    ghost room: { 1048576 + 131072 ≤ vec_capacity octets },
}

/// Moves the octets from `start` to `end` to the front, and reads a piece behind them. Returns how many octets it has.
fn refill<R: Read>(reader: &mut R, octets: &mut [u8], start: usize, end: usize) -> io::Result<usize>
    requires ordered { start ≤ end }
    requires within { end ≤ length octets.old }
    requires room { end - start + PIECE ≤ length octets.old }
    ensures few { IfOk result (λ count. count ≤ PIECE) }
    ensures moved { take (end - start) octets.new ≡ slice_range octets.old start end }
    ensures read { IfOk result (λ count. Consumes (R.remaining reader.old) (R.remaining reader.new)
        (slice_range octets.new (end - start) (end - start + count))) }
    ensures at_end { IfOk result (λ count. count ≡ 0 → IsAtEnd (R.remaining reader.new)) }
    ensures fault { OnErr result (Keeps (R.remaining reader.old) (R.remaining reader.new)) }
{
    octets.copy_within(start..end, 0);
    let held = end - start;
    reader.read(&mut octets[held..held + PIECE])
}

impl<R: Read> Window<R> {
    ghost use Rattle.std.specs.Prelude.{◌≡◌, ℕ, ◌+◌, ◌<◌, ◌≤◌, nat_eq, min, length, take, drop, [], true, false, Some, Ok, Err, IfOk, IfErr};
    ghost use Rattle.std.specs.Io.KnownBytes.{Keeps, IsAtEnd};
    ghost use Rattle.rohc_capture.specs.Window.{ahead_of, text_in, StaysKnown, counted};
    ghost use Rattle.rohc_capture.specs.declared.fault.FaultKind.TheVariants as faults;

    /// A window onto a reader, before its first octet. Memory is asked for the longest block and a piece behind it, and used
    /// as blocks need it.
    pub(crate) fn new(alloc: Global, reader: R) -> Result<Window<R>, AllocError>
    where
        R: Drop,
        ensures ahead { IfOk result (λ w. ahead_of w ≡ []) }
        ensures reader { IfOk result (λ w. w.reader ≡ reader) }
        ensures place { IfOk result (λ w. w.place ≡ 0) }
    {
        Ok(Window {
            reader,
            octets: Vec::with_capacity(alloc, LONGEST + PIECE)?,
            start: 0,
            end: 0,
            place: 0,
            is_full: false,
        })
    }

    /// How many octets were passed.
    pub(crate) fn place(&self) -> u64
        ensures { result ≡ self.now.place }
    {
        self.place
    }

    /// Whether the last read gave as many octets as were asked for.
    pub(crate) fn is_full(&self) -> bool
        ensures { result ≡ self.now.is_full }
    {
        self.is_full
    }

    /// The octets that were read and not yet passed.
    pub(crate) fn ahead(&self) -> &[u8]
        ensures { result.now ≡ ahead_of self.now }
    {
        &self.octets[self.start..self.end]
    }

    /// Makes the octets at least so many.
    fn make_room(&mut self, count: usize)
        requires { count ≤ LONGEST + PIECE }
        ensures room { count ≤ vec_len self.new.octets }
        ensures ahead { ahead_of self.new ≡ ahead_of self.old }
        ensures start { self.new.start ≡ self.old.start }
        ensures end { self.new.end ≡ self.old.end }
        ensures reader { self.new.reader ≡ self.old.reader }
        ensures place { self.new.place ≡ self.old.place }
    {
        if self.octets.len() >= count {
            return;
        }
        let Ok(()) = self.octets.resize(count, 0) else {
            unreachable!();
        };
    }

    /// Reads some octets more, and returns whether there may be more still.
    fn more(&mut self) -> Result<bool, FaultKind>
        requires { length (ahead_of self.old) ≤ LONGEST }
        ensures text { Keeps (text_in R.remaining self.old) (text_in R.remaining self.new) }
        ensures place { self.new.place ≡ self.old.place }
        ensures at_end { IfOk result (λ more. more ≡ false → (ahead_of self.new ≡ ahead_of self.old) × IsAtEnd (R.remaining self.new.reader)) }
        ensures fault { IfErr result (λ kind. kind ≡ faults.Read) }
        ensures full { self.new.is_full ≡ nat_eq (length (ahead_of self.new)) (length (ahead_of self.old) + PIECE) }
    {
        let held = self.end - self.start;
        self.make_room(held + PIECE);
        let read = refill(
            &mut self.reader,
            self.octets.as_mut_slice(),
            self.start,
            self.end,
        );
        self.start = 0;
        self.end = held;
        self.is_full = false;
        match read {
            Ok(count) => {
                self.end = held + count;
                self.is_full = count == PIECE;
                Ok(0 < count)
            }
            Err(e) if e.kind() == ErrorKind::Interrupted => Ok(true),
            Err(_) => Err(FaultKind::Read),
        }
    }

    /// Sees to it that at least `count` octets are ahead, and returns whether there are so many.
    #[inline(always)]
    pub(crate) fn need(&mut self, count: usize) -> Result<bool, FaultKind>
        requires { count ≤ LONGEST }
        ensures text { Keeps (text_in R.remaining self.old) (text_in R.remaining self.new) }
        ensures place { self.new.place ≡ self.old.place }
        ensures known { StaysKnown (R.remaining self.old.reader) (R.remaining self.new.reader) }
        ensures enough { IfOk result (λ enough. enough ≡ true → count ≤ length (ahead_of self.new)) }
        ensures few { IfOk result (λ enough. enough ≡ false → (length (ahead_of self.new) < count) × IsAtEnd (R.remaining self.new.reader)) }
        ensures fault { IfErr result (λ kind. kind ≡ faults.Read) }
    {
        if count <= self.end - self.start {
            return Ok(true);
        }
        self.read_until(count)
    }

    /// Reads until at least `count` octets are ahead, and returns whether there are so many.
    #[cold]
    #[inline(never)]
    fn read_until(&mut self, count: usize) -> Result<bool, FaultKind>
        requires { count ≤ LONGEST }
        ensures text { Keeps (text_in R.remaining self.old) (text_in R.remaining self.new) }
        ensures place { self.new.place ≡ self.old.place }
        ensures known { StaysKnown (R.remaining self.old.reader) (R.remaining self.new.reader) }
        ensures enough { IfOk result (λ enough. enough ≡ true → count ≤ length (ahead_of self.new)) }
        ensures few { IfOk result (λ enough. enough ≡ false → (length (ahead_of self.new) < count) × IsAtEnd (R.remaining self.new.reader)) }
        ensures fault { IfErr result (λ kind. kind ≡ faults.Read) }
    {
        for _ in 0..u64::MAX {
            if count <= self.end - self.start {
                return Ok(true);
            }
            if !self.more()? {
                return Ok(false);
            }
        }
        Err(FaultKind::Read)
    }

    /// Passes `count` octets, or all that are ahead if they are fewer. Returns how many.
    #[inline(always)]
    pub(crate) fn pass(&mut self, count: usize) -> usize
        ensures passed { result ≡ min count (length (ahead_of self.old)) }
        ensures ahead { ahead_of self.new ≡ drop count (ahead_of self.old) }
        ensures reader { self.new.reader ≡ self.old.reader }
        ensures place { self.new.place ≡ counted self.old.place result }
    {
        let ahead = self.end - self.start;
        let passed = if count < ahead { count } else { ahead };
        self.start += passed;
        self.place = self.place.saturating_add(passed as u64);
        passed
    }
}
