//! Records of a capture that are still to be written.

ghost use Rattle.std.specs.Prelude.{◌≡◌, OnOk};
ghost use Rattle.std.specs.Io.KnownBytes.{append_known, Keeps};

use crate::buffer::Buffer;
use crate::writer::WriteFault;
use std::io::Write;
use std::marker::Model;

/// The octets of a piece: what is written at once. Files take pieces that begin at multiples of it the fastest.
const PIECE: usize = 131_072;

/// The most octets of a batch: a piece, and some records behind it.
pub(crate) const BATCH: usize = 135_168;

/// Records of a capture, one behind the other, that are still to be written. A batch takes a record without a call, whose
/// frame may then stay in registers up to there.
#[derive(Drop)]
pub struct Batch {
    pub(crate) octets: Buffer<BATCH>,
    /// How many octets of the capture stand before it.
    place: usize,
}

impl Model for Batch {
    ghost use Rattle.std.specs.Prelude.{ℕ, List};

    ghost Value = { List ℕ };

    ghost view = { λ b. b.octets };
}

impl Batch {
    ghost use Rattle.std.specs.Prelude.{◌≡◌, ◌<◌, ◌≤◌, [], length, OnOk};
    ghost use Rattle.std.specs.Io.KnownBytes.{append_known, Keeps};

    /// No records, at a place of a capture in octets.
    pub fn new(place: usize) -> Self
        ensures { result ≡ [] }
    {
        Batch {
            octets: Buffer::new(),
            place,
        }
    }

    /// How many octets the next piece has, which ends at a multiple of a piece.
    #[inline(always)]
    fn piece(&self) -> usize
        ensures least { 0 < result }
        ensures most { result ≤ PIECE }
    {
        PIECE - self.place % PIECE
    }

    /// Writes a piece, if there is one. The error is `Failed`, and a part may have been written.
    #[inline(always)]
    pub fn pour_piece<W: Write>(&mut self, writer: &mut W) -> Result<(), WriteFault>
        ensures less { OnOk result (PIECE ≤ length self.old → length self.new < length self.old) }
        ensures kept { OnOk result (Keeps (append_known (W.contents writer.old) self.old) (append_known (W.contents writer.new) self.new)) }
    {
        if self.octets.len() < self.piece() {
            return Ok(());
        }
        self.write_piece(writer)
    }

    /// Writes a piece.
    #[cold]
    #[inline(never)]
    fn write_piece<W: Write>(&mut self, writer: &mut W) -> Result<(), WriteFault>
        ensures less { OnOk result (PIECE ≤ length self.old → length self.new < length self.old) }
        ensures kept { OnOk result (Keeps (append_known (W.contents writer.old) self.old) (append_known (W.contents writer.new) self.new)) }
    {
        let size = self.piece();
        let Some((piece, _)) = self.octets.as_slice().split_at_checked(size) else {
            return Ok(());
        };
        let Ok(()) = writer.write_all(piece) else {
            return Err(WriteFault::Failed);
        };
        self.octets.forget(size);
        self.place = self.place.wrapping_add(size);
        Ok(())
    }

    /// Writes all records. The error is `Failed`, and a part may have been written.
    pub fn pour<W: Write>(&mut self, writer: &mut W) -> Result<(), WriteFault>
        ensures kept { OnOk result (Keeps (append_known (W.contents writer.old) self.old) (W.contents writer.new)) }
        ensures empty { OnOk result (self.new ≡ []) }
    {
        let Ok(()) = writer.write_all(self.octets.as_slice()) else {
            return Err(WriteFault::Failed);
        };
        self.place = self.place.wrapping_add(self.octets.len());
        self.octets.clear();
        Ok(())
    }
}
