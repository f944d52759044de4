//! Octets on their way to a writer, hashed and counted.

ghost use Rattle.std.specs.Prelude.{◌≤◌, length, take};
ghost use Rattle.std.specs.Io.KnownBytes.{Appends};

use sha2::{Digest, Sha256};
use std::io::Write;

/// Writes a text by single calls, until one fails or takes no octets. Returns how many octets were taken.
fn give<W: Write>(writer: &mut W, text: &[u8]) -> usize
    ensures within { result ≤ length text.now }
    ensures taken { Appends (W.contents writer.old) (W.contents writer.new) (take result text.now) }
{
    let mut at = 0;
    while at < text.len() {
        match writer.write(&text[at..]) {
            Ok(0) | Err(_) => return at,
            Ok(count) => at += count,
        }
    }
    at
}

/// What was put out so far. After a write that failed nothing more is written.
#[derive(Drop)]
pub(crate) struct Output {
    /// The digest of the octets so far.
    hasher: Sha256,
    /// How many octets the writer took, up to the greatest `u64`.
    written: u64,
    /// Whether a write failed.
    stopped: bool,
}

impl Output {
    ghost use Rattle.std.specs.Prelude.{◌≡◌, ℕ, List, [], ◌++◌, Option, IfOk, IfErr};
    ghost use Rattle.rohc_saved.specs.Form.{signed};
    ghost use Rattle.rohc_saved.specs.Output.{IsTaken, IsPut, IsWhole, IsPartWritten};

    /// Nothing was put out.
    pub(crate) fn new() -> Self
        ensures { (held : Option (List ℕ)) → IsPut held held [] result }
    {
        Output {
            hasher: Sha256::new(),
            written: 0,
            stopped: false,
        }
    }

    /// Writes more octets, unless a write failed before.
    fn write<W: Write>(&mut self, writer: &mut W, part: &[u8])
        ensures taken { (held : Option (List ℕ)) (text : List ℕ) →
            IsTaken self.old.stopped held (W.contents writer.old) text self.old.written →
            IsTaken self.new.stopped held (W.contents writer.new) (text ++ part.now) self.new.written }
        ensures hasher { self.new.hasher ≡ self.old.hasher }
    {
        if self.stopped {
            return;
        }
        let count = give(writer, part);
        self.written = self.written.saturating_add(count as u64);
        self.stopped = count < part.len();
    }

    /// Puts out more octets.
    pub(crate) fn put<W: Write>(&mut self, writer: &mut W, part: &[u8])
        ensures { (held : Option (List ℕ)) (text : List ℕ) → IsPut held (W.contents writer.old) text self.old →
            IsPut held (W.contents writer.new) (text ++ part.now) self.new }
    {
        self.write(writer, part);
        self.hasher.update(part);
    }

    /// Puts out the digest of all before it, and ends. Returns how many octets were written; the error is how many were
    /// before a write or the flush failed.
    pub(crate) fn finish<W: Write>(mut self, writer: &mut W) -> Result<u64, u64>
        ensures whole { IfOk result (λ written. (held : Option (List ℕ)) (text : List ℕ) →
            IsPut held (W.contents writer.old) text self →
            IsWhole held (W.contents writer.new) (signed text) written) }
        ensures fault { IfErr result (λ written. (held : Option (List ℕ)) (text : List ℕ) →
            IsPut held (W.contents writer.old) text self →
            IsPartWritten held (W.contents writer.new) (signed text) written) }
    {
        let digest = self.hasher.finalize_reset();
        self.write(writer, &digest);
        if self.stopped {
            return Err(self.written);
        }
        match writer.flush() {
            Ok(()) => Ok(self.written),
            Err(_) => Err(self.written),
        }
    }
}
