//! What is read and written by name: files, and standard input and output for `-`.

ghost use Rattle.std.specs.Prelude.{◌≡◌};
ghost use Rattle.rohctl_ground.specs.Magic.{is_magic, begins_capture};
ghost use Rattle.rohctl_ground.specs.Streams.{source_remaining, target_contents};

use crate::ending::{Ending, STREAM, unread, unwritten};
use crate::progress::Progress;
use rohc_text::Reason;
use std::io::{BufWriter, Printer, Read, Write};
use std::rt::Files;
use std::time::Clock;
use std::{fs, io};

/// What the standard streams are.
#[derive(Clone, Copy, PartialEq, Eq)]
pub struct Screen {
    /// Whether standard input is a terminal.
    pub input: bool,
    /// Whether standard output is a terminal.
    pub output: bool,
    /// Whether it takes colours.
    pub colour: bool,
    /// Whether standard error is a terminal.
    pub error: bool,
}

/// A file or standard input.
#[derive(Drop)]
pub enum Source<F, I> {
    /// A file.
    File(F),
    /// Standard input.
    Input(I),
}

impl<F: Read, I: Read> Read for Source<F, I> {
    ghost remaining = { source_remaining F.remaining I.remaining };

    fn read(&mut self, buf: &mut [u8]) -> io::Result<usize> {
        match self {
            Source::File(file) => file.read(buf),
            Source::Input(input) => input.read(buf),
        }
    }
}

/// A writer that keeps the reason for which its last write failed.
#[derive(Drop)]
pub struct Noting<W> {
    writer: W,
    reason: Option<Reason>,
}

impl<W> Noting<W> {
    /// Nothing has failed yet.
    fn new(writer: W) -> Self {
        Noting {
            writer,
            reason: None,
        }
    }
}

impl<W: Write> Write for Noting<W> {
    ghost contents = { λ noting. W.contents noting.writer };

    fn write(&mut self, buf: &[u8]) -> io::Result<usize> {
        let written = self.writer.write(buf);
        self.reason = match &written {
            Ok(_) => None,
            Err(error) => Some(Reason::of(error)),
        };
        written
    }

    fn flush(&mut self) -> io::Result<()> {
        self.writer.flush()
    }
}

/// A file, standard output, or nothing.
#[derive(Drop)]
pub enum Target<F: Write + Drop, P: Write + Drop> {
    /// A file.
    File(BufWriter<Noting<F>>),
    /// Standard output.
    Output(BufWriter<Noting<P>>),
    /// What is written is dropped.
    Nothing,
}

impl<F: Write + Drop, P: Write + Drop> Write for Target<F, P> {
    ghost contents = { target_contents F.contents P.contents };

    fn write(&mut self, buf: &[u8]) -> io::Result<usize> {
        match self {
            Target::File(file) => file.write(buf),
            Target::Output(output) => output.write(buf),
            Target::Nothing => Ok(buf.len()),
        }
    }

    fn flush(&mut self) -> io::Result<()> {
        match self {
            Target::File(file) => file.flush(),
            Target::Output(output) => output.flush(),
            Target::Nothing => Ok(()),
        }
    }
}

impl<F: Write + Drop, P: Write + Drop> Target<F, P> {
    /// The reason for which the last write failed, if it did.
    fn reason(&self) -> Option<Reason> {
        match self {
            Target::File(file) => file.get_ref().reason,
            Target::Output(output) => output.get_ref().reason,
            Target::Nothing => None,
        }
    }

    /// Whether the last write failed.
    pub fn has_failed(&self) -> bool {
        self.reason().is_some()
    }

    /// The ending for a write to this path that failed.
    pub fn unwritten<'a>(&self, path: &'a str) -> Ending<'a> {
        unwritten(path, self.reason().unwrap_or(Reason::Beyond))
    }
}

/// Opens a file that is no directory.
pub fn open_file<'a, R: Files>(rt: &R, path: &'a str) -> Result<R::File, Ending<'a>> {
    if let Ok(data) = fs::metadata(rt, path)
        && data.is_dir()
    {
        return Err(Ending::Read(path, Reason::Directory));
    }
    fs::open(rt, path).map_err(|error| unread(path, Reason::of(&error)))
}

/// Opens a file to be read; `-` is standard input.
pub fn open_source<'a, R: Files + Input>(
    rt: &R,
    path: &'a str,
) -> Result<Source<R::File, R::Reader>, Ending<'a>> {
    if path == STREAM {
        return Ok(Source::Input(rt.reader()));
    }
    Ok(Source::File(open_file(rt, path)?))
}

/// How many octets are kept before they are written.
const ROOM: usize = 131_072;

/// A file that is written, or standard output.
pub type Written<'a, R> = Target<<R as Files>::File, Printer<'a, R>>;

/// Makes a file to be written, empty if it is there; `-` is standard output.
pub fn make_target<'a, 'p, R: Files + Print + AllocGlobal>(
    rt: &'a R,
    path: &'p str,
) -> Result<Written<'a, R>, Ending<'p>> {
    if path == STREAM {
        let printer = Noting::new(io::writer(rt));
        return match BufWriter::with_capacity(rt.alloc(), ROOM, printer) {
            Ok(output) => Ok(Target::Output(output)),
            Err(_) => Err(Ending::Memory),
        };
    }
    let file = fs::create(rt, path).map_err(|error| unwritten(path, Reason::of(&error)))?;
    match BufWriter::with_capacity(rt.alloc(), ROOM, Noting::new(file)) {
        Ok(file) => Ok(Target::File(file)),
        Err(_) => Err(Ending::Memory),
    }
}

/// A file to be written, if one is asked for.
pub fn target_of<'a, 'p, R: Files + Print + AllocGlobal>(
    rt: &'a R,
    path: Option<&'p str>,
) -> Result<Written<'a, R>, Ending<'p>> {
    match path {
        Some(path) => make_target(rt, path),
        None => Ok(Target::Nothing),
    }
}

/// How many octets of the front of a source are kept.
const FRONT: usize = 4096;

/// A source whose progress is shown on standard error if that takes longer than a second, in a line that is written over and
/// goes at the end. It keeps its first octets, and the reason for which its last read failed.
#[derive(Drop)]
pub struct Told<'a, R, S> {
    rt: &'a R,
    source: S,
    front: Vec<u8>,
    reason: Option<Reason>,
    /// How far the read is, if that is shown at all.
    progress: Option<Progress>,
}

/// An input that is read by name, with its progress.
pub type Reading<'a, R> = Told<'a, R, Source<<R as Files>::File, <R as Input>::Reader>>;

/// The length of a file, if it is known.
pub fn size_of<R: Files>(rt: &R, path: &str) -> Option<u64> {
    match fs::metadata(rt, path) {
        Ok(data) if data.is_file() => Some(data.len()),
        _ => None,
    }
}

/// The progress of a read that begins now, if it is shown.
fn progress_of<R: Clock>(rt: &R, size: Option<u64>, telling: bool) -> Option<Progress> {
    if !telling {
        return None;
    }
    Some(Progress::new(size, rt.monotonic().ok()?))
}

/// Opens a file to be read; `-` is standard input. `telling` is whether progress is shown: standard error is a terminal.
pub fn open_told<'a, 'p, R>(
    rt: &'a R,
    path: &'p str,
    telling: bool,
) -> Result<Reading<'a, R>, Ending<'p>>
where
    R: Files + Input + Clock + AllocGlobal,
{
    let source = open_source(rt, path)?;
    let size = if path == STREAM {
        None
    } else {
        size_of(rt, path)
    };
    Ok(Told::new(rt, source, size, telling))
}

impl<'a, R: Clock + AllocGlobal, S: Read> Told<'a, R, S> {
    /// Reads from this source, whose length in octets is this one if it is known. `telling` is whether progress is shown.
    pub fn new(rt: &'a R, source: S, size: Option<u64>, telling: bool) -> Self {
        Told {
            rt,
            source,
            front: Vec::new(rt.alloc()),
            reason: None,
            progress: progress_of(rt, size, telling),
        }
    }

    /// Whether the last read failed.
    pub fn has_failed(&self) -> bool {
        self.reason.is_some()
    }

    /// The ending for a read of this path that failed.
    pub fn unread<'p>(&self, path: &'p str) -> Ending<'p> {
        unread(path, self.reason.unwrap_or(Reason::Other(0)))
    }

    /// The first octets that were read, as far as they are kept.
    pub fn front(&self) -> &[u8] {
        self.front.as_slice()
    }

    /// Whether one of the first lines ends with a carriage return.
    pub fn has_carriage(&self) -> bool {
        self.front
            .as_slice()
            .windows(2)
            .any(|pair| pair == b"\r\n".as_slice())
    }
}

/// Keeps what was read of the front of a source, if there is memory for it.
fn keep(front: &mut Vec<u8>, read: &[u8]) {
    let room = FRONT.saturating_sub(front.len());
    let kept = read.get(..room).unwrap_or(read);
    let _ = front.extend_from_slice(kept);
}

/// Whether a capture begins with this number of four octets: pcap in microseconds or in nanoseconds, in either order of
/// octets, or pcapng.
fn is_magic(magic: u32) -> bool
    ensures { result ≡ is_magic magic }
{
    match magic {
        0xa1b2_c3d4 | 0xd4c3_b2a1 => true,
        0xa1b2_3c4d | 0x4d3c_b2a1 => true,
        0x0a0d_0d0a => true,
        _ => false,
    }
}

/// Whether these are the first octets of a capture.
pub fn is_capture_front(octets: &[u8]) -> bool
    ensures { result ≡ begins_capture octets.now }
{
    match octets.first_chunk::<4>() {
        Some(front) => is_magic(u32::from_be_bytes(*front)),
        None => false,
    }
}

/// Shows how far the read of a source with this front is, if that is due, and takes it away at the end.
fn tell<R: Eprint + Clock>(rt: &R, progress: &mut Option<Progress>, front: &[u8], read: &[u8]) {
    let Some(progress) = progress else {
        return;
    };
    if read.is_empty() {
        if progress.was_shown() {
            let _ = eprint!(rt; "\r\x1b[K");
        }
        return;
    }
    if is_capture_front(front) {
        progress.without_lines();
    }
    if let Ok(now) = rt.monotonic()
        && progress.take(read, now)
    {
        let _ = eprint!(rt; "\r{progress}\x1b[K");
    }
}

impl<R: Eprint + Clock + AllocGlobal, S: Read> Read for Told<'_, R, S> {
    ghost remaining = { λ told. S.remaining told.source };

    fn read(&mut self, buf: &mut [u8]) -> io::Result<usize> {
        let count = match self.source.read(buf) {
            Ok(read) => read,
            Err(error) => {
                self.reason = Some(Reason::of(&error));
                return Err(error);
            }
        };
        let read = buf.get(..count).unwrap_or(&[]);
        keep(&mut self.front, read);
        tell(self.rt, &mut self.progress, self.front.as_slice(), read);
        Ok(count)
    }
}
