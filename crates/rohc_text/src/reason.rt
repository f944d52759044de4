//! Why a file, a stream or a socket failed, in the words of whoever can mend it.

ghost use Rattle.std.specs.Prelude.{◌≡◌, ◌↔◌, Some};
ghost use Rattle.std.specs.IoError.{error_kind};
ghost use Rattle.rohc_text.specs.Reason.{reason_of};

use std::io::ErrorKind;
use std::{fmt, io};

/// Why a file, a stream or a socket failed, or what was read of it is refused.
#[derive(Clone, Copy, PartialEq, Eq)]
pub enum Reason {
    /// There is no such file, or a folder of its path is missing.
    Missing,
    Directory,
    /// A part of the path is no folder.
    NotADirectory,
    /// The system doesn't permit it.
    Denied,
    ReadOnly,
    /// The name is longer than the system allows.
    LongName,
    /// The system can't use the path, be it empty.
    Invalid,
    NoSpace,
    /// Another process has the address.
    InUse,
    /// Nothing listens at the address.
    NoListener,
    TimedOut,
    /// The reader of a pipe went away.
    Closed,
    /// There was no memory.
    Memory,
    /// Another error of the system, by its number; 0 if it has none.
    Other(i32),
    /// The text is not UTF-8.
    NotUtf8,
    /// It has more octets than this.
    TooLong(u64),
    /// It was another text when it was read again.
    Changed,
    /// The format can't hold what would be written.
    Beyond,
}

impl Reason {
    /// The reason of an error.
    pub fn of(error: &io::Error) -> Reason
        ensures known { (reason : Reason) → reason_of (error_kind error.now) ≡ Some reason → result ≡ reason }
        ensures closed { (result ≡ Reason.Closed) ↔ (error_kind error.now ≡ ErrorKind.BrokenPipe) }
        ensures memory { (result ≡ Reason.Memory) ↔ (error_kind error.now ≡ ErrorKind.OutOfMemory) }
    {
        match error.kind() {
            ErrorKind::NotFound => Reason::Missing,
            ErrorKind::IsADirectory => Reason::Directory,
            ErrorKind::NotADirectory => Reason::NotADirectory,
            ErrorKind::PermissionDenied => Reason::Denied,
            ErrorKind::ReadOnlyFilesystem => Reason::ReadOnly,
            ErrorKind::InvalidFilename => Reason::LongName,
            ErrorKind::InvalidInput => Reason::Invalid,
            ErrorKind::StorageFull | ErrorKind::QuotaExceeded => Reason::NoSpace,
            ErrorKind::AddrInUse => Reason::InUse,
            ErrorKind::ConnectionRefused => Reason::NoListener,
            ErrorKind::TimedOut | ErrorKind::WouldBlock => Reason::TimedOut,
            ErrorKind::BrokenPipe => Reason::Closed,
            ErrorKind::OutOfMemory => Reason::Memory,
            _ => Reason::Other(error.raw_os_error().unwrap_or(0)),
        }
    }
}

impl fmt::Display for Reason {
    fn fmt<W: fmt::Write>(&self, f: &mut fmt::Formatter<W>) -> fmt::Result {
        match self {
            Reason::Missing => f.write_str("no such file or directory"),
            Reason::Directory => f.write_str("it is a directory"),
            Reason::NotADirectory => f.write_str("a part of the path is not a directory"),
            Reason::Denied => f.write_str("permission denied"),
            Reason::ReadOnly => f.write_str("the file system is read-only"),
            Reason::LongName => f.write_str("the name is too long"),
            Reason::Invalid => f.write_str("invalid argument"),
            Reason::NoSpace => f.write_str("no space left on the device"),
            Reason::InUse => f.write_str("address already in use"),
            Reason::NoListener => f.write_str("nothing listens there"),
            Reason::TimedOut => f.write_str("timed out"),
            Reason::Closed => f.write_str("the reader went away"),
            Reason::Memory => f.write_str("out of memory"),
            Reason::Other(0) => f.write_str("unknown error"),
            Reason::Other(number) => write!(f, "{}", io::Error::from_raw_os_error(*number)),
            Reason::NotUtf8 => f.write_str("it is not UTF-8"),
            Reason::TooLong(octets) => write!(f, "it is longer than {octets} octets"),
            Reason::Beyond => {
                f.write_str(
                    "a packet is too long for a capture, or its time too late (try --pcapng)",
                )
            }
            Reason::Changed => f.write_str("it changed while it was read"),
        }
    }
}
