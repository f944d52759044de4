//! The log: lines on standard error.

use crate::civil::civil_at;
use crate::line::Line;
use libc::net::{POLLOUT, poll};
use libc::types::pollfd;
use rohc_disk::milliseconds;
use std::cell::Cell;
use std::io::Write;
use std::time::{Clock, SystemTime, UNIX_EPOCH};
use std::{fmt, io};

/// How much a line matters.
#[derive(Clone, Copy)]
pub enum Level {
    /// Something failed.
    Error,
    /// Something was refused.
    Warning,
    /// Something began or ended as asked.
    Info,
    /// A packet of a watched call.
    Debug,
}

impl Level {
    ghost use Rattle.std.specs.Prelude.{◌≡◌};
    ghost use Rattle.rohc_gateway_file.specs.Log.{number_of, name_of};

    /// The number that the journal knows (sd-daemon(3)).
    pub fn number(&self) -> u8
        ensures { result ≡ number_of self.now }
    {
        match self {
            Level::Error => 3,
            Level::Warning => 4,
            Level::Info => 6,
            Level::Debug => 7,
        }
    }

    /// The name in a line of JSON.
    pub fn name(&self) -> &'static str
        ensures { result.now ≡ name_of self.now }
    {
        match self {
            Level::Error => "error",
            Level::Warning => "warning",
            Level::Info => "info",
            Level::Debug => "debug",
        }
    }
}

/// The format of log lines.
#[derive(Clone, Copy, PartialEq, Eq)]
pub enum LogFormat {
    /// Text.
    Text,
    /// One JSON object per line.
    Json,
}

/// The names of the formats.
pub(crate) const FORMATS: [&str; 2] = ["text", "json"];

impl LogFormat {
    ghost use Rattle.std.specs.Prelude.{◌≡◌};
    ghost use Rattle.rohc_gateway_file.specs.Log.{format_of};

    /// The format of this name.
    pub fn of(name: &str) -> Option<LogFormat>
        ensures { result ≡ format_of name.now }
    {
        if name == "text" {
            Some(LogFormat::Text)
        } else if name == "json" {
            Some(LogFormat::Json)
        } else {
            None
        }
    }
}

/// Standard error.
const STANDARD_ERROR: i32 = 2;

/// Lines that were lost, since their reader didn't take them.
#[derive(Drop)]
pub struct LostLines {
    all: Cell<u64>,
    /// Those that the log doesn't tell of yet.
    untold: Cell<u64>,
}

impl LostLines {
    /// None.
    pub fn new() -> LostLines {
        LostLines {
            all: Cell::new(0),
            untold: Cell::new(0),
        }
    }

    /// How many there are. The count stays at the greatest `u64`.
    pub fn count(&self) -> u64 {
        self.all.get()
    }

    /// Counts one more.
    fn add(&self) {
        self.all.set(self.all.get().saturating_add(1));
        self.untold.set(self.untold.get().saturating_add(1));
    }
}

/// How log lines are written.
#[derive(Clone, Copy)]
pub struct Log<'a> {
    /// Whether the journal reads standard error. Then a line of text begins with its level, otherwise with the date.
    pub is_journal: bool,
    /// The format of each line.
    pub format: LogFormat,
    /// The lines that were lost.
    pub lost: &'a LostLines,
}

/// Whether standard error takes a line of at most 4,096 octets (PIPE_BUF, pipe(7)) at once.
fn is_taken() -> bool {
    let mut asked = [pollfd {
        fd: STANDARD_ERROR,
        events: POLLOUT,
        revents: 0,
    }];
    poll(&mut asked, 0) > 0
}

/// The system's clock; 1970 if it can't be read.
fn date<R: Clock>(rt: &R) -> SystemTime {
    SystemTime::now(rt).unwrap_or(UNIX_EPOCH)
}

/// A text as an object.
fn object_of<D: fmt::Display>(moment: u64, level: Level, text: &D) -> io::Result<Line> {
    let mut shown = Line::new();
    write!(shown, "{text}")?;
    let mut line = Line::new();
    let (time, level) = (civil_at(moment), level.name());
    write!(
        line,
        "{{\"time\":\"{time}\",\"level\":\"{level}\",\"text\":"
    )?;
    line.write_json(shown.as_str())?;
    write!(line, "}}")?;
    Ok(line)
}

impl Log<'_> {
    /// The line of a text.
    fn line_of<D: fmt::Display>(&self, moment: u64, level: Level, text: &D) -> io::Result<Line> {
        if self.format == LogFormat::Json {
            return object_of(moment, level, text);
        }
        let mut line = Line::new();
        if self.is_journal {
            write!(line, "<{}>rohc-gateway: {text}", level.number())?;
        } else {
            write!(line, "{} rohc-gateway: {text}", civil_at(moment))?;
        }
        Ok(line)
    }

    /// Writes a line. What is longer than a pipe accepts at once is cut.
    fn write<R: Clock + Eprint, D: fmt::Display>(
        &self,
        rt: &R,
        level: Level,
        text: &D,
    ) -> io::Result<()> {
        let line = self.line_of(milliseconds(date(rt)), level, text)?;
        eprintln!(rt; "{}", line.as_str())
    }

    /// Writes how many lines were lost since the log told of some last.
    fn tell_lost<R: Clock + Eprint + AllocGlobal>(&self, rt: &R) {
        let lost = self.lost.untold.replace(0);
        if lost > 0 {
            let text = format_args!("{lost} log lines are lost, since nothing read them");
            let _ = self.write(rt, Level::Warning, &text);
        }
    }

    /// Writes a line. One that standard error doesn't take at once is lost, and counted: nothing waits for who reads it.
    pub fn say<R: Clock + Eprint + AllocGlobal, D: fmt::Display + Drop>(
        &self,
        rt: &R,
        level: Level,
        text: D,
    ) {
        if !is_taken() {
            return self.lost.add();
        }
        self.tell_lost(rt);
        if self.write(rt, level, &text).is_err() {
            self.lost.add();
        }
    }
}
