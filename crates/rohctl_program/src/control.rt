//! What is asked of a running gateway, at its control socket.

ghost use Rattle.std.specs.Prelude.{◌≡◌, ◌≤◌, ◌<◌, ◌+◌, ◌^◌, ◌-◌, ℕ, IfOk, length, min};
ghost use Rattle.rohctl_program.specs.declared.control.Body.{Body};

use rohc_text::Reason;
use rohctl_answers::clear;
use rohctl_ground::{Ending, Printable, Screen, shown_word, unprinted};
use std::alloc::Global;
use std::io::{self, Read, Write};
use std::net::Net;
use std::os::unix::fs::FileTypeExt;
use std::os::unix::net::UnixStream;
use std::rt::Files;
use std::time::{Clock, Duration};
use std::{fmt, fs, thread};

/// How long an answer may take, in seconds.
const WAIT_SECONDS: u64 = 60;

/// How many octets are read at once.
const PIECE: usize = 4096;

/// The longest head of an answer, in octets.
const LONGEST_HEAD: usize = 8192;

/// The longest path of a socket, in octets.
const LONGEST_PATH: usize = 107;

/// The longest answer that is held, in octets: a state file, as rohc-gateway has it, and its head.
const LONGEST_STATE: u64 = 1_073_741_824 + 8192;

/// How often `top` is redrawn on a terminal, in seconds.
const REDRAW_SECONDS: u64 = 2;

/// What is expected if an answer ends early, and what to do.
const KEEPS_RUNNING: &str =
    "expected a gateway that keeps running (systemctl status rohc-gateway@NAME)";

/// How an answer begins.
const ANSWER: &[u8] = b"HTTP/1.1 ";

/// Why a gateway didn't answer.
#[derive(Clone, Copy)]
enum Fault {
    /// The path of the socket has too many octets.
    LongPath,
    /// A directory is at the path.
    Directory,
    /// Something else that is no socket is at the path.
    NoSocket,
    /// The socket can't be reached, or fails.
    Socket(io::Error),
    /// What listens there is no gateway, or ended within the head of its answer.
    NoAnswer,
    /// The connection ended after this many octets of a body that has more.
    Cut { read: u64, size: u64 },
    /// Standard output failed.
    Output(io::Error),
    /// There is no memory.
    Memory,
}

impl fmt::Display for Fault {
    fn fmt<W: fmt::Write>(&self, f: &mut fmt::Formatter<W>) -> fmt::Result {
        match self {
            Fault::LongPath => write!(
                f,
                "the path is too long for a socket; expected at most {LONGEST_PATH} octets (give a shorter or a relative path)"
            ),
            Fault::Directory => {
                let reason = Reason::Directory;
                write!(f, "{reason}; expected the control socket in it")
            }
            Fault::NoSocket => f.write_str(
                "it is not a socket; expected the path that the gateway file sets as control",
            ),
            Fault::Socket(error) => {
                let reason = Reason::of(error);
                let hint = hint_for(reason);
                write!(f, "{reason}; {hint}")
            }
            Fault::NoAnswer => f.write_str(
                "no complete answer; expected the control socket of a running rohc-gateway",
            ),
            Fault::Cut { read, size } => write!(
                f,
                "the answer ended after {read} of {size} octets; {KEEPS_RUNNING}"
            ),
            Fault::Output(_) | Fault::Memory => Ok(()),
        }
    }
}

/// What to do if a control socket can't be reached.
fn hint_for(reason: Reason) -> &'static str {
    match reason {
        Reason::Missing => {
            "expected the control socket of a running gateway (systemctl status rohc-gateway@NAME)"
        }
        Reason::NoListener => {
            "the gateway that made this socket has ended (systemctl start rohc-gateway@NAME)"
        }
        Reason::Denied => "expected the gateway's user or root (sudo -u USER rohctl ..)",
        Reason::TimedOut => "the gateway is too busy or was stopped (try again)",
        _ => "expected the control socket of a running gateway",
    }
}

impl Fault {
    /// How the program ends by it. What is wrong at the socket is printed.
    fn ending<R: Eprint>(&self, rt: &R, control: &str) -> Ending<'static> {
        match self {
            Fault::Output(error) => unprinted(error),
            Fault::Memory => Ending::Memory,
            _ => {
                let control = Printable(shown_word(control));
                let _ = eprintln!(rt; "rohctl: {control}: {self}");
                Ending::NoGateway
            }
        }
    }
}

/// What is asked of a gateway.
#[derive(Clone, Copy, PartialEq, Eq)]
pub(crate) enum Wish {
    /// Show what it is doing.
    Status,
    /// Save all contexts, and end.
    Stop,
    /// Save all contexts.
    Save,
    /// Read the links file again, or show what that would do.
    Reload { dry_run: bool },
    /// Accept no new call.
    Drain,
    /// Accept new calls again.
    Resume,
    /// Forget the contexts of a link, or the one of a CID.
    Reset { link: u16, cid: Option<u16> },
    /// Show each packet of a call until the program is interrupted.
    Watch { link: u16, cid: u16 },
    /// Hold the datagrams of a link, or hold them no longer.
    Hold { link: u16, off: bool },
    /// Give what is saved of a link and accept no datagram of it, or accept them again.
    Export { link: u16, off: bool },
    /// Continue the calls of a link from a body of so many octets.
    Import { link: u16, size: usize },
    /// List the contexts of a link.
    Contexts { link: u16 },
    /// List the calls of one link or of all, the longest silent first: as a table, or as JSON.
    Calls { link: Option<u16>, json: bool },
    /// Show the links and the worst calls, on a terminal again and again.
    Top,
    /// Give the contexts as they are saved.
    State,
    /// Say where the newest save is, and where its copy belongs.
    Keep,
    /// Note that a copy was made, or that one failed.
    Kept { is_made: bool },
    /// Give the contexts, and then the packets that arrive in so many seconds.
    Record { link: Option<u16>, seconds: u16 },
}

/// Writes the method and the path of a request for calls.
fn write_calls_path<W: Write>(out: &mut W, link: Option<u16>, json: bool) -> io::Result<()> {
    match (link, json) {
        (None, true) => out.write_all(b"GET /calls"),
        (None, false) => out.write_all(b"GET /calls?as=text"),
        (Some(link), true) => write!(out, "GET /calls?link={link}"),
        (Some(link), false) => write!(out, "GET /calls?link={link}&as=text"),
    }
}

/// Writes the method and the path of a request that moves a link.
fn write_moving<W: Write>(out: &mut W, word: &str, link: u16, off: bool) -> io::Result<()> {
    let behind = if off { "&off" } else { "" };
    write!(out, "POST /{word}?link={link}{behind}")
}

impl Wish {
    /// Writes the method and the path of the request.
    fn write_path<W: Write>(self, out: &mut W) -> io::Result<()> {
        match self {
            Wish::Status => out.write_all(b"GET /status"),
            Wish::Stop => out.write_all(b"POST /stop"),
            Wish::Save => out.write_all(b"POST /save"),
            Wish::Reload { dry_run: false } => out.write_all(b"POST /reload"),
            Wish::Reload { dry_run: true } => out.write_all(b"GET /reload"),
            Wish::Drain => out.write_all(b"POST /drain"),
            Wish::Resume => out.write_all(b"POST /resume"),
            Wish::Reset { link, cid: None } => write!(out, "POST /reset?link={link}"),
            Wish::Reset {
                link,
                cid: Some(cid),
            } => write!(out, "POST /reset?link={link}&cid={cid}"),
            Wish::Watch { link, cid } => write!(out, "GET /watch?link={link}&cid={cid}"),
            Wish::Hold { link, off } => write_moving(out, "hold", link, off),
            Wish::Export { link, off } => write_moving(out, "export", link, off),
            Wish::Import { link, .. } => write_moving(out, "import", link, false),
            Wish::Contexts { link } => write!(out, "GET /contexts?link={link}"),
            Wish::Calls { link, json } => write_calls_path(out, link, json),
            Wish::Top => out.write_all(b"GET /top"),
            Wish::State => out.write_all(b"GET /state"),
            Wish::Keep => out.write_all(b"GET /keep"),
            Wish::Kept { is_made: true } => out.write_all(b"POST /kept"),
            Wish::Kept { is_made: false } => out.write_all(b"POST /kept?failed"),
            Wish::Record {
                link: None,
                seconds,
            } => write!(out, "GET /record?seconds={seconds}"),
            Wish::Record {
                link: Some(link),
                seconds,
            } => write!(out, "GET /record?seconds={seconds}&link={link}"),
        }
    }

    /// How long the next octets of the answer may take; `None` is forever.
    fn wait(self) -> Option<Duration> {
        match self {
            Wish::Watch { .. } => None,
            Wish::Record { seconds, .. } => {
                Some(Duration::from_secs(WAIT_SECONDS + u64::from(seconds)))
            }
            _ => Some(Duration::from_secs(WAIT_SECONDS)),
        }
    }

    /// Writes the request.
    fn write<W: Write>(self, out: &mut W) -> io::Result<()> {
        self.write_path(out)?;
        out.write_all(b" HTTP/1.1\r\nHost: rohc-gateway\r\n")?;
        if let Wish::Import { size, .. } = self {
            write!(out, "Content-Length: {size}\r\n")?;
        }
        out.write_all(b"\r\n")
    }
}

/// The octets of the request.
fn request(alloc: Global, wish: Wish) -> io::Result<Vec<u8>> {
    let mut octets = Vec::new(alloc);
    wish.write(&mut octets)?;
    Ok(octets)
}

/// Where the head of an answer ends, and its body begins.
fn body_at(octets: &[u8]) -> Option<usize> {
    let at = octets
        .windows(4)
        .position(|four| four == b"\r\n\r\n".as_slice())?;
    Some(at + 4)
}

/// Whether octets begin as an answer does, as far as they go.
fn begins_answer(head: &[u8]) -> bool {
    let size = head.len().min(ANSWER.len());
    head.get(..size) == ANSWER.get(..size)
}

/// Whether the answer is that the request was done: its status is 200.
fn is_done(head: &[u8]) -> bool {
    head.get(8..12) == Some(b" 200".as_slice())
}

/// The length of the body that a head gives, as it is written there (RFC 9112 6.2).
fn length_in(head: &str) -> Option<&str> {
    for line in head.lines() {
        if let Some((name, value)) = line.split_once(":")
            && name.eq_ignore_ascii_case("Content-Length")
        {
            return Some(value.trim());
        }
    }
    None
}

/// The body of an answer, as far as it was read.
#[derive(Clone, Copy)]
struct Body {
    /// Whether the request was done.
    done: bool,
    /// How many octets it has, if the head says so. The body of a stream ends with the connection.
    size: Option<u64>,
    /// How many octets were read.
    read: u64,
}

impl Body {
    /// The body behind a head, before it is read. Returns `None` if the head gives a length that is not a number.
    fn behind(head: &[u8]) -> Option<Body> {
        let done = is_done(head);
        let size = match length_in(std::str::from_utf8(head).ok()?) {
            Some(digits) => Some(digits.parse::<u64>().ok()?),
            None => None,
        };
        Some(Body {
            done,
            size,
            read: 0,
        })
    }

    /// Counts octets that were read.
    fn count(&mut self, octets: &[u8])
        ensures read { self.new.read ≡ min (self.old.read + length octets.now) (2 ^ 64 - 1) }
        ensures size { self.new.size ≡ self.old.size }
        ensures done { self.new.done ≡ self.old.done }
    {
        self.read = self.read.saturating_add(octets.len() as u64);
    }
}

/// An answer, as far as it was read.
#[derive(Drop)]
struct Reading {
    head: Vec<u8>,
    /// The body, once the head has ended.
    body: Option<Body>,
}

/// Writes a part of an answer's body.
fn write_body<W: Write>(out: &mut W, octets: &[u8]) -> Result<(), Fault> {
    out.write_all(octets).map_err(Fault::Output)
}

impl Reading {
    /// Takes the next octets of an answer, and writes those of its body. Returns whether it can be an answer.
    fn take<W: Write>(&mut self, octets: &[u8], out: &mut W) -> Result<bool, Fault>
        ensures read { (before : Body) → self.old.body ≡ Some before → IfOk result (λ good.
            (after : Body) × (self.new.body ≡ Some after) × (after.size ≡ before.size) × (after.done ≡ before.done)
            × (after.read ≡ min (before.read + length octets.now) (2 ^ 64 - 1))) }
    {
        if let Some(body) = &mut self.body {
            body.count(octets);
            write_body(out, octets)?;
            return Ok(true);
        }
        if self.head.extend_from_slice(octets).is_err() {
            return Err(Fault::Memory);
        }
        if !begins_answer(&self.head) {
            return Ok(false);
        }
        let Some(at) = body_at(&self.head) else {
            return Ok(self.head.len() <= LONGEST_HEAD);
        };
        let Some(mut body) = Body::behind(self.head.get(..at).unwrap_or(&[])) else {
            return Ok(false);
        };
        let first = self.head.get(at..).unwrap_or(&[]);
        body.count(first);
        self.body = Some(body);
        write_body(out, first)?;
        Ok(true)
    }

    /// How the answer ends if the connection ends now: whether the request was done, or that the answer isn't whole.
    fn end(&self) -> Result<bool, Fault>
        ensures head { self.now.body ≡ None → result ≡ Err Fault.NoAnswer }
        ensures stream { (body : Body) → self.now.body ≡ Some body → body.size ≡ None → result ≡ Ok body.done }
        ensures whole { (body : Body) → (size : ℕ) → self.now.body ≡ Some body → body.size ≡ Some size
            → size ≤ body.read → result ≡ Ok body.done }
        ensures cut { (body : Body) → (size : ℕ) → self.now.body ≡ Some body → body.size ≡ Some size
            → body.read < size → result ≡ Err (Fault.Cut body.read size) }
    {
        let Some(Body { done, size, read }) = self.body else {
            return Err(Fault::NoAnswer);
        };
        match size {
            Some(size) if read < size => Err(Fault::Cut { read, size }),
            _ => Ok(done),
        }
    }
}

/// Reads an answer to its end, and writes its body as far as it comes. Returns whether the request was done.
fn pass_answer<R: Read, W: Write>(
    alloc: Global,
    stream: &mut R,
    out: &mut W,
) -> Result<bool, Fault> {
    let mut piece = [0; PIECE];
    let mut reading = Reading {
        head: Vec::new(alloc),
        body: None,
    };
    for _ in 0..u64::MAX {
        let count = match stream.read(&mut piece) {
            Ok(0) => return reading.end(),
            Ok(count) => count,
            Err(e) => return Err(Fault::Socket(e)),
        };
        if !reading.take(piece.get(..count).unwrap_or(&[]), out)? {
            break;
        }
    }
    Err(Fault::NoAnswer)
}

/// A stream to a gateway, at which nothing takes longer than an answer may.
fn connected<R: Net>(rt: &R, control: &str, wish: Wish) -> io::Result<UnixStream> {
    let stream = UnixStream::connect(rt, control)?;
    stream.set_read_timeout(wish.wait())?;
    stream.set_write_timeout(Some(Duration::from_secs(WAIT_SECONDS)))?;
    Ok(stream)
}

/// Why a socket can't be reached: what is at its path, otherwise what the system says.
fn fault_at<R: Files>(rt: &R, control: &str, error: io::Error) -> Fault {
    match fs::metadata(rt, control) {
        Ok(found) if found.is_dir() => Fault::Directory,
        Ok(found) if !found.file_type().is_socket() => Fault::NoSocket,
        _ => Fault::Socket(error),
    }
}

/// A stream on which a gateway was asked, with this body.
fn asked<R: Files + Net + AllocGlobal>(
    rt: &R,
    control: &str,
    wish: Wish,
    body: &[u8],
) -> Result<UnixStream, Fault> {
    if control.len() > LONGEST_PATH {
        return Err(Fault::LongPath);
    }
    let octets = request(rt.alloc(), wish).map_err(|_| Fault::Memory)?;
    let mut stream = connected(rt, control, wish).map_err(|e| fault_at(rt, control, e))?;
    if let Err(e) = stream.write_all(&octets) {
        return Err(Fault::Socket(e));
    }
    match stream.write_all(body) {
        Ok(()) => Ok(stream),
        Err(e) => Err(Fault::Socket(e)),
    }
}

/// Asks a gateway, and writes at most so many octets of its answer. Returns whether the request was done.
fn answered<R, W>(rt: &R, control: &str, wish: Wish, most: u64, out: &mut W) -> Result<bool, Fault>
where
    R: Files + Net + AllocGlobal,
    W: Write,
{
    let mut stream = asked(rt, control, wish, &[])?.take(most);
    pass_answer(rt.alloc(), &mut stream, out)
}

/// What came of a record.
#[derive(Clone, Copy)]
pub(crate) enum RecordEnd {
    Done,
    /// The gateway refused it, and said why.
    Refused,
    /// A part of it couldn't be written.
    Unwritten(io::Error),
    /// There was no answer. What is wrong was printed.
    Failed(Ending<'static>),
}

/// Asks a gateway for a record, and writes it as it comes.
pub(crate) fn record_answer<R, W>(rt: &R, control: &str, wish: Wish, out: &mut W) -> RecordEnd
where
    R: Files + Net + Eprint + AllocGlobal,
    W: Write,
{
    match answered(rt, control, wish, u64::MAX, out) {
        Ok(true) => RecordEnd::Done,
        Ok(false) => RecordEnd::Refused,
        Err(Fault::Output(error)) => RecordEnd::Unwritten(error),
        Err(fault) => RecordEnd::Failed(fault.ending(rt, control)),
    }
}

/// Asks a gateway, and holds what it answers, up to a limit. Returns also whether the request was done.
fn held<R>(rt: &R, control: &str, wish: Wish) -> Result<(bool, Vec<u8>), Fault>
where
    R: Files + Net + AllocGlobal,
{
    let mut octets = Vec::new(rt.alloc());
    match answered(rt, control, wish, LONGEST_STATE, &mut octets) {
        Ok(done) => Ok((done, octets)),
        Err(Fault::Output(_)) => Err(Fault::Memory),
        Err(fault) => Err(fault),
    }
}

/// Writes what a gateway answered.
fn write_held<R: Print>(rt: &R, octets: &[u8]) -> Result<(), Fault> {
    let mut out = io::writer(rt);
    write_body(&mut out, octets)
}

/// What a gateway answers if the request was done. Another answer is written.
pub(crate) fn answer_of<R>(rt: &R, control: &str, wish: Wish) -> Result<Vec<u8>, Ending<'static>>
where
    R: Files + Net + Print + Eprint + AllocGlobal,
{
    match held(rt, control, wish) {
        Ok((true, octets)) => Ok(octets),
        Ok((false, octets)) => match write_held(rt, octets.as_slice()) {
            Ok(()) => Err(Ending::Findings),
            Err(fault) => Err(fault.ending(rt, control)),
        },
        Err(fault) => Err(fault.ending(rt, control)),
    }
}

/// Prints that what a gateway answered is none of its answers. Returns how the program ends by it.
pub(crate) fn no_answer<R: Eprint>(rt: &R, control: &str) -> Ending<'static> {
    Fault::NoAnswer.ending(rt, control)
}

/// Clears the terminal, and writes what a gateway answers. Returns whether the request was done.
fn redrawn<R>(rt: &R, control: &str, wish: Wish) -> Result<bool, Fault>
where
    R: Files + Net + Print + AllocGlobal,
{
    let (done, octets) = held(rt, control, wish)?;
    clear(&mut io::writer(rt)).map_err(Fault::Output)?;
    write_held(rt, octets.as_slice())?;
    Ok(done)
}

/// Asks a gateway again and again, and redraws what it answers, until a request isn't done or the program is interrupted.
fn follow<R>(rt: &R, control: &str, wish: Wish) -> Result<bool, Fault>
where
    R: Files + Net + Print + Clock + AllocGlobal,
{
    for _ in 0..u64::MAX {
        if !redrawn(rt, control, wish)? {
            break;
        }
        thread::sleep(rt, Duration::from_secs(REDRAW_SECONDS));
    }
    Ok(false)
}

/// Has a gateway continue the calls of a link from these octets, and writes what it answers, or why there is no answer.
pub(crate) fn run_import<R>(
    rt: &R,
    control: &str,
    link: u16,
    octets: &[u8],
) -> Result<Ending<'static>, Ending<'static>>
where
    R: Files + Net + Print + Eprint + AllocGlobal,
{
    let size = octets.len();
    let done = match asked(rt, control, Wish::Import { link, size }, octets) {
        Ok(mut stream) => pass_answer(rt.alloc(), &mut stream, &mut io::writer(rt)),
        Err(fault) => Err(fault),
    };
    match done {
        Ok(true) => Ok(Ending::Good),
        Ok(false) => Ok(Ending::Findings),
        Err(fault) => Err(fault.ending(rt, control)),
    }
}

/// Asks a gateway, and writes what it answers, or why there is no answer. On a terminal `top` is redrawn until it is
/// interrupted.
pub(crate) fn run_control<R>(
    rt: &R,
    control: &str,
    wish: Wish,
    screen: Screen,
) -> Result<Ending<'static>, Ending<'static>>
where
    R: Files + Net + Print + Eprint + Clock + AllocGlobal,
{
    let done = if wish == Wish::Top && screen.output {
        follow(rt, control, wish)
    } else {
        answered(rt, control, wish, u64::MAX, &mut io::writer(rt))
    };
    match done {
        Ok(true) => Ok(Ending::Good),
        Ok(false) => Ok(Ending::Findings),
        Err(fault) => Err(fault.ending(rt, control)),
    }
}
