//! The lines of a script, one after another, as rohcd reads them.

ghost use Rattle.std.specs.Prelude.{◌≡◌, ◌≢◌, length};
ghost use Rattle.rohc_links.specs.Limits.{longest_packet};

use crate::ending::{Ending, Misuse, unread, unwritten};
use crate::hex_word::{HexFault, packet_digits};
use rohc_links::zeros;
use rohc_replay::{LONGEST_PACKET, Words, read_words};
use rohc_text::Reason;
use std::alloc::Global;
use std::io::Read;

/// The longest line without its newline, in octets.
const LONGEST_LINE: usize = 131_200;

/// How many octets are asked for at once.
const PIECE: usize = 4096;

/// What a line of a script says.
#[derive(Clone, Copy)]
pub enum Line<'a> {
    /// A packet arrives on a link at this time, in milliseconds.
    Arrive {
        link: u16,
        moment: u64,
        packet: &'a [u8],
    },
    /// A link is reset.
    Reset {
        link: u16,
    },
    /// The line is none of these.
    Bad,
}

/// Why a script is read no further.
#[derive(Clone, Copy, PartialEq, Eq)]
pub enum Stop {
    /// A packet that was given isn't one.
    Words(HexFault),
    /// A read failed.
    Read(Reason),
    /// A write failed.
    Write(Reason),
    /// There is no memory.
    Memory,
}

impl Stop {
    /// How a run of the program ends by it, that reads and writes at these paths.
    pub fn ending<'a>(self, input: &'a str, output: &'a str) -> Ending<'a>
        ensures words { (fault : HexFault) → self ≡ Stop.Words fault → result ≡ Ending.Misuse (Misuse.Packet fault) }
        ensures memory { self ≡ Stop.Memory → result ≡ Ending.Memory }
        ensures read { (reason : Reason) → self ≡ Stop.Read reason → reason ≢ Reason.Memory
            → result ≡ Ending.Read input.entry reason }
        ensures write { (reason : Reason) → self ≡ Stop.Write reason → reason ≢ Reason.Memory → reason ≢ Reason.Closed
            → result ≡ Ending.Write output.entry reason }
    {
        match self {
            Stop::Words(fault) => Ending::Misuse(Misuse::Packet(fault)),
            Stop::Read(reason) => unread(input, reason),
            Stop::Write(reason) => unwritten(output, reason),
            Stop::Memory => Ending::Memory,
        }
    }
}

/// Who takes the lines of a script.
pub trait Taker {
    /// Says at which octet of a capture the frame of the next line begins.
    fn place(&mut self, _octet: u64) {}

    /// Takes the line with this number. After an error no more lines come.
    fn take(&mut self, number: u64, line: Line<'_>) -> Result<(), Stop>;
}

/// The line that is being read.
#[derive(Drop)]
struct Unfinished {
    /// How many lines are finished.
    number: u64,
    /// Its octets so far; of a long one the first.
    octets: Vec<u8>,
}

/// What a finished line says. The octets of a packet are written into `packet`.
fn line_of<'a>(octets: &[u8], packet: &'a mut [u8]) -> Line<'a>
    requires { length packet.old ≡ longest_packet }
{
    if octets.len() > LONGEST_LINE {
        return Line::Bad;
    }
    match read_words(octets, packet) {
        Some(Words::Arrive { link, moment, size }) => match packet.get(..size) {
            Some(packet) => Line::Arrive {
                link,
                moment,
                packet,
            },
            None => Line::Bad,
        },
        Some(Words::Reset { link }) => Line::Reset { link },
        None => Line::Bad,
    }
}

impl Unfinished {
    /// Ends the line, and has it taken.
    fn end<T: Taker>(&mut self, packet: &mut [u8], taker: &mut T) -> Result<(), Stop>
        requires { length packet.old ≡ longest_packet }
    {
        self.number = self.number.saturating_add(1);
        let line = line_of(self.octets.as_slice(), packet);
        let taken = taker.take(self.number, line);
        self.octets.clear();
        taken
    }

    /// Takes octets of the script.
    fn add<T: Taker>(&mut self, piece: &[u8], packet: &mut [u8], taker: &mut T) -> Result<(), Stop>
        requires { length packet.old ≡ longest_packet }
    {
        for octet in piece {
            if *octet == b'\n' {
                self.end(packet, taker)?;
            } else if self.octets.len() <= LONGEST_LINE && self.octets.push(*octet).is_err() {
                return Err(Stop::Memory);
            }
        }
        Ok(())
    }
}

/// Reads a script, by way of this buffer for packets.
fn read_by<S: Read, T: Taker>(
    alloc: Global,
    source: &mut S,
    packet: &mut [u8],
    taker: &mut T,
) -> Result<(), Stop>
    requires { length packet.old ≡ longest_packet }
{
    let mut unfinished = Unfinished {
        number: 0,
        octets: Vec::new(alloc),
    };
    let mut buffer = [0; PIECE];
    for _ in 0..u64::MAX {
        let count = match source.read(buffer.as_mut_slice()) {
            Ok(count) => count,
            Err(error) => return Err(Stop::Read(Reason::of(&error))),
        };
        if count == 0 {
            break;
        }
        unfinished.add(&buffer[..count], packet, taker)?;
    }
    if unfinished.octets.is_empty() {
        return Ok(());
    }
    unfinished.end(packet, taker)
}

/// Reads a script to its end, and has each line taken.
pub fn read_script<S: Read, T: Taker>(
    alloc: Global,
    source: &mut S,
    taker: &mut T,
) -> Result<(), Stop> {
    let Ok(mut packet) = zeros(alloc, LONGEST_PACKET) else {
        return Err(Stop::Memory);
    };
    read_by(alloc, source, packet.as_mut_slice(), taker)
}

/// Has packets taken, by way of this buffer.
fn read_packets_by<T: Taker>(
    alloc: Global,
    link: u16,
    step: u64,
    packets: &str,
    packet: &mut [u8],
    taker: &mut T,
) -> Result<(), Stop>
    requires { length packet.old ≡ longest_packet }
{
    let mut number = 0u64;
    let mut moment = 0u64;
    for word in packets.split(",") {
        number = number.saturating_add(1);
        let digits = match packet_digits(alloc, word) {
            Ok(Ok(digits)) => digits,
            Ok(Err(fault)) => return Err(Stop::Words(fault)),
            Err(_) => return Err(Stop::Memory),
        };
        let Ok(text) = format!(in alloc; "arrive {link} {moment} {digits}") else {
            return Err(Stop::Memory);
        };
        let line = line_of(text.as_bytes(), packet);
        taker.take(number, line)?;
        moment = moment.saturating_add(step);
    }
    Ok(())
}

/// Has packets taken that are given as digits with commas between them. All are of one link, and each arrives so many
/// milliseconds behind the one before it.
pub fn read_packets<T: Taker>(
    alloc: Global,
    link: u16,
    step: u64,
    packets: &str,
    taker: &mut T,
) -> Result<(), Stop> {
    let Ok(mut packet) = zeros(alloc, LONGEST_PACKET) else {
        return Err(Stop::Memory);
    };
    read_packets_by(alloc, link, step, packets, packet.as_mut_slice(), taker)
}
