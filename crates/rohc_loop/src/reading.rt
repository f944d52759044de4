//! Files that are read whole.

ghost use Rattle.std.specs.Prelude.{◌≡◌, ◌≤◌, Result, vec_len};
ghost use Rattle.rohc_world.specs.Acts.{Asks};
ghost use Rattle.rohc_loop.specs.Reading.{ReadsMore, EndsReading, Reads, ReadsText, ReadsState};

use rohc_text::Reason;
use rohc_world::Disk;
use std::alloc::Global;

/// The longest gateway file or links file, in octets.
pub const LONGEST_TEXT: u64 = 1_048_576;

/// The longest state file, in octets: 256 links of 16,384 contexts have fewer.
pub const LONGEST_STATE: u64 = 1_073_741_824;

/// How many octets a read asks for at most.
const PIECE: usize = 16_384;

/// Reads the next octets of the open file, with a limit of one octet more than the longest file. Returns whether there
/// were any.
fn read_more<W: Disk>(
    world: &mut W,
    buffer: &mut [u8; PIECE],
    octets: &mut Vec<u8>,
    longest: u64,
) -> Result<bool, Reason>
    requires { vec_len octets.old ≤ longest }
    ensures { ReadsMore octets.old.items octets.new.items result (W.acts world.old) (W.acts world.new) }
{
    let room = longest - octets.len() as u64;
    let limit = if room < PIECE as u64 {
        room as usize + 1
    } else {
        PIECE
    };
    let size = match world.read(&mut buffer[..limit]) {
        Ok(size) => size,
        Err(trouble) => return Err(trouble.reason()),
    };
    match octets.extend_from_slice(&buffer[..size]) {
        Ok(()) => Ok(size > 0),
        Err(_) => Err(Reason::Memory),
    }
}

/// Reads the open file to its end.
#[tactic(auto, using(crate::proofs::ReadLemmas::read_none, crate::proofs::ReadLemmas::read_on, crate::proofs::ReadLemmas::ends_long))]
fn read_whole<W: Disk>(world: &mut W, alloc: Global, longest: u64) -> Result<Vec<u8>, Reason>
    ensures { Asks (W.acts world.old) (W.acts world.new) (EndsReading longest result) }
{
    let mut buffer = [0u8; PIECE];
    let mut octets = Vec::new(alloc);
    while octets.len() as u64 <= longest {
        match read_more(world, &mut buffer, &mut octets, longest) {
            Ok(true) => {}
            Ok(false) => return Ok(octets),
            Err(reason) => return Err(reason),
        }
    }
    Err(Reason::TooLong(longest))
}

/// Reads a file of at most this many octets.
#[tactic(auto, using(crate::proofs::ReadLemmas::not_opened))]
fn read_file<W: Disk>(
    world: &mut W,
    alloc: Global,
    path: &str,
    longest: u64,
) -> Result<Vec<u8>, Reason>
    ensures { Asks (W.acts world.old) (W.acts world.new) (Reads path.now longest result) }
{
    match world.open(path) {
        Ok(()) => {}
        Err(trouble) => return Err(trouble.reason()),
    }
    let read = read_whole(world, alloc, longest);
    world.close();
    read
}

/// Reads the text of a gateway file or a links file.
#[tactic(auto, using(crate::proofs::ReadLemmas::text_read, crate::proofs::ReadLemmas::text_refused, crate::proofs::ReadLemmas::text_failed))]
pub fn read_text<W: Disk>(world: &mut W, alloc: Global, path: &str) -> Result<String, Reason>
    ensures { Asks (W.acts world.old) (W.acts world.new) (ReadsText path.now result) }
{
    match read_file(world, alloc, path, LONGEST_TEXT) {
        Ok(octets) => match String::from_utf8(octets) {
            Ok(text) => Ok(text),
            Err(_) => Err(Reason::NotUtf8),
        },
        Err(reason) => Err(reason),
    }
}

/// Reads a state file. Returns `None` if there is none.
pub fn read_state<W: Disk>(
    world: &mut W,
    alloc: Global,
    path: &str,
) -> Result<Option<Vec<u8>>, Reason>
    ensures { Asks (W.acts world.old) (W.acts world.new) (ReadsState path.now result) }
{
    match read_file(world, alloc, path, LONGEST_STATE) {
        Ok(octets) => Ok(Some(octets)),
        Err(Reason::Missing) => Ok(None),
        Err(reason) => Err(reason),
    }
}
