//! What is recorded of a gateway: the packets that arrive, as lines of a script.

ghost use Rattle.std.specs.Prelude.{◌≡◌, ◌++◌, OnOk};
ghost use Rattle.std.specs.Option.{option_map};
ghost use Rattle.hex.specs.Hex.{encode_lower};
ghost use Rattle.rohc_replay.specs.Script.{hex_text};
ghost use Rattle.rohc_station.specs.Timed.{plain_timed};
ghost use Rattle.rohc_station.specs.Recorded.{arrival_in, arrival_line};

use crate::timed::{Timed, timed_datagram};
use hex::encode_to_slice;
use itoa::Buffer;
use rohc_serve::named_link;
use std::alloc::AllocError;

/// The packet of a datagram that came at this moment, with its link; a timed datagram has its moment in it. `None` if the
/// datagram is too short.
pub fn arrival_in(is_timed: bool, now: u64, datagram: &[u8]) -> Option<Timed<'_>>
    ensures { option_map plain_timed result ≡ arrival_in is_timed now datagram.now }
{
    if is_timed {
        return timed_datagram(datagram);
    }
    match named_link(datagram) {
        Some((link, packet)) => Some(Timed {
            link,
            moment: now,
            packet,
        }),
        None => None,
    }
}

/// Appends octets as pairs of hexadecimal digits.
fn push_pairs(line: &mut Vec<u8>, octets: &[u8]) -> Result<(), AllocError>
    ensures { OnOk result (line.new.items ≡ line.old.items ++ encode_lower octets.now) }
{
    let start = line.len();
    line.extend_from_slice(octets)?;
    line.extend_from_slice(octets)?;
    let _ = encode_to_slice(octets, &mut line.as_mut_slice()[start..]);
    Ok(())
}

/// Appends a packet as a script has it; `-` is one of no octets.
fn push_packet(line: &mut Vec<u8>, packet: &[u8]) -> Result<(), AllocError>
    ensures { OnOk result (line.new.items ≡ line.old.items ++ hex_text packet.now) }
{
    if packet.is_empty() {
        line.push(b'-')?;
        return Ok(());
    }
    push_pairs(line, packet)
}

/// Appends a number in decimal digits.
fn push_number(line: &mut Vec<u8>, number: u64) -> Result<(), AllocError>
    ensures { OnOk result (line.new.items ≡ line.old.items ++ decimal number) }
{
    let mut buffer = Buffer::new();
    line.extend_from_slice(buffer.format(number).as_bytes())
}

ghost use Rattle.std.specs.Fmt.{decimal};

/// Makes a line of the arrival of a packet, as a script has it. What was in it goes; its room is used again.
pub fn write_arrival(line: &mut Vec<u8>, arrival: &Timed<'_>) -> Result<(), AllocError>
    ensures { OnOk result (line.new.items ≡ arrival_line arrival.now.link arrival.now.moment arrival.now.packet.now) }
{
    line.clear();
    line.extend_from_slice(b"arrive ")?;
    push_number(line, u64::from(arrival.link))?;
    line.push(b' ')?;
    push_number(line, arrival.moment)?;
    line.push(b' ')?;
    push_packet(line, arrival.packet)?;
    line.push(b'\n')?;
    Ok(())
}
