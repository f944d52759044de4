//! IRs and IR-DYNs of the worked examples, cut off at each octet, and the longest IRs.

use crate::examples::WHOLE_IR;
use rohc_chain::{ChainRefusal, Ir, read_ir, read_ir_dyn};
use rohc_frame::{CidKind, Forward, HeadKind, cut};
use std::alloc::{AllocError, Global};
use std::test::Fail;

// A packet: its first octets, and from where to where octets of example whole IR follow. There the static chain stands
// at 3 to 21, and the dynamic chain at 21 to 41.
type Parts = (&'static [u8], usize, usize);

fn octets_of(alloc: Global, parts: Parts) -> Result<Vec<u8>, AllocError> {
    let (first, from, to) = parts;
    let mut octets = Vec::new(alloc);
    octets.extend_from_slice(first)?;
    octets.extend_from_slice(WHOLE_IR.get(from..to).unwrap_or(&[]))?;
    Ok(octets)
}

fn header_in(size: CidKind, packet: &[u8]) -> Option<Forward<'_>> {
    let max_cid = match size {
        CidKind::Small => 15,
        CidKind::Large => 16_383,
    };
    cut(size, max_cid, packet).ok()?.forward
}

// What a packet says of its payload, or why it is refused.
fn payload_in<'a>(forward: &Forward<'a>) -> Result<&'a [u8], ChainRefusal> {
    match forward.kind {
        HeadKind::Ir { .. } => match read_ir(forward)? {
            Ir::Plain { packet } => Ok(packet),
            Ir::StaticOnly { .. } => Ok(&[]),
            Ir::Whole { payload, .. } => Ok(payload),
        },
        HeadKind::IrDyn => Ok(read_ir_dyn(forward, 1, false, None)?.payload),
        HeadKind::Other => Ok(forward.rest),
    }
}

// Whether each prefix of the packet that has the first octet and the CID, which are `framed` octets, is read
// as it must be: inside the header it is Truncated, after it the payload is shorter.
fn is_read_at_each_cut(size: CidKind, packet: &[u8], framed: usize, header: usize) -> bool {
    for count in framed..packet.len() + 1 {
        let expected = if count < header {
            Err(ChainRefusal::Truncated)
        } else {
            Ok(&packet[header..count])
        };
        match header_in(size, &packet[..count]) {
            Some(forward) if payload_in(&forward) == expected => {}
            _ => return false,
        }
    }
    true
}

// The same of the packet that has these parts.
fn is_read_in_parts(
    alloc: Global,
    size: CidKind,
    parts: Parts,
    framed: usize,
    header: usize,
) -> Result<bool, AllocError> {
    let packet = octets_of(alloc, parts)?;
    Ok(is_read_at_each_cut(size, &packet, framed, header))
}

// The CID kind, a packet, how many octets its first octet and CID have, and how many its header has.
const CUT: [(CidKind, Parts, usize, usize); 5] = [
    (CidKind::Small, (b"\xe1\xfc\x00\x30\x45\xaa", 0, 0), 2, 4),
    (CidKind::Large, (b"\xfc\x81\x2c\x00\xe6\x45", 0, 0), 3, 5),
    (CidKind::Small, (b"\xfc\x01\xde", 3, 21), 1, 21),
    (CidKind::Small, (b"\xf8\x01\x0e", 21, 42), 1, 23),
    (CidKind::Small, (b"", 0, 41), 1, 41),
];

#[test]
fn each_beginning_of_a_packet(rt: HostRuntime) -> Result<(), Fail> {
    for (size, parts, framed, header) in CUT {
        assert!(rt; is_read_in_parts(rt.alloc(), size, parts, framed, header)?);
    }
    Ok(())
}

// The refusal of an IR on a link of small CIDs.
fn refusal_of(packet: &[u8]) -> Option<ChainRefusal> {
    let forward = header_in(CidKind::Small, packet)?;
    let HeadKind::Ir { .. } = forward.kind else {
        return None;
    };
    read_ir(&forward).err()
}

// A packet is too long if its rebuilt header and payload have more than 65,535 octets; the check is judged
// after that. The check octet of example whole IR or another, the payload's length, and the result.
const LONG: [(u8, usize, Option<ChainRefusal>); 4] = [
    (0x2b, 65_495, None),
    (0x2c, 65_495, Some(ChainRefusal::Check)),
    (0x2b, 65_496, Some(ChainRefusal::TooLong)),
    (0x2c, 65_496, Some(ChainRefusal::TooLong)),
];

// Example whole IR with this check octet and a payload of so many octets.
fn long_packet(alloc: Global, check: u8, length: usize) -> Result<Vec<u8>, AllocError> {
    let mut packet = octets_of(alloc, (b"", 0, 41))?;
    let header = packet.len();
    packet.resize(header.saturating_add(length), 0)?;
    if let Some(place) = packet.get_mut(2) {
        *place = check;
    }
    Ok(packet)
}

#[test]
fn long_packets(rt: HostRuntime) -> Result<(), Fail> {
    for (check, length, refusal) in LONG {
        let packet = long_packet(rt.alloc(), check, length)?;
        assert_eq!(rt; refusal_of(&packet), refusal);
    }
    Ok(())
}
