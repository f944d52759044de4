//! An honest sender's packets, of which up to thirteen in a row are lost, among hostile lines for other CIDs of its
//! link and for other links.

use super::{ANSWERS, SCRIPT, replayed};
use crate::examples::LINKS;
use std::alloc::AllocError;
use std::fmt::Write;
use std::test::Fail;

/// Hostile lines. On the sender's link they carry an IR of the same call under another CID, its packets, one of them
/// damaged, a damaged IR, one that is cut short, refused packets, and packets without a CID. On other links they carry
/// IRs of the same call, packets and resets. Four lines are not events.
const HOSTILE: &str = "\
arrive 1 0 e5fd014940110a0000010a0000021388138a00000001004000012000000090000001000000a0000980a0ab
arrive 1 20 e510ac
arrive 1 40 e511ac
arrive 1 0 e5fd014840110a0000010a0000021388138a00000001004000012000000090000001000000a0000980a0ab
arrive 1 999999999999 e7fd012b40110a
arrive 1 0 e1c00380c104
arrive 1 0 e2fc008145aa
arrive 1 0 e1f100
arrive 1 0 ff00
arrive 1 0 -
oops
arrive 1 0 10AC
arrive 1 0  10ac
reset 01
reset 2
arrive 2 0 fd812c01cb40110a0000010a0000021388138a00000001004000012000000090000001000000a0000980a0ab
arrive 2 0 11812cac
reset 3
arrive 3 0 fd012b40110a0000010a0000021388138a00000001004000012000000090000001000000a0000980a0ab
arrive 3 0 11ac
arrive 9 0 10ac
reset 9
";

/// The header of the call's packet with the SN 0, the timestamp 0 and the payload `ac`.
const HEADER: [u8; 40] = [
    0x45, 0x00, 0x00, 0x29, 0x00, 0x00, 0x00, 0x00, 0x40, 0x11, 0x66, 0xc2, 0x0a, 0x00, 0x00, 0x01,
    0x0a, 0x00, 0x00, 0x02, 0x13, 0x88, 0x13, 0x8a, 0x00, 0x15, 0x00, 0x00, 0x80, 0x00, 0x00, 0x00,
    0x00, 0x00, 0x00, 0x00, 0x00, 0x00, 0x00, 0x01,
];

/// The header of the packet with this SN. The Identification is the SN and the timestamp 160 times it, so the header
/// sum falls as the SN grows.
fn header(sn: u16) -> [u8; 40] {
    let mut header = HEADER;
    header[4..6].copy_from_slice(&sn.to_be_bytes());
    header[10..12].copy_from_slice(&0x66c2u16.wrapping_sub(sn).to_be_bytes());
    header[30..32].copy_from_slice(&sn.to_be_bytes());
    header[32..36].copy_from_slice(&(160 * u32::from(sn)).to_be_bytes());
    header
}

/// The 3-bit check of a header, bit by bit: over its static octets, and then over its dynamic ones. The register
/// starts from all ones, and the polynomial's lowest power is the highest bit.
fn check(header: &[u8]) -> u8 {
    let parts = [
        0..2,
        6..10,
        12..24,
        28..29,
        36..40,
        2..6,
        10..12,
        24..28,
        29..36,
    ];
    let mut register = 7;
    for part in parts {
        for octet in header.get(part).unwrap_or(b"") {
            for bit in 0..8u8 {
                let out = (register ^ (*octet >> bit)) & 1;
                register = (register >> 1) ^ (out * 6);
            }
        }
    }
    register & 7
}

/// Appends octets as pairs of digits.
fn put_octets(text: &mut String, octets: &[u8]) -> Result<(), AllocError> {
    for octet in octets {
        write!(text, "{octet:02x}")?;
    }
    Ok(())
}

/// Appends the line of the packet with this SN: a UO-0.
fn put_packet(script: &mut String, sn: u16) -> Result<(), AllocError> {
    let first = (sn % 16) as u8 * 8 | check(header(sn).as_slice());
    writeln!(script, "arrive 1 {} {first:02x}ac", 20 * u64::from(sn))
}

/// Appends the answer to it: its header and its payload.
fn put_answer(answers: &mut String, sn: u16) -> Result<(), AllocError> {
    answers.push_str("1 0 ip ")?;
    put_octets(answers, header(sn).as_slice())?;
    answers.push_str("ac\n")
}

#[test]
fn what_an_honest_sender_sent_is_delivered(rt: HostRuntime) -> Result<(), Fail> {
    let mut script = String::new(rt.alloc());
    let first = SCRIPT.lines().next().unwrap_or("");
    writeln!(script, "{first}")?;
    let mut sent = String::from_str(rt.alloc(), ANSWERS[0])?;
    let mut sn = 2u16;
    for arrived in 0..28u16 {
        script.push_str(HOSTILE)?;
        put_packet(&mut script, sn)?;
        put_answer(&mut sent, sn)?;
        sn = sn.wrapping_add(1 + arrived % 14);
    }
    let (concentrator, writer) = replayed(&rt, rt.alloc(), LINKS, script.as_str(), usize::MAX);
    for (link, cid) in [(1, 2), (1, 5), (2, 300), (3, 0)] {
        assert!(rt; concentrator.has_context(link, cid), "{link} {cid}");
    }
    let written = str::from_utf8(writer.text.as_slice()).expect(&rt, "text");
    let mut own = String::new(rt.alloc());
    for line in written.lines() {
        if line.starts_with("1 0 ") {
            writeln!(own, "{line}")?;
        }
    }
    assert_eq!(rt; own.as_str(), sent.as_str());
    Ok(())
}
