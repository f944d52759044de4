//! The other ways to a header's octets and to its checks.

use arrayvec::ArrayVec;
use rohc_header::{Dynamic, Header, Prepared, Static, check3_after, check7_after, head_of};

/// The static fields of the examples' calls.
const FIXED: Static = Static {
    source: [10, 0, 0, 1],
    destination: [10, 0, 0, 2],
    source_port: 0x1388,
    destination_port: 0x138a,
    ssrc: 1,
};

/// The other fields of example *RND turned on*, in its second packet 255678af.
const MOVING: Dynamic = Dynamic {
    tos: 0x00,
    ttl: 0x40,
    id: 0x5678,
    df: false,
    rnd: true,
    nbo: true,
    udp_sum: 0x0000,
    padding: false,
    extension: false,
    marker: false,
    payload_type: 0,
    sn: 0x0004,
    ts: 0x0000_0280,
    stride: Some(160),
};

/// The header that this packet delivers. Its 3-bit check is the packet's, 5.
const OCTETS: [u8; 40] = [
    0x45, 0x00, 0x00, 0x29, 0x56, 0x78, 0x00, 0x00, 0x40, 0x11, 0x10, 0x4a, 0x0a, 0x00, 0x00, 0x01,
    0x0a, 0x00, 0x00, 0x02, 0x13, 0x88, 0x13, 0x8a, 0x00, 0x15, 0x00, 0x00, 0x80, 0x00, 0x00, 0x04,
    0x00, 0x00, 0x02, 0x80, 0x00, 0x00, 0x00, 0x01,
];

const CHECK3: u8 = 5;

const CHECK7: u8 = 0x7c;

#[test]
fn a_header_as_a_head(rt: HostRuntime) {
    let prepared = Prepared::of(&FIXED, &MOVING);
    let head = head_of(&FIXED, &prepared, &MOVING, 1);
    assert_eq!(rt; head.as_slice(), OCTETS.as_slice());
    let header = Header::with_prepared(&FIXED, &prepared, &MOVING, 1).expect(
        &rt,
        "a short payload",
    );
    assert_eq!(rt; header.octets, OCTETS);
}

#[test]
fn checks_from_registers(rt: HostRuntime) {
    let header = Header::build(&FIXED, &MOVING, 1).expect(&rt, "a short payload");
    let (register3, register7) = header.registers();
    assert_eq!(rt; header.check3_from(register3), CHECK3);
    assert_eq!(rt; header.check7_from(register7), CHECK7);
    assert_eq!(rt; check3_after(&OCTETS, register3), CHECK3);
    assert_eq!(rt; check7_after(&OCTETS, register7), CHECK7);
}
