//! Packets of the worked examples in frames that Ethernet pads to 60 octets, of which 14 are its own header.

use crate::concentrator::{link_1, made};
use crate::examples::WHOLE_IR;
use arrayvec::ArrayVec;
use rohc_concentrator::{Answer, Concentrator};
use std::process::Abort;

/// The octets of a frame of 60 octets behind its Ethernet header.
const SHORTEST: usize = 46;

/// The packet as it comes out of a frame.
fn padded(packet: &[u8]) -> ArrayVec<u8, SHORTEST> {
    let mut octets = ArrayVec::new();
    for octet in packet {
        let _ = octets.try_push(*octet);
    }
    for _ in packet.len()..SHORTEST {
        let _ = octets.try_push(0);
    }
    octets
}

/// Takes a packet out of a frame, cuts it behind one octet of payload, compares it with what was put in, and has it arrive.
fn compare_trimmed(rt: &impl Abort, concentrator: &mut Concentrator, packet: &[u8]) {
    let octets = padded(packet);
    assert_eq!(rt; concentrator.trimmed(1, 1, octets.as_slice()), packet);
    let answer = concentrator.arrive(1, 0, packet);
    assert!(rt; matches!(answer, Answer::Arrived { .. }), "of {packet:?}");
}

/// An IR without a dynamic chain, from the example *static first*.
const STATIC_ONLY: &[u8] =
    b"\xfc\x01\xde\x40\x11\x0a\x00\x00\x01\x0a\x00\x00\x02\x13\x88\x13\x8a\x00\x00\x00\x01";

/// The IR-DYN of that example.
const DYNAMIC: &[u8] =
    b"\xf8\x01\x0e\x00\x40\x00\x01\x20\x00\x00\x00\x90\x00\x00\x01\x00\x00\x00\xa0\x00\x09\x80\xa0\xab";

#[test]
fn padding_goes(rt: HostRuntime) {
    let mut concentrator = made(&rt, rt.alloc(), link_1(0));
    for packet in [WHOLE_IR, b"\x10\xac", b"\xd4\xc3\x3e\xad"] {
        compare_trimmed(&rt, &mut concentrator, packet);
    }
}

#[test]
fn padding_behind_a_static_chain_goes(rt: HostRuntime) {
    let mut concentrator = made(&rt, rt.alloc(), link_1(0));
    for packet in [STATIC_ONLY, DYNAMIC, b"\x10\xac"] {
        compare_trimmed(&rt, &mut concentrator, packet);
    }
}

/// An IR of profile 0x0000 with an IP packet of 20 octets, and that packet alone.
const PLAIN_IR: &[u8] =
    b"\xfc\x00\xb7\x45\x00\x00\x14\x00\x00\x00\x00\x40\x11\x66\xd8\x0a\x00\x00\x01\x0a\x00\x00\x02";

#[test]
fn an_ip_packet_ends_where_its_header_says(rt: HostRuntime) {
    let mut concentrator = made(&rt, rt.alloc(), link_1(0));
    for packet in [PLAIN_IR, PLAIN_IR.get(3..).unwrap_or(b""), b"\xfc\x00\xb7"] {
        compare_trimmed(&rt, &mut concentrator, packet);
    }
}

#[test]
fn what_cannot_be_read_stays(rt: HostRuntime) {
    let concentrator = made(&rt, rt.alloc(), link_1(0));
    let packets: [&[u8]; 4] = [b"\x10\xac", b"\xfd\x01\x2b", b"\xe0\xe0", b""];
    for packet in packets {
        let octets = padded(packet);
        assert_eq!(rt;
            concentrator.trimmed(1, 1, octets.as_slice()),
            octets.as_slice()
        );
        assert_eq!(rt;
            concentrator.trimmed(2, 1, octets.as_slice()),
            octets.as_slice()
        );
    }
}
