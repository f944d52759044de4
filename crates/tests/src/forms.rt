//! The RND in force, reading without extensions, a large CID, and a long payload: what no row of test data can ask.

use rohc_forms::{Form, FormKind, FormRefusal, IdBits, read_form};
use rohc_frame::{CidKind, HeadKind, cut, plain_header};

// The content of a packet on a link of this CID kind, for a context with this RND and a stride, whose packets carry the
// UDP checksum or not; `None` if the packet isn't of kind Other.
fn form_on(
    link: CidKind,
    packet: &[u8],
    rnd: bool,
    udp_sum: bool,
) -> Option<Result<Form<'_>, FormRefusal>> {
    let forward = cut(link, 15, packet).ok()?.forward?;
    let HeadKind::Other = forward.kind else {
        return None;
    };
    Some(read_form(&forward, rnd, udp_sum, true))
}

// The same on a link of small CIDs, `None` also if the packet is refused.
fn form_in(packet: &[u8], rnd: bool, udp_sum: bool) -> Option<Form<'_>> {
    form_on(CidKind::Small, packet, rnd, udp_sum)?.ok()
}

// Whether two packets say the same.
fn say_the_same(a: &Form<'_>, b: &Form<'_>) -> bool {
    a.kind == b.kind
        && a.sn == b.sn
        && a.ts == b.ts
        && a.tsc == b.tsc
        && a.id == b.id
        && a.udp_sum == b.udp_sum
        && a.marker == b.marker
        && a.values == b.values
        && a.check == b.check
        && a.payload == b.payload
}

// Whether a packet is read under this RND, and the RND in force is the expected one.
fn has_rnd(packet: &[u8], rnd: bool, expected: bool) -> bool {
    match form_in(packet, rnd, false) {
        Some(form) => matches!(form.id, IdBits::Whole(_)) == expected,
        None => false,
    }
}

// Example RND turned on, an extension that turns it off, and a packet without an extension.
#[test]
fn rnd_in_force(rt: HostRuntime) {
    assert!(rt;
        has_rnd(
            &[0xc1, 0x83, 0xa4, 0xca, 0x06, 0x12, 0x34, 0xae],
            false,
            true
        )
    );
    assert!(rt; has_rnd(&[0xc1, 0x83, 0xa4, 0xca, 0x04, 0xae], true, false));
    assert!(rt; has_rnd(&[0x25, 0x56, 0x78, 0xaf], true, true));
    assert!(rt; has_rnd(&[0x25, 0x56, 0x78, 0xaf], false, false));
}

// Whether a packet is read, but not without the last octet of its header, which has this many octets.
fn ends_its_header_at(packet: &[u8], header: usize, rnd: bool, udp_sum: bool) -> bool {
    1 <= header
        && header <= packet.len()
        && form_in(packet, rnd, udp_sum).is_some()
        && form_in(&packet[..header - 1], rnd, udp_sum).is_none()
}

// Packets of each format without an extension, each with the octets of its header, its RND, and whether it carries the
// UDP checksum.
const UNEXTENDED: [(&[u8], usize, bool, bool); 7] = [
    (&[0x10, 0xac], 1, false, false),
    (&[0x10, 0x12, 0x34, 0xca, 0xfe], 5, true, true),
    (&[0x84, 0x1f, 0xad], 2, false, false),
    (&[0xa8, 0x18], 2, false, false),
    (&[0x94, 0xaf, 0x00, 0x11], 4, true, false),
    (&[0xd4, 0xc3, 0x3e, 0xad], 3, false, false),
    (&[0xc0, 0x0c, 0x7a], 3, false, false),
];

#[test]
fn packets_without_an_extension(rt: HostRuntime) {
    for (packet, header, rnd, udp_sum) in UNEXTENDED {
        assert!(rt; ends_its_header_at(packet, header, rnd, udp_sum));
    }
}

// UOR-2 with an extension 0, 1 and 2, each with the octets of its header and its RND.
const EXTENDED: [(&[u8], usize, bool); 3] = [
    (&[0xc5, 0x12, 0x85, 0x2b, 0x77], 4, false),
    (&[0xc5, 0x92, 0x85, 0x6b, 0x3c, 0x77], 5, false),
    (
        &[0xc5, 0x12, 0x85, 0xab, 0x01, 0x3c, 0xaa, 0xbb, 0x77],
        8,
        true,
    ),
];

#[test]
fn packets_with_an_extension(rt: HostRuntime) {
    for (packet, header, rnd) in EXTENDED {
        assert!(rt; ends_its_header_at(packet, header, rnd, false));
    }
}

// UOR-2-TS jump under a large CID, which follows the first octet.
#[test]
fn a_large_identifier_is_no_part_of_it(rt: HostRuntime) {
    let packet: [u8; 5] = [0xd4, 0x0c, 0xc3, 0x3e, 0xad];
    let Some(Ok(large)) = form_on(CidKind::Large, &packet, false, false) else {
        panic!(rt; "refused");
    };
    let Some(small) = form_in(&[0xd4, 0xc3, 0x3e, 0xad], false, false) else {
        panic!(rt; "refused");
    };
    assert!(rt; say_the_same(&large, &small));
}

// The longest packet of refused extensions. A payload that is too long for a rebuilt packet is not
// refused here.
#[test]
fn a_payload_of_any_length_is_read(rt: HostRuntime) {
    let mut packet = [0; 65_497];
    packet[0] = 0x10;
    let form = form_in(&packet, false, false).expect(&rt, "a packet");
    assert_eq!(rt; form.kind, FormKind::Uo0);
    assert_eq!(rt; form.payload.len(), 65_496);
}

// Whether each packet from a first octet to another has this format, also if it ends behind the second octet, which is
// given.
fn have_format(rnd: bool, second: u8, low: u8, high: u8, expected: FormKind) -> bool {
    for first in low..=high {
        match form_in(&[first, second, 0, 0, 0], rnd, false) {
            Some(form) if form.kind == expected => {}
            _ => return false,
        }
        if FormKind::of(first, second, rnd) != expected {
            return false;
        }
    }
    true
}

// The RND, the T bit of a UOR-2, the first and the last first octet, and their format.
const FIRST_OCTETS: [(bool, u8, u8, u8, FormKind); 9] = [
    (false, 0x00, 0x00, 0x7f, FormKind::Uo0),
    (true, 0x80, 0x00, 0x7f, FormKind::Uo0),
    (false, 0x00, 0x80, 0x9f, FormKind::Uo1Id),
    (false, 0x00, 0xa0, 0xbf, FormKind::Uo1Ts),
    (true, 0x00, 0x80, 0xbf, FormKind::Uo1),
    (false, 0x00, 0xc0, 0xdf, FormKind::Uor2Id),
    (false, 0x80, 0xc0, 0xdf, FormKind::Uor2Ts),
    (true, 0x00, 0xc0, 0xdf, FormKind::Uor2),
    (true, 0x80, 0xc0, 0xdf, FormKind::Uor2),
];

#[test]
fn each_first_octet(rt: HostRuntime) {
    for (rnd, second, low, high, expected) in FIRST_OCTETS {
        assert!(rt; have_format(rnd, second, low, high, expected));
    }
}
