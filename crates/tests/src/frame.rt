//! Packets that start with a header of kind Other, whether an IR has a dynamic chain, and the greatest CID of each
//! kind.

use rohc_frame::{CidKind, Elements, HeadKind, cut, plain_header};

// A link's CID kind and greatest CID, a packet, and its CID, first octet and rest if it starts with a header of kind
// Other.
type Start = (
    CidKind,
    u16,
    &'static [u8],
    Option<(u16, u8, &'static [u8])>,
);

const STARTS: [Start; 8] = [
    (CidKind::Small, 15, &[0x45, 0xaa], Some((0, 0x45, &[0xaa]))),
    (
        CidKind::Small,
        15,
        &[0xef, 0x45, 0xaa],
        Some((15, 0x45, &[0xaa])),
    ),
    (
        CidKind::Large,
        16_383,
        &[0x45, 0x81, 0x2c, 0x01],
        Some((300, 0x45, &[0x01])),
    ),
    (CidKind::Small, 15, &[0xe0, 0x45, 0xaa], None),
    (CidKind::Small, 15, &[0xf8, 0x01, 0x0e], None),
    (CidKind::Large, 16_383, &[0xf8, 0x05, 0x01, 0x0e], None),
    (CidKind::Small, 3, &[0xe4, 0x10, 0xac], None),
    (CidKind::Large, 299, &[0x45, 0x81, 0x2c, 0x01], None),
];

// The CID, first octet and rest of a header of kind Other that the packet starts with.
fn start_of(size: CidKind, max_cid: u16, octets: &[u8]) -> Option<(u16, u8, &[u8])> {
    let forward = plain_header(size, max_cid, octets)?;
    Some((forward.cid, forward.first, forward.rest))
}

#[test]
fn plain_headers(rt: HostRuntime) {
    for (size, max_cid, octets, header) in STARTS {
        assert!(rt; start_of(size, max_cid, octets) == header);
    }
}

#[test]
fn no_elements(rt: HostRuntime) {
    assert!(rt; Elements::none().next().is_none());
}

// Whether a packet on a link of small CIDs is an IR, and whether it has a dynamic chain.
fn dynamic_chain(octets: &[u8]) -> Option<bool> {
    match cut(CidKind::Small, 15, octets).ok()?.forward?.kind {
        HeadKind::Ir { dynamic } => Some(dynamic),
        _ => None,
    }
}

#[test]
fn an_ir_with_a_dynamic_chain_and_one_without(rt: HostRuntime) {
    assert_eq!(rt; dynamic_chain(&[0xfd, 0x01, 0x2b]), Some(true));
    assert_eq!(rt; dynamic_chain(&[0xfc, 0x00, 0xb7]), Some(false));
    assert_eq!(rt; dynamic_chain(&[0xf8, 0x01, 0x0e]), None);
}

#[test]
fn greatest_identifiers(rt: HostRuntime) {
    assert_eq!(rt; CidKind::Small.greatest_cid(), 15);
    assert_eq!(rt; CidKind::Large.greatest_cid(), 16_383);
}
