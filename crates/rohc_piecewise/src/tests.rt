//! A save by pieces while a link goes, restored, and one of large CIDs.

use crate::Saver;
use arrayvec::ArrayVec;
use rohc_concentrator::{Concentrator, LinkSetting};
use rohc_context::{Context, Mode, Settings};
use rohc_frame::CidKind;
use rohc_saved::{Restored, restore};
use std::process::Abort;

// The IR of example *whole IR* of docs/EXAMPLES.md: SN 1, timestamp 160 and the stride 160.
const WHOLE_IR: &[u8] =
    b"\xfd\x01\x2b\x40\x11\x0a\x00\x00\x01\x0a\x00\x00\x02\x13\x88\x13\x8a\x00\x00\x00\x01\x00\x40\x00\x01\x20\x00\x00\x00\x90\x00\x00\x01\x00\x00\x00\xa0\x00\x09\x80\xa0\xab";

// What is saved at 0102030405060709 of links 1 and 2, each with CID 0 after that IR at 0102030405060708, if link 2 goes
// before its CIDs are looked at: written by hand from docs/FORMATS.md. The last 32 octets are what Python's hashlib.sha256
// gives for those before them.
const SAVED: [u8; 130] = [
    0x50, 0x6f, 0x6c, 0x6f, 0x72, 0x6f, 0x77, 0x61, 0x6e, // the name
    0x00, 0x01, // the version
    0x01, 0x02, 0x03, 0x04, 0x05, 0x06, 0x07, 0x09, // the moment of saving
    0x00, 0x02, // two links
    0x00, 0x01, 0x00, 0x00, 0x00, 0x0f, 0x00, 0x01, // link 1, small CIDs up to 15, one context
    0x00, 0x00, // CID 0
    0x01, 0x02, 0x03, 0x04, 0x05, 0x06, 0x07, 0x08, // the time of the last accepted packet
    0x03, // Full Context
    0x0a, 0x00, 0x00, 0x01, 0x0a, 0x00, 0x00, 0x02, // the addresses
    0x13, 0x88, 0x13, 0x8a, 0x00, 0x00, 0x00, 0x01, // the ports and the SSRC
    0x00, 0x40, 0x00, 0x01, 0x00, 0x00, 0x00, 0x01, 0x00, 0x00, 0x00, 0xa0, // the numbers of the reference
    0x00, 0x00, 0x00, 0x00, // its payload type, DF, P and X
    0x00, 0x01, 0x00, // RND, NBO, no UDP checksum
    0x01, 0x00, 0x00, 0x00, 0xa0, // a stride of 160
    0x00, // no previous reference
    0x00, 0x00, 0x00, 0x00, 0x00, 0x00, 0x00, 0x00, 0x00, // an empty window
    0x00, 0x02, 0x00, 0x00, 0x00, 0x0f, 0x00, 0x00, // link 2, small CIDs up to 15, no context
    0xbe, 0xbd, 0xa6, 0x22, 0xe6, 0x66, 0xc1, 0x44, 0x67, 0xb6, 0xf8, 0x35, 0xae, 0xba, 0x33, 0x3e,
    0x27, 0xcd, 0x8d, 0x32, 0x02, 0x92, 0x92, 0x22, 0xa0, 0x27, 0x85, 0xbf, 0x2c, 0xab, 0x50, 0xc8,
];

// What is told of it once it is restored.
const TOLD: Restored = Restored {
    moment: 0x0102_0304_0506_0709,
    links: 2,
    unknown_links: 0,
    other_links: 0,
    contexts: 1,
    left_contexts: 0,
    high_contexts: 0,
};

// A link of this number, with CIDs of this kind up to this one.
fn link(number: u16, size: CidKind, max_cid: u16) -> LinkSetting {
    LinkSetting {
        link: number,
        settings: Settings {
            size,
            max_cid,
            mode: Mode::O,
            k1: 2,
            n1: 3,
            k2: 2,
            n2: 3,
            packet_ms: 20,
            static_nack_ms: 1000,
            idle_ms: 0,
        },
        ranges: ArrayVec::new(),
    }
}

// What a save gives, by pieces of at most 77 octets. After the first piece the link 2 is removed.
fn saved(rt: &HostRuntime, concentrator: &mut Concentrator, saver: &mut Saver) -> Option<Vec<u8>> {
    saver
        .begin(rt.alloc(), concentrator, 0x0102_0304_0506_0709)
        .ok()?;
    let mut octets = Vec::new(rt.alloc());
    for _ in 0..1000 {
        if !saver.is_busy() {
            return Some(octets);
        }
        let piece = saver.piece();
        let part = piece.get(..77).unwrap_or(piece);
        octets.extend_from_slice(part).ok()?;
        let count = part.len();
        saver.take(count);
        saver.gather(concentrator);
        let _gone = concentrator.remove_link(2);
    }
    None
}

#[test]
fn a_link_that_goes_has_no_context(rt: HostRuntime) {
    let settings = [link(1, CidKind::Small, 15), link(2, CidKind::Small, 15)];
    let Ok(mut concentrator) = Concentrator::new(rt.alloc(), &settings) else {
        panic!(rt; "no concentrator");
    };
    concentrator.arrive(1, 0x0102_0304_0506_0708, WHOLE_IR);
    concentrator.arrive(2, 0x0102_0304_0506_0708, WHOLE_IR);
    assert!(rt; concentrator.has_context(2, 0));
    let Ok(mut saver) = Saver::new(rt.alloc()) else {
        panic!(rt; "no memory");
    };
    assert!(rt; !saver.is_busy());
    assert!(rt; saver.piece().is_empty());
    let Some(octets) = saved(&rt, &mut concentrator, &mut saver) else {
        panic!(rt; "not saved");
    };
    assert_eq!(rt; octets.as_slice(), &SAVED[..]);
    assert!(rt; saver.piece().is_empty());
    let Ok((restored, told)) = restore(rt.alloc(), &settings, octets.as_slice()) else {
        panic!(rt; "not restored");
    };
    assert_eq!(rt; told, TOLD);
    assert!(rt; restored.has_context(1, 0));
    assert!(rt; !restored.has_context(2, 0));
}

// The octets of link 3 with the context of SAVED at CIDs 0, 255, 256 and 300.
fn four_contexts(rt: &HostRuntime) -> Option<Vec<u8>> {
    let mut octets = Vec::new(rt.alloc());
    octets
        .extend_from_slice(b"\x00\x03\x01\x00\x01\x2c\x00\x04")
        .ok()?;
    for cid in [0u16, 255, 256, 300] {
        octets.extend_from_slice(&cid.to_be_bytes()).ok()?;
        octets.extend_from_slice(SAVED.get(31..90)?).ok()?;
    }
    Some(octets)
}

// The contexts were put in another order than that of their CIDs, and 256 CIDs are looked at in one call.
#[test]
fn large_cids_are_gathered_by_two_calls(rt: HostRuntime) {
    let settings = [link(3, CidKind::Large, 300)];
    let Ok(mut concentrator) = Concentrator::new(rt.alloc(), &settings) else {
        panic!(rt; "no concentrator");
    };
    for cid in [300, 256, 255, 0] {
        let Ok(context) = Context::restore(&SAVED[31..90]) else {
            panic!(rt; "no context");
        };
        assert!(rt; concentrator.put(3, cid, context).is_ok());
    }
    let Ok(mut saver) = Saver::new(rt.alloc()) else {
        panic!(rt; "no memory");
    };
    assert!(rt; saver.begin(rt.alloc(), &concentrator, 5).is_ok());
    assert_eq!(rt;
        saver.piece(),
        &b"Polorowan\x00\x01\x00\x00\x00\x00\x00\x00\x00\x05\x00\x01"[..]
    );
    saver.take(21);
    saver.gather(&concentrator);
    assert!(rt; saver.piece().is_empty());
    saver.gather(&concentrator);
    let Some(wanted) = four_contexts(&rt) else {
        panic!(rt; "no memory");
    };
    assert_eq!(rt; saver.piece(), wanted.as_slice());
    saver.take(usize::MAX);
    assert_eq!(rt; saver.piece().len(), 32);
    saver.take(usize::MAX);
    assert!(rt; !saver.is_busy());
}
