//! Saved contexts: the octets as docs/FORMATS.md has them, each state and back, and octets that are no context.

use crate::call::{answer, first};
use crate::concentrator::{link_1, made, outcome};
use crate::examples::WHOLE_IR;
use rohc_concentrator::{Concentrator, PutFault};
use rohc_context::{Context, ContextFault, ContextState, Outcome};
use std::process::Abort;

// What is saved after it, if it came at 0102030405060708: written by hand from docs/FORMATS.md.
const SAVED: [u8; 59] = [
    0x01, 0x02, 0x03, 0x04, 0x05, 0x06, 0x07, 0x08, // the time of the last accepted packet
    0x03, // Full Context
    0x0a, 0x00, 0x00, 0x01, 0x0a, 0x00, 0x00, 0x02, // the addresses
    0x13, 0x88, 0x13, 0x8a, 0x00, 0x00, 0x00, 0x01, // the ports and the SSRC
    0x00, 0x40, 0x00, 0x01, 0x00, 0x00, 0x00, 0x01, 0x00, 0x00, 0x00, 0xa0, // the numbers of the reference
    0x00, 0x00, 0x00, 0x00, // its payload type, DF, P and X
    0x00, 0x01, 0x00, // RND, NBO, no UDP checksum
    0x01, 0x00, 0x00, 0x00, 0xa0, // a stride of 160
    0x00, // no previous reference
    0x00, 0x00, 0x00, 0x00, 0x00, 0x00, 0x00, 0x00, 0x00, // an empty window
];

#[test]
fn a_context_is_saved_as_documented(rt: HostRuntime) {
    let Some(context) = first(0x0102_0304_0506_0708, WHOLE_IR) else {
        panic!(rt; "refused");
    };
    assert_eq!(rt; context.save().as_slice(), &SAVED[..]);
}

// A call that goes through all states, and its answers where before each packet the context is saved and restored.
#[test]
fn a_call_goes_on_after_each_state(rt: HostRuntime) {
    let Some(mut context) = first(0, WHOLE_IR) else {
        panic!(rt; "refused");
    };
    let packets: [(&[u8], usize, ContextState); 8] = [
        (&[0x10, 0xac], 59, ContextState::FullContext),
        (&[0x11, 0xac], 75, ContextState::FullContext),
        (&[0x11, 0xac], 75, ContextState::FullContext),
        (&[0x10, 0xac], 68, ContextState::StaticContext),
        (&[0xc0, 0x00, 0x00], 68, ContextState::StaticContext),
        (&[0xc0, 0x00, 0x00], 68, ContextState::StaticContext),
        (&[0x10, 0xac], 17, ContextState::NoContext),
        (WHOLE_IR, 17, ContextState::NoContext),
    ];
    for (packet, length, state) in packets {
        assert_eq!(rt; context.state(), state);
        compare_restored(&rt, &mut context, packet, length);
    }
}

// Compares a context, of which so many octets are saved, with what is restored of it, before a packet and after it.
fn compare_restored(rt: &impl Abort, context: &mut Context, packet: &[u8], length: usize) {
    let saved = context.save();
    assert_eq!(rt; saved.len(), length);
    let Ok(mut restored) = Context::restore(saved.as_slice()) else {
        panic!(rt; "not restored");
    };
    assert_eq!(rt; restored.saved().copied(), context.saved().copied());
    assert_eq!(rt; restored.save().as_slice(), saved.as_slice());
    assert_eq!(rt; answer(&mut restored, packet), answer(context, packet));
    assert_eq!(rt; restored.save().as_slice(), context.save().as_slice());
}

#[test]
fn faults_have_their_places(rt: HostRuntime) {
    let changes: [(usize, u8, usize); 7] = [
        (8, 0x04, 51),
        (37, 0x80, 22),
        (38, 0x02, 21),
        (44, 0x00, 14),
        (45, 0x20, 14),
        (50, 0x41, 9),
        (58, 0x01, 8),
    ];
    for (place, value, left) in changes {
        let mut octets = SAVED;
        if let Some(octet) = octets.get_mut(place) {
            *octet = value;
        }
        assert_eq!(rt;
            Context::restore(&octets).err(),
            Some(ContextFault::Bad { left })
        );
    }
}

#[test]
fn what_is_cut_is_short_and_what_follows_is_long(rt: HostRuntime) {
    for length in 0..SAVED.len() {
        let Some(front) = SAVED.get(..length) else {
            panic!(rt; "no such place");
        };
        assert_eq!(rt; Context::restore(front).err(), Some(ContextFault::Short));
    }
    let mut octets = [0; 60];
    for (octet, saved) in octets.iter_mut().zip(SAVED) {
        *octet = saved;
    }
    assert_eq!(rt;
        Context::restore(&octets).err(),
        Some(ContextFault::Long { left: 1 })
    );
}

// Each octet changed to each value is refused, or is what is saved of the context that it spells.
#[test]
fn any_octets_are_safe(rt: HostRuntime) {
    for place in 0..SAVED.len() {
        for value in 0..=255u8 {
            let mut octets = SAVED;
            if let Some(octet) = octets.get_mut(place) {
                *octet = value;
            }
            if let Ok(context) = Context::restore(&octets) {
                assert_eq!(rt; context.save().as_slice(), &octets[..]);
            }
        }
    }
}

// The CID of the first record of link 1, and what is restored of it.
fn restored_of(concentrator: &Concentrator) -> Option<(u16, Context)> {
    let (cid, context) = concentrator.context_at(1, 0)?;
    match Context::restore(context.save().as_slice()) {
        Ok(restored) => Some((cid, restored)),
        Err(_) => None,
    }
}

// Puts a context where none may stand, and then where it is missing.
fn compare_puts(rt: &impl Abort, concentrator: &mut Concentrator, cid: u16, context: Context) {
    assert_eq!(rt; concentrator.put(9, cid, context), Err(PutFault::NoLink));
    assert_eq!(rt; concentrator.put(1, 16, context), Err(PutFault::CidRange));
    assert_eq!(rt; concentrator.put(1, cid, context), Ok(()));
    assert_eq!(rt; concentrator.put(1, cid, context), Err(PutFault::HasRecord));
    assert!(rt; concentrator.has_context(1, 0));
}

// Example first UO-0, cut behind its IR.
#[test]
fn a_restored_context_goes_on_in_another_concentrator(rt: HostRuntime) {
    let mut before = made(&rt, rt.alloc(), link_1(0));
    let mut after = made(&rt, rt.alloc(), link_1(0));
    assert_eq!(rt; outcome(&mut before, 0, WHOLE_IR), Some(Outcome::Delivered));
    let Some((cid, restored)) = restored_of(&before) else {
        panic!(rt; "not restored");
    };
    compare_puts(&rt, &mut after, cid, restored);
    for packet in [[0x10, 0xac], [0x11, 0xac], [0x11, 0xac], [0x10, 0xac]] {
        assert_eq!(rt;
            outcome(&mut after, 0, &packet),
            outcome(&mut before, 0, &packet)
        );
    }
}
