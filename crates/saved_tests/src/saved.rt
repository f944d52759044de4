//! A saved file that must be read for ever, its faults, other settings, and writers that fail.

use crate::examples::whole_ir;
use arrayvec::ArrayVec;
use rohc_concentrator::{Concentrator, LinkSetting, SetupFault};
use rohc_context::{ContextState, Mode, Settings};
use rohc_frame::CidKind;
use rohc_saved::{
    LinkFault, Restored, SaveFault, SavedFault, restore, restore_link, save, save_link,
};
use std::alloc::{AllocError, Global};
use std::io::{self, Error, ErrorKind, Write};
use std::process::Abort;

// What is saved at 0102030405060709 of link 1 with CID 0, after that IR at 0102030405060708: written by hand from
// docs/FORMATS.md. The last 32 octets are what Python's hashlib.sha256 gives for those before them.
const SAVED: [u8; 122] = [
    0x50, 0x6f, 0x6c, 0x6f, 0x72, 0x6f, 0x77, 0x61, 0x6e, // the name
    0x00, 0x01, // the version
    0x01, 0x02, 0x03, 0x04, 0x05, 0x06, 0x07, 0x09, // the moment of saving
    0x00, 0x01, // one link
    0x00, 0x01, 0x00, 0x00, 0x00, 0x0f, 0x00, 0x01, // its number, small CIDs up to 15, one context
    0x00, 0x00, // CID 0
    0x01, 0x02, 0x03, 0x04, 0x05, 0x06, 0x07, 0x08, // the time of the last accepted packet
    0x03, // Full Context
    0x0a, 0x00, 0x00, 0x01, 0x0a, 0x00, 0x00, 0x02, // the addresses
    0x13, 0x88, 0x13, 0x8a, 0x00, 0x00, 0x00, 0x01, // the ports and the SSRC
    0x00, 0x40, 0x00, 0x01, 0x00, 0x00, 0x00, 0x01, 0x00, 0x00, 0x00, 0xa0, // the numbers of the reference
    0x00, 0x00, 0x00, 0x00, // its payload type, DF, P and X
    0x00, 0x01, 0x00, // RND, NBO, no UDP checksum
    0x01, 0x00, 0x00, 0x00, 0xa0, // a stride of 160
    0x00, // no previous reference
    0x00, 0x00, 0x00, 0x00, 0x00, 0x00, 0x00, 0x00, 0x00, // an empty window
    0x11, 0xcd, 0x82, 0x4e, 0x6a, 0x99, 0x71, 0xf2, 0xef, 0x8d, 0xd9, 0x17, 0x6e, 0x82, 0x3f, 0x00,
    0x55, 0x15, 0x42, 0xcc, 0x63, 0x4e, 0x52, 0xf0, 0x90, 0x03, 0x36, 0x2a, 0x71, 0xbc, 0x8f, 0x24,
];

// A link of this number, with CIDs of this kind up to this one.
fn link(number: u16, size: CidKind, max_cid: u16) -> LinkSetting {
    LinkSetting {
        link: number,
        settings: Settings {
            size,
            max_cid,
            mode: Mode::O,
            k1: 2,
            n1: 3,
            k2: 2,
            n2: 3,
            packet_ms: 20,
            static_nack_ms: 1000,
            idle_ms: 0,
        },
        ranges: ArrayVec::new(),
    }
}

// A writer in memory that fails when its calls are used up.
#[derive(Drop)]
struct Taker {
    text: Vec<u8>,
    calls_left: usize,
}

impl Write for Taker {
    fn write(&mut self, buf: &[u8]) -> io::Result<usize> {
        if self.calls_left == 0 {
            return Err(Error::from(ErrorKind::TimedOut));
        }
        self.calls_left -= 1;
        self.text.extend_from_slice(buf)?;
        Ok(buf.len())
    }

    fn flush(&mut self) -> io::Result<()> {
        if self.calls_left == 0 {
            return Err(Error::from(ErrorKind::TimedOut));
        }
        Ok(())
    }
}

// An empty writer with so many calls.
fn writer(alloc: Global, calls_left: usize) -> Taker {
    Taker {
        text: Vec::new(alloc),
        calls_left,
    }
}

// What is restored under these settings, or the fault.
fn restored(
    alloc: Global,
    settings: &[LinkSetting],
    octets: &[u8],
) -> Result<Restored, SavedFault> {
    match restore(alloc, settings, octets) {
        Ok((_, told)) => Ok(told),
        Err(fault) => Err(fault),
    }
}

// What is told of SAVED under its own settings.
const WHOLE: Restored = Restored {
    moment: 0x0102_0304_0506_0709,
    links: 1,
    unknown_links: 0,
    other_links: 0,
    contexts: 1,
    left_contexts: 0,
    high_contexts: 0,
};

#[test]
fn a_saved_file_is_read_for_ever(rt: HostRuntime) {
    let settings = [link(1, CidKind::Small, 15)];
    let Ok((concentrator, told)) = restore(rt.alloc(), &settings, &SAVED) else {
        panic!(rt; "not restored");
    };
    assert_eq!(rt; told, WHOLE);
    assert!(rt; concentrator.has_context(1, 0));
    let mut writer = writer(rt.alloc(), 100);
    assert_eq!(rt; save(&concentrator, told.moment, &mut writer), Ok(122));
    assert_eq!(rt; writer.text.as_slice(), &SAVED[..]);
}

#[test]
fn a_concentrator_is_saved_as_documented(rt: HostRuntime) {
    let settings = [link(1, CidKind::Small, 15)];
    let Ok(mut concentrator) = Concentrator::new(rt.alloc(), &settings) else {
        panic!(rt; "no concentrator");
    };
    concentrator.arrive(1, 0x0102_0304_0506_0708, whole_ir());
    let mut writer = writer(rt.alloc(), 100);
    assert_eq!(rt;
        save_link(&concentrator, 2, WHOLE.moment, &mut writer),
        Err(SaveFault::NoLink)
    );
    assert_eq!(rt;
        save_link(&concentrator, 1, WHOLE.moment, &mut writer),
        Ok(122)
    );
    assert_eq!(rt; writer.text.as_slice(), &SAVED[..]);
}

// Each octet changed to each other value is refused, and each cut.
#[test]
fn no_change_goes_unseen(rt: HostRuntime) {
    let settings = [link(1, CidKind::Small, 15)];
    for place in 0..SAVED.len() {
        for change in 1..=255u8 {
            let mut octets = SAVED;
            if let Some(octet) = octets.get_mut(place) {
                *octet ^= change;
            }
            assert!(rt; restored(rt.alloc(), &settings, &octets).is_err());
        }
        let wanted = if place < 9 {
            SavedFault::NotSaved
        } else {
            SavedFault::Short { place }
        };
        let Some(front) = SAVED.get(..place) else {
            panic!(rt; "no such place");
        };
        assert_eq!(rt; restored(rt.alloc(), &settings, front), Err(wanted));
    }
}

#[test]
fn faults_have_their_places(rt: HostRuntime) {
    let settings = [link(1, CidKind::Small, 15)];
    let changes: [(usize, u8, SavedFault); 9] = [
        (8, 0x4e, SavedFault::NotSaved),
        (10, 0x02, SavedFault::Version { place: 9 }),
        (23, 0x02, SavedFault::BadLink { place: 23 }),
        (24, 0x01, SavedFault::BadLink { place: 24 }),
        (26, 0x10, SavedFault::BadLink { place: 25 }),
        (30, 0x10, SavedFault::BadOrder { place: 29 }),
        (39, 0x04, SavedFault::BadContext { place: 39 }),
        (68, 0x80, SavedFault::BadContext { place: 68 }),
        (121, 0x00, SavedFault::Digest { place: 90 }),
    ];
    for (place, value, fault) in changes {
        let mut octets = SAVED;
        if let Some(octet) = octets.get_mut(place) {
            *octet = value;
        }
        assert_eq!(rt; restored(rt.alloc(), &settings, &octets), Err(fault));
    }
    let mut longer = [0; 123];
    for (octet, saved) in longer.iter_mut().zip(SAVED) {
        *octet = saved;
    }
    assert_eq!(rt;
        restored(rt.alloc(), &settings, &longer),
        Err(SavedFault::Long { place: 122 })
    );
    assert_eq!(rt;
        restored(rt.alloc(), &[], &longer),
        Err(SavedFault::Settings(SetupFault::NoLinks))
    );
}

// Packets that lead a call of that IR from Full to Static and to No Context, as in the tests of saved contexts.
const CALL: [&[u8]; 6] = [
    b"\x10\xac",
    b"\x11\xac",
    b"\x11\xac",
    b"\x10\xac",
    b"\xc0\x00\x00",
    b"\xc0\x00\x00",
];

// A concentrator with a context of each state: Full on link 1, Static on 2, No Context on 3; and profile 0x0000 for
// CIDs 1 and 0 of link 4.
fn of_each_state(rt: &impl Abort, alloc: Global, settings: &[LinkSetting]) -> Concentrator {
    let mut concentrator = Concentrator::new(alloc, settings).expect(rt, "a concentrator");
    for (number, packets) in [(1, 1), (2, 3), (3, 6)] {
        concentrator.arrive(number, 0, whole_ir());
        for packet in CALL.iter().take(packets) {
            concentrator.arrive(number, 0, packet);
        }
    }
    concentrator.arrive(4, 0, b"\xe1\xfc\x00\x30\x45\xaa");
    concentrator.arrive(4, 0, b"\xfc\x00\xb7\x45\xaa");
    concentrator
}

// The state of the first context of a link.
fn state(concentrator: &Concentrator, number: u16) -> Option<ContextState> {
    let (_, context) = concentrator.context_at(number, 0)?;
    Some(context.state())
}

#[test]
fn each_state_comes_back(rt: HostRuntime) {
    let small = CidKind::Small;
    let settings = [
        link(1, small, 15),
        link(2, small, 15),
        link(3, small, 15),
        link(4, small, 15),
    ];
    let before = of_each_state(&rt, rt.alloc(), &settings);
    assert_eq!(rt; state(&before, 1), Some(ContextState::FullContext));
    assert_eq!(rt; state(&before, 2), Some(ContextState::StaticContext));
    assert_eq!(rt; state(&before, 3), Some(ContextState::NoContext));
    let mut saved = writer(rt.alloc(), 100);
    assert!(rt; save(&before, 7, &mut saved).is_ok());
    let Ok((after, told)) = restore(rt.alloc(), &settings, saved.text.as_slice()) else {
        panic!(rt; "not restored");
    };
    assert_eq!(rt; (told.links, told.contexts), (4, 5));
    for (place, cid) in [(0, Some(1)), (1, Some(0)), (2, None)] {
        assert_eq!(rt; after.context_at(4, place).map(|(cid, _)| cid), cid);
    }
    let mut again = writer(rt.alloc(), 100);
    assert!(rt; save(&after, 7, &mut again).is_ok());
    assert_eq!(rt; again.text, saved.text);
}

#[test]
fn what_other_settings_lack_is_left_out(rt: HostRuntime) {
    let small = CidKind::Small;
    let settings = [
        link(1, small, 15),
        link(2, small, 15),
        link(3, small, 15),
        link(4, small, 15),
    ];
    let before = of_each_state(&rt, rt.alloc(), &settings);
    let mut saved = writer(rt.alloc(), 100);
    assert!(rt; save(&before, 7, &mut saved).is_ok());
    let others = [
        link(4, small, 0),
        link(3, CidKind::Large, 15),
        link(2, small, 15),
    ];
    let told = Restored {
        moment: 7,
        links: 2,
        unknown_links: 1,
        other_links: 1,
        contexts: 2,
        left_contexts: 2,
        high_contexts: 1,
    };
    assert_eq!(rt;
        restored(rt.alloc(), &others, saved.text.as_slice()),
        Ok(told)
    );
}

#[test]
fn a_failed_write_tells_what_was_written(rt: HostRuntime) {
    let settings = [link(1, CidKind::Small, 15)];
    let Ok((concentrator, told)) = restore(rt.alloc(), &settings, &SAVED) else {
        panic!(rt; "not restored");
    };
    for (calls, length) in [(0, 0), (1, 21), (2, 29), (3, 90), (4, 122)] {
        let mut writer = writer(rt.alloc(), calls);
        assert_eq!(rt;
            save(&concentrator, told.moment, &mut writer),
            Err(SaveFault::Write { written: length })
        );
        assert_eq!(rt; Some(writer.text.as_slice()), SAVED.get(..length as usize));
    }
}

// A concentrator with SAVED's link behind another, which has a context of CID 0.
fn beside_another(rt: &impl Abort, alloc: Global) -> Concentrator {
    let settings = [link(2, CidKind::Small, 15), link(1, CidKind::Small, 15)];
    let mut concentrator = Concentrator::new(alloc, &settings).expect(rt, "a concentrator");
    concentrator.arrive(2, 0, whole_ir());
    concentrator
}

#[test]
fn one_link_comes_back_beside_another(rt: HostRuntime) {
    let mut concentrator = beside_another(&rt, rt.alloc());
    assert_eq!(rt;
        restore_link(rt.alloc(), &mut concentrator, 1, &SAVED),
        Ok(WHOLE)
    );
    assert!(rt; concentrator.has_context(2, 0));
    let mut writer = writer(rt.alloc(), 100);
    assert_eq!(rt;
        save_link(&concentrator, 1, WHOLE.moment, &mut writer),
        Ok(122)
    );
    assert_eq!(rt; writer.text.as_slice(), &SAVED[..]);
}

#[test]
fn one_link_has_its_faults_in_order(rt: HostRuntime) {
    let mut concentrator = beside_another(&rt, rt.alloc());
    let Some(cut) = SAVED.get(..20) else {
        panic!(rt; "no such place");
    };
    for (number, octets, fault) in [
        (3, cut, LinkFault::NoLink),
        (2, cut, LinkFault::HasContexts),
        (1, cut, LinkFault::Octets(SavedFault::Short { place: 20 })),
    ] {
        assert_eq!(rt;
            restore_link(rt.alloc(), &mut concentrator, number, octets),
            Err(fault)
        );
    }
    assert!(rt; concentrator.reset(2).is_ok());
    assert_eq!(rt;
        restore_link(rt.alloc(), &mut concentrator, 2, &SAVED),
        Err(LinkFault::OtherLink)
    );
    assert!(rt; concentrator.change_link(link(1, CidKind::Large, 0)).is_ok());
    assert_eq!(rt;
        restore_link(rt.alloc(), &mut concentrator, 1, &SAVED),
        Err(LinkFault::OtherKind)
    );
    assert!(rt; !concentrator.has_context(1, 0));
}
