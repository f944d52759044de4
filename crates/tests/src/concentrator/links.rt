//! Links that come, go and change, and records that are forgotten.

use super::{DELIVERED, compare_outcomes, link_1, made};
use rohc_concentrator::{AddFault, ChangeFault, Concentrator, LinkSetting, NoLink};
use rohc_context::Settings;
use rohc_frame::CidKind;
use std::alloc::Global;
use std::process::Abort;

/// An IR of profile 0x0000 for CID 0.
const IR_0: &[u8] = b"\xfc\x00\xb7\x45\xaa";

/// An IR of profile 0x0000 for CID 1.
const IR_1: &[u8] = b"\xe1\xfc\x00\x30\x45\xaa";

/// Link 1 without expiry, and records of the CIDs 0 and 1.
fn with_two_records(rt: &impl Abort, alloc: Global, idle_ms: u32) -> Concentrator {
    let mut concentrator = made(rt, alloc, link_1(idle_ms));
    compare_outcomes(
        rt,
        &mut concentrator,
        &[(0, IR_0, DELIVERED), (50, IR_1, DELIVERED)],
    );
    concentrator
}

/// Link 1 under another number.
fn link(number: u16) -> LinkSetting {
    LinkSetting {
        link: number,
        ..link_1(0)
    }
}

/// Link 1 up to another greatest CID.
fn link_1_up_to(max_cid: u16, size: CidKind) -> LinkSetting {
    let LinkSetting {
        link,
        settings,
        ranges,
    } = link_1(0);
    LinkSetting {
        link,
        settings: Settings {
            size,
            max_cid,
            ..settings
        },
        ranges,
    }
}

/// Compares which of the CIDs 0 and 1 of link 1 have a record.
fn compare_records(rt: &impl Abort, concentrator: &Concentrator, wanted: [bool; 2]) {
    assert_eq!(rt; concentrator.has_context(1, 0), wanted[0]);
    assert_eq!(rt; concentrator.has_context(1, 1), wanted[1]);
}

/// Compares what comes of adding a link with this.
fn compare_adding(
    rt: &impl Abort,
    alloc: Global,
    concentrator: &mut Concentrator,
    setting: LinkSetting,
    wanted: Result<(), AddFault>,
) {
    assert_eq!(rt; concentrator.add_link(alloc, setting), wanted);
}

#[test]
fn links_come(rt: HostRuntime) {
    let mut concentrator = with_two_records(&rt, rt.alloc(), 0);
    let bad = link_1_up_to(16, CidKind::Small);
    let twice = Err(AddFault::DuplicateLink);
    compare_adding(&rt, rt.alloc(), &mut concentrator, link(2), Ok(()));
    compare_adding(&rt, rt.alloc(), &mut concentrator, link(2), twice);
    compare_adding(
        &rt,
        rt.alloc(),
        &mut concentrator,
        bad,
        Err(AddFault::BadSetting),
    );
    compare_records(&rt, &concentrator, [true, true]);
}

#[test]
fn links_go(rt: HostRuntime) {
    let mut concentrator = with_two_records(&rt, rt.alloc(), 0);
    compare_adding(&rt, rt.alloc(), &mut concentrator, link(2), Ok(()));
    compare_adding(&rt, rt.alloc(), &mut concentrator, link(3), Ok(()));
    assert_eq!(rt; concentrator.remove_link(1), Ok(2));
    assert_eq!(rt; concentrator.remove_link(1), Err(NoLink));
    assert_eq!(rt; concentrator.link_at(0), Some(2));
    assert_eq!(rt; concentrator.link_at(1), Some(3));
    compare_adding(&rt, rt.alloc(), &mut concentrator, link(1), Ok(()));
    compare_records(&rt, &concentrator, [false, false]);
    compare_outcomes(&rt, &mut concentrator, &[(60, IR_0, DELIVERED)]);
}

#[test]
fn there_are_at_most_256_links(rt: HostRuntime) {
    let mut concentrator = made(&rt, rt.alloc(), link_1(0));
    for number in 2..257u16 {
        assert_eq!(rt; concentrator.add_link(rt.alloc(), link(number)), Ok(()));
    }
    let many = concentrator.add_link(rt.alloc(), link(257));
    assert_eq!(rt; many, Err(AddFault::TooManyLinks));
}

#[test]
fn a_changed_link_keeps_what_it_can(rt: HostRuntime) {
    let mut concentrator = with_two_records(&rt, rt.alloc(), 0);
    let smaller = link_1_up_to(0, CidKind::Small);
    assert_eq!(rt; concentrator.change_link(link_1(100)), Ok(0));
    compare_records(&rt, &concentrator, [true, true]);
    assert_eq!(rt; concentrator.change_link(smaller), Ok(1));
    compare_records(&rt, &concentrator, [true, false]);
    let bad = concentrator.change_link(link_1_up_to(16, CidKind::Small));
    assert_eq!(rt; bad, Err(ChangeFault::BadSetting));
    assert_eq!(rt; concentrator.change_link(link(2)), Err(ChangeFault::NoLink));
    compare_records(&rt, &concentrator, [true, false]);
    let large = link_1_up_to(16_383, CidKind::Large);
    assert_eq!(rt; concentrator.change_link(large), Ok(1));
    compare_records(&rt, &concentrator, [false, false]);
}

#[test]
fn one_record_is_forgotten(rt: HostRuntime) {
    let mut concentrator = with_two_records(&rt, rt.alloc(), 0);
    assert_eq!(rt; concentrator.forget(1, 0), Ok(1));
    assert_eq!(rt; concentrator.forget(1, 0), Ok(0));
    assert_eq!(rt; concentrator.forget(2, 0), Err(NoLink));
    compare_records(&rt, &concentrator, [false, true]);
    compare_outcomes(&rt, &mut concentrator, &[(60, IR_0, DELIVERED)]);
}

#[test]
fn a_record_expires(rt: HostRuntime) {
    let concentrator = with_two_records(&rt, rt.alloc(), 100);
    let Some((_, context)) = concentrator.context_at(1, 0) else {
        panic!(rt; "no context");
    };
    assert!(rt; !link_1(100).has_expired(context, 99));
    assert!(rt; link_1(100).has_expired(context, 100));
    assert!(rt; !link_1(0).has_expired(context, 100));
}

#[test]
fn expired_records_are_forgotten(rt: HostRuntime) {
    let mut concentrator = with_two_records(&rt, rt.alloc(), 100);
    assert_eq!(rt; concentrator.forget_expired(1, 99), Ok(0));
    assert_eq!(rt; concentrator.forget_expired(1, 149), Ok(1));
    compare_records(&rt, &concentrator, [false, true]);
    assert_eq!(rt; concentrator.forget_expired(1, 150), Ok(1));
    assert_eq!(rt; concentrator.forget_expired(2, 150), Err(NoLink));
    compare_records(&rt, &concentrator, [false, false]);
}
