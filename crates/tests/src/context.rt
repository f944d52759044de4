//! Arrivals of one context, from the worked examples; settings and refusals.

use crate::call::{SETTINGS, answer, first};
use crate::examples::WHOLE_IR;
use rohc_context::{
    Context, ContextState, NotMade, Outcome, Profile, Refusal, Reply, Settings, StateView, Try,
    Untried,
};
use rohc_frame::{CidKind, plain_header};
use std::fmt::InlineText;

const UNFIT: Outcome = Outcome::Refused(Refusal::Check);

const FULL: ContextState = ContextState::FullContext;

const STATIC: ContextState = ContextState::StaticContext;

const LOW: Outcome = Outcome::Refused(Refusal::StateTooLow);

// Examples first UO-0, fall to Static and UOR-2-TS jump.
#[test]
fn a_call_falls_and_is_taken_up_again(rt: HostRuntime) {
    let Some(mut context) = first(0, WHOLE_IR) else {
        panic!(rt; "refused");
    };
    let answers: [(&[u8], Outcome, Option<u8>, Option<u8>, ContextState); 7] = [
        (&[0x10, 0xac], Outcome::Delivered, Some(2), None, FULL),
        (&[0x11, 0xac], UNFIT, None, None, FULL),
        (&[0x11, 0xac], UNFIT, None, Some(0xf4), STATIC),
        (&[0x10, 0xac], LOW, None, None, STATIC),
        (&[0x10, 0xac], LOW, None, Some(0xf4), STATIC),
        (
            &[0xd4, 0xc3, 0x3e, 0xad],
            Outcome::Delivered,
            Some(3),
            Some(0xf4),
            FULL,
        ),
        (WHOLE_IR, Outcome::Delivered, Some(1), Some(0xf4), FULL),
    ];
    assert_eq!(rt; context.profile(), Profile::Rtp);
    for (packet, outcome, sn, feedback, state) in answers {
        assert_eq!(rt; answer(&mut context, packet), Some((outcome, sn, feedback)));
        assert_eq!(rt; context.state(), state);
    }
}

// Examples UOR-2-TS jump and offset bits: packets without an extension 3, each after the first UO-0.
#[test]
fn packets_without_an_extension_3(rt: HostRuntime) {
    let packets: [(&[u8], u8); 3] = [
        (&[0xd4, 0xc3, 0x3e, 0xad], 3),
        (&[0x84, 0x1f, 0xad], 3),
        (&[0xc0, 0x0c, 0xfa, 0x63, 0x64, 0xad], 100),
    ];
    for (packet, sn) in packets {
        let Some(mut context) = first(0, WHOLE_IR) else {
            panic!(rt; "refused");
        };
        assert!(rt; answer(&mut context, &[0x10, 0xac]).is_some());
        let delivered = Some((Outcome::Delivered, Some(sn), None));
        assert_eq!(rt; answer(&mut context, packet), delivered);
    }
}

// Examples first UO-0, UOR-2-TS jump and offset bits: a UO-0 is taken first. A UOR-2 and a UO-1 aren't, and the step
// delivers them. A UO-0 with another check isn't either, and the step refuses it.
#[test]
fn a_uo_0_is_taken_first(rt: HostRuntime) {
    let packets: [(&[u8], Outcome); 4] = [
        (&[0xd4, 0xc3, 0x3e, 0xad], Outcome::Delivered),
        (&[0x84, 0x1f, 0xad], Outcome::Delivered),
        (&[0xc0, 0x0c, 0xfa, 0x63, 0x64, 0xad], Outcome::Delivered),
        (&[0x11, 0xac], UNFIT),
    ];
    for (packet, outcome) in packets {
        let Some(mut context) = first(0, WHOLE_IR) else {
            panic!(rt; "refused");
        };
        let mut reply = Reply::refused(Refusal::NoLink);
        let (Some(uo_0), Some(forward)) = (
            plain_header(CidKind::Small, 15, &[0x10, 0xac]),
            plain_header(CidKind::Small, 15, packet),
        ) else {
            panic!(rt; "no header");
        };
        assert!(rt; context.take_first(0, 0, &uo_0).is_some());
        assert!(rt; context.take_first(0, 0, &forward).is_none());
        context.step(&SETTINGS, 0, &forward, true, &mut reply);
        assert_eq!(rt; reply.outcome, outcome);
    }
}

// In Full Context the second window is empty. The registers are those of headers with the reference's fields.
#[test]
fn what_is_stored_is_lent(rt: HostRuntime) {
    let Some(mut context) = first(0, WHOLE_IR) else {
        panic!(rt; "refused");
    };
    assert!(rt; answer(&mut context, &[0x11, 0xac]).is_some());
    let Some((window, none)) = context.windows() else {
        panic!(rt; "no windows");
    };
    assert_eq!(rt; (window.word, window.length), (1, 1));
    assert_eq!(rt; (none.word, none.length), (0, 0));
    assert!(rt; context.saved().is_some());
}

// A context of profile 0x0000 has neither.
#[test]
fn a_plain_context_lends_nothing(rt: HostRuntime) {
    let Some(context) = first(0, &[0xfc, 0x00, 0xb7, 0x45, 0xaa]) else {
        panic!(rt; "refused");
    };
    assert!(rt; context.windows().is_none());
    assert!(rt; context.saved().is_none());
    assert_eq!(rt; context.profile(), Profile::Uncompressed);
    assert_eq!(rt; (context.state(), context.accepted()), (FULL, 0));
}

// Example whole IR: the view has the time, the sequence number of the reference, and no outcome yet.
#[test]
fn a_context_is_viewed(rt: HostRuntime) {
    let Some(context) = first(7, WHOLE_IR) else {
        panic!(rt; "refused");
    };
    let view = context.view();
    assert_eq!(rt; view.accepted, 7);
    let StateView::Full {
        reference,
        previous,
        window,
        ..
    } = view.state
    else {
        panic!(rt; "not in Full Context");
    };
    assert_eq!(rt; (reference.moving.sn, reference.moving.ts), (1, 160));
    assert!(rt; previous.is_none());
    assert_eq!(rt; (window.word, window.length), (0, 0));
}

/// The sequence number that a packet means by a try, and whether it fits; or why the try isn't made.
type Tried = Result<(u16, bool), NotMade>;

fn tried(one: &Try) -> Tried {
    match &one.result {
        Ok(meant) => Ok((meant.moving.sn, one.fits())),
        Err(reason) => Err(*reason),
    }
}

/// The three tries of a packet at this time, or why none is made.
fn tries(context: &Context, moment: u64, packet: &[u8]) -> Result<[Tried; 3], Untried> {
    let Some(forward) = plain_header(CidKind::Small, 15, packet) else {
        return Err(Untried::Whole);
    };
    let shown = context.tries(&SETTINGS, moment, &forward)?;
    let [first, second, third] = &shown.tries;
    Ok([tried(first), tried(second), tried(third)])
}

// Examples first UO-0 and wrapped SN repaired: a packet fits by the first try, and one by the second, once enough time
// has passed.
#[test]
fn a_packet_fits_by_the_first_or_the_second_try(rt: HostRuntime) {
    let settled = Err(NotMade::Settled);
    let soon = Err(NotMade::TooSoon {
        needed: 320,
        passed: 100,
    });
    let none = Err(NotMade::NoPrevious);
    let Some(context) = first(1000, WHOLE_IR) else {
        panic!(rt; "refused");
    };
    let fits_first = tries(&context, 1000, &[0x10, 0xac]);
    assert!(rt; fits_first == Ok([Ok((2, true)), settled, settled]));
    let too_soon = tries(&context, 1100, &[0x1f, 0xac]);
    assert!(rt; too_soon == Ok([Ok((3, false)), soon, none]));
    let fits_second = tries(&context, 1360, &[0x1f, 0xac]);
    assert!(rt; fits_second == Ok([Ok((3, false)), Ok((19, true)), settled]));
    let untaken = tries(&context, 1000, WHOLE_IR);
    assert!(rt; untaken == Err(Untried::Whole));
}

// Example second reference: a packet fits by the third try, after a damaged one that was accepted.
#[test]
fn a_packet_fits_by_the_third_try(rt: HostRuntime) {
    let soon = Err(NotMade::TooSoon {
        needed: 320,
        passed: 0,
    });
    let Some(mut context) = first(0, WHOLE_IR) else {
        panic!(rt; "refused");
    };
    assert!(rt; answer(&mut context, &[0x10, 0xac]).is_some());
    assert!(rt; answer(&mut context, &[0x6c, 0xad]).is_some());
    let fits_third = tries(&context, 0, &[0x20, 0xae]);
    assert!(rt; fits_third == Ok([Ok((20, false)), soon, Ok((4, true))]));
}

#[test]
fn limits_of_settings(rt: HostRuntime) {
    let long_window = Settings { k1: 4, ..SETTINGS };
    let great_cid = Settings {
        max_cid: 16,
        ..SETTINGS
    };
    for (settings, good) in [(SETTINGS, true), (long_window, false), (great_cid, false)] {
        assert_eq!(rt; settings.is_good(), good);
    }
}

#[test]
fn a_refusal_shows_its_name(rt: HostRuntime) {
    let shown = InlineText::<16>::of(&Refusal::NoContext);
    assert_eq!(rt; shown.as_str(), "NoContext");
}

#[test]
fn names_and_numbers_of_refusals(rt: HostRuntime) {
    assert_eq!(rt; Refusal::Empty.number(), 1);
    assert_eq!(rt; Refusal::NoMemory.number(), 30);
    assert_eq!(rt; Refusal::AddCidOnLarge.name(), "AddCidOnLarge");
}
