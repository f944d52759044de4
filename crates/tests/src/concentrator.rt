//! Each public call of the concentrator once, and idle records.

mod links;
mod padded;

use crate::call::SETTINGS;
use crate::examples::WHOLE_IR;
use arrayvec::ArrayVec;
use rohc_concentrator::{
    Answer, CidRange, Concentrator, LinkRecords, LinkSetting, NoLink, SetupFault,
};
use rohc_context::{Mode, Outcome, Profile, Refusal, Settings};
use std::alloc::{AllocError, Global};
use std::fmt::InlineText;
use std::process::Abort;

/// Link 1 of the worked examples, with this `idle_ms`.
pub(crate) fn link_1(idle_ms: u32) -> LinkSetting {
    LinkSetting {
        link: 1,
        settings: Settings {
            idle_ms,
            ..SETTINGS
        },
        ranges: ArrayVec::new(),
    }
}

/// The outcome of a packet on link 1, if it has a CID.
pub(crate) fn outcome(
    concentrator: &mut Concentrator,
    moment: u64,
    packet: &[u8],
) -> Option<Outcome> {
    match concentrator.arrive(1, moment, packet) {
        Answer::Arrived { reply, .. } => Some(reply.outcome),
        Answer::OnlyFront { .. } | Answer::Refused(_) => None,
    }
}

/// The concentrator with this link alone.
pub(crate) fn made(rt: &impl Abort, alloc: Global, setting: LinkSetting) -> Concentrator {
    Concentrator::new(alloc, &[setting]).expect(rt, "a concentrator")
}

/// A packet of link 1: its time, its octets and its outcome.
type Arrival = (u64, &'static [u8], Outcome);

/// Compares the outcomes of these packets, which arrive one after the other.
fn compare_outcomes(rt: &impl Abort, concentrator: &mut Concentrator, arrivals: &[Arrival]) {
    for (moment, packet, wanted) in arrivals {
        assert_eq!(rt;
            outcome(concentrator, *moment, packet),
            Some(*wanted),
            "of {packet:?}"
        );
    }
}

const DELIVERED: Outcome = Outcome::Delivered;

const NO_CONTEXT: Outcome = Outcome::Refused(Refusal::NoContext);

const UNFIT: Outcome = Outcome::Refused(Refusal::Check);

/// A UO-0, an IR with a wrong check and an IR, each with whether there is a record after it.
const COMING: [(Arrival, bool); 3] = [
    ((0, b"\x10\xac", NO_CONTEXT), false),
    ((0, b"\xfc\x00\xb8\x45\xaa", UNFIT), false),
    ((0, b"\xfc\x00\xb7\x45\xaa", DELIVERED), true),
];

#[test]
fn a_record_comes_and_goes(rt: HostRuntime) {
    let mut concentrator = made(&rt, rt.alloc(), link_1(0));
    for (arrival, stands) in COMING {
        compare_outcomes(&rt, &mut concentrator, &[arrival]);
        assert_eq!(rt; concentrator.has_context(1, 0), stands);
    }
    assert_eq!(rt; concentrator.reset(1), Ok(()));
    assert!(rt; !concentrator.has_context(1, 0));
    assert_eq!(rt; concentrator.reset(9), Err(NoLink));
    let shown = InlineText::<32>::of(&NoLink);
    assert_eq!(rt; shown.as_str(), "there is no such link");
}

/// The CID and the outcome of a context's answer.
fn cid_and_outcome(answer: &Answer<'_>) -> Option<(u16, Outcome)> {
    match answer {
        Answer::Arrived { cid, reply, .. } => Some((*cid, reply.outcome)),
        Answer::OnlyFront { .. } | Answer::Refused(_) => None,
    }
}

#[test]
fn an_answer_overwrites_the_one_that_is_lent(rt: HostRuntime) {
    let mut concentrator = made(&rt, rt.alloc(), link_1(0));
    let mut answer = Answer::blank();
    assert_eq!(rt; cid_and_outcome(&answer), Some((0, NO_CONTEXT)));
    concentrator.arrive_into(1, 0, b"\xfc\x00\xb7\x45\xaa", &mut answer);
    assert_eq!(rt; cid_and_outcome(&answer), Some((0, DELIVERED)));
    concentrator.arrive_into(9, 0, b"\xfc\x00\xb7\x45\xaa", &mut answer);
    assert!(rt; matches!(answer, Answer::Refused(Refusal::NoLink)));
    concentrator.arrive_into(1, 0, b"\x45\xab", &mut answer);
    assert_eq!(rt; cid_and_outcome(&answer), Some((0, DELIVERED)));
}

#[test]
fn a_packet_is_taken_first_or_later(rt: HostRuntime) {
    let mut concentrator = made(&rt, rt.alloc(), link_1(0));
    let mut answer = Answer::blank();
    assert!(rt; concentrator.take_first(1, 0, WHOLE_IR).is_none());
    concentrator.take_later(1, 0, WHOLE_IR, &mut answer);
    assert_eq!(rt; cid_and_outcome(&answer), Some((0, DELIVERED)));
    let Some((cid, packet)) = concentrator.take_first(1, 0, b"\x10\xac") else {
        panic!(rt; "left for later");
    };
    assert_eq!(rt;
        (cid, packet.head.len(), packet.payload),
        (0, 40, b"\xac".as_slice())
    );
}

// RFC 3095 5.10.2: a Normal packet is delivered without its Add-CID octet.
#[test]
fn a_normal_packet_is_taken_later(rt: HostRuntime) {
    let mut concentrator = made(&rt, rt.alloc(), link_1(0));
    let mut answer = Answer::blank();
    concentrator.arrive_into(1, 0, b"\xe1\xfc\x00\x30\x45\xaa", &mut answer);
    assert_eq!(rt; cid_and_outcome(&answer), Some((1, DELIVERED)));
    let normal = b"\xe1\x45\xab";
    assert!(rt; concentrator.take_first(1, 0, normal).is_none());
    concentrator.take_later(1, 0, normal, &mut answer);
    let Answer::Arrived { cid: 1, reply, .. } = &answer else {
        panic!(rt; "refused");
    };
    let Some(packet) = &reply.packet else {
        panic!(rt; "no packet");
    };
    assert_eq!(rt; packet.head.as_slice(), [0x45].as_slice());
    assert_eq!(rt; packet.payload, [0xab].as_slice());
}

/// Packets of two CIDs, of which the greater comes first.
const OUT_OF_ORDER: [Arrival; 6] = [
    (0, b"\xe1\xfc\x00\x30\x45\xaa", DELIVERED),
    (0, b"\xfc\x00\xb7\x45\xaa", DELIVERED),
    (1, b"\xe1\x45\xab", DELIVERED),
    (1, b"\x45\xab", DELIVERED),
    (1, b"\xe1\x45\xab", DELIVERED),
    (1, b"\x45\xab", DELIVERED),
];

/// Packets of the same CIDs, which have no record.
const WITHOUT_RECORDS: [Arrival; 2] = [
    (2, b"\xe1\x45\xab", NO_CONTEXT),
    (2, b"\x45\xab", NO_CONTEXT),
];

#[test]
fn records_out_of_order_are_found(rt: HostRuntime) {
    let mut concentrator = made(&rt, rt.alloc(), link_1(0));
    compare_outcomes(&rt, &mut concentrator, &OUT_OF_ORDER);
    assert_eq!(rt; concentrator.reset(1), Ok(()));
    compare_outcomes(&rt, &mut concentrator, &WITHOUT_RECORDS);
}

/// A record is made, and is asked for 5,000 milliseconds later and then 4,999 milliseconds later.
const IDLE: [Arrival; 3] = [
    (1000, b"\xfc\x00\xb7\x45\xaa", DELIVERED),
    (6000, b"\x45\xaa", NO_CONTEXT),
    (5999, b"\x45\xaa", DELIVERED),
];

#[test]
fn an_idle_record_counts_as_none(rt: HostRuntime) {
    let mut concentrator = made(&rt, rt.alloc(), link_1(5000));
    for arrival in IDLE {
        compare_outcomes(&rt, &mut concentrator, &[arrival]);
        assert!(rt; concentrator.has_context(1, 0));
    }
}

/// Packets of links and CIDs for which there is no context to be seen: of another link, of another CID, and an IR.
const NOT_SEEN: [(u16, &[u8]); 3] = [
    (2, b"\xe1\x45\xab"),
    (1, b"\xe2\x45\xab"),
    (1, b"\xe1\xfc\x00"),
];

#[test]
fn a_context_is_seen_ahead(rt: HostRuntime) {
    let mut concentrator = made(&rt, rt.alloc(), link_1(0));
    let packets: [(&[u8], usize); 2] = [(b"\xe1\x45\xab", 0), (b"\x45\xab", 1)];
    for (packet, _) in packets {
        assert!(rt; concentrator.context_ahead(1, packet).is_none());
    }
    compare_outcomes(&rt, &mut concentrator, &IRS);
    for (packet, wanted) in packets {
        let seen = concentrator.context_ahead(1, packet);
        assert_eq!(rt;
            seen.map(|(place, context)| (place, context.profile())),
            Some((wanted, Profile::Uncompressed))
        );
    }
    for (link, packet) in NOT_SEEN {
        assert!(rt; concentrator.context_ahead(link, packet).is_none());
    }
}

/// IRs of CID 1, of CID 0 and again of CID 1.
const IRS: [Arrival; 3] = [
    (0, b"\xe1\xfc\x00\x30\x45\xaa", DELIVERED),
    (0, b"\xfc\x00\xb7\x45\xaa", DELIVERED),
    (0, b"\xe1\xfc\x00\x30\x45\xaa", DELIVERED),
];

#[test]
fn tables_keep_the_order_of_first_records(rt: HostRuntime) {
    let mut concentrator = made(&rt, rt.alloc(), link_1(0));
    compare_outcomes(&rt, &mut concentrator, &IRS);
    let tables = concentrator.tables();
    assert_eq!(rt; tables.len(), 1);
    for (link, records) in tables {
        assert_eq!(rt; *link, 1);
        compare_cids(&rt, records, &[1, 0]);
    }
}

/// Compares the CIDs of a link's records, in their order.
fn compare_cids(rt: &impl Abort, records: &LinkRecords, wanted: &[u16]) {
    assert_eq!(rt; records.contexts.len(), wanted.len());
    for (cid, wanted_cid) in records.contexts.keys().zip(wanted) {
        assert_eq!(rt; cid, wanted_cid);
    }
}

#[test]
fn places_keep_the_order_of_first_records(rt: HostRuntime) {
    let mut concentrator = made(&rt, rt.alloc(), link_1(0));
    compare_outcomes(&rt, &mut concentrator, &IRS);
    for (place, wanted) in [(0, Some(1)), (1, None)] {
        assert_eq!(rt; concentrator.link_at(place), wanted);
    }
    for (link, place, wanted) in [(1, 0, Some(1)), (1, 1, Some(0)), (1, 2, None), (2, 0, None)] {
        let stands = concentrator.context_at(link, place);
        assert_eq!(rt; stands.map(|(cid, _context)| cid), wanted);
    }
}

/// Packets of examples *fall to Static* and *fall to No Context*, and how many outcomes the two windows hold after each.
/// The outcome of a packet that changes the state is in neither window.
const OUTCOMES: [(Arrival, (u8, u8)); 7] = [
    ((0, WHOLE_IR, DELIVERED), (0, 0)),
    ((0, b"\x11\xac", UNFIT), (1, 0)),
    // To Static Context.
    ((0, b"\x11\xac", UNFIT), (0, 0)),
    ((0, b"\xd4\xc3\x3f\xad", UNFIT), (1, 1)),
    // To Full Context.
    ((0, b"\xd4\xc3\x3e\xad", DELIVERED), (0, 0)),
    ((0, b"\x11\xac", UNFIT), (1, 0)),
    ((0, WHOLE_IR, DELIVERED), (2, 0)),
];

/// How many outcomes the windows of the first record of link 1 hold.
fn window_lengths(concentrator: &Concentrator) -> Option<(u8, u8)> {
    let (_, context) = concentrator.context_at(1, 0)?;
    let (first, second) = context.windows()?;
    Some((first.length, second.length))
}

#[test]
fn a_change_of_state_is_no_outcome(rt: HostRuntime) {
    let mut concentrator = made(&rt, rt.alloc(), link_1(0));
    for (arrival, wanted) in OUTCOMES {
        compare_outcomes(&rt, &mut concentrator, &[arrival]);
        assert_eq!(rt;
            window_lengths(&concentrator),
            Some(wanted),
            "of {arrival:?}"
        );
    }
}

/// Link 1 with a range of CIDs in U mode.
fn link_1_with(range: CidRange) -> LinkSetting {
    let mut setting = link_1(0);
    let _ = setting.ranges.try_push(range);
    setting
}

/// The CIDs 4 to 7, in U mode.
const RANGE: CidRange = CidRange {
    first: 4,
    last: 7,
    mode: Mode::U,
};

/// Whether feedback is sent for a packet of link 1, if it has a CID.
fn has_feedback(concentrator: &mut Concentrator, packet: &[u8]) -> Option<bool> {
    match concentrator.arrive(1, 0, packet) {
        Answer::Arrived { reply, .. } => Some(reply.feedback.is_some()),
        Answer::OnlyFront { .. } | Answer::Refused(_) => None,
    }
}

#[test]
fn a_range_has_its_own_mode(rt: HostRuntime) {
    let setting = link_1_with(RANGE);
    assert!(rt; setting.is_good());
    for (cid, mode) in [(3, Mode::O), (4, Mode::U), (7, Mode::U), (8, Mode::O)] {
        assert_eq!(rt; setting.settings_of(cid).mode, mode, "of {cid}");
    }
    let mut concentrator = made(&rt, rt.alloc(), setting);
    for (packet, answered) in [
        (b"\xe5\xfc\x00\xf2\x45\xaa", false),
        (b"\xe1\xfc\x00\x30\x45\xaa", true),
    ] {
        assert_eq!(rt; has_feedback(&mut concentrator, packet), Some(answered));
    }
}

/// The faults, and their names.
const FAULTS: [(SetupFault, &str); 5] = [
    (SetupFault::NoLinks, "NoLinks"),
    (SetupFault::TooManyLinks, "TooManyLinks"),
    (SetupFault::BadSetting { place: 2 }, "BadSetting"),
    (SetupFault::DuplicateLink { place: 2 }, "DuplicateLink"),
    (SetupFault::NoMemory, "NoMemory"),
];

#[test]
fn setup_faults_show_their_names(rt: HostRuntime) {
    for (fault, name) in FAULTS {
        assert_eq!(rt; fault.name(), name);
        assert_eq!(rt; InlineText::<16>::of(&fault).as_str(), name);
    }
}

/// The settings of 257 links.
fn many_links(alloc: Global) -> Result<Vec<LinkSetting>, AllocError> {
    let mut many = Vec::new(alloc);
    for link in 0..257 {
        many.push(LinkSetting { link, ..link_1(0) })?;
    }
    Ok(many)
}

#[test]
fn setup_faults(rt: HostRuntime) {
    let wrong = LinkSetting {
        settings: Settings {
            k1: 4,
            ..link_1(0).settings
        },
        ..link_1(0)
    };
    let mut touching = link_1_with(RANGE);
    let second = CidRange { first: 7, ..RANGE };
    assert!(rt; touching.ranges.try_push(second).is_ok());
    let many = many_links(rt.alloc()).expect(&rt, "memory");
    let faults: [(&[LinkSetting], SetupFault); 5] = [
        (&[], SetupFault::NoLinks),
        (many.as_slice(), SetupFault::TooManyLinks),
        (&[link_1(0), wrong], SetupFault::BadSetting { place: 2 }),
        (&[touching], SetupFault::BadSetting { place: 1 }),
        (
            &[link_1(0), link_1(0)],
            SetupFault::DuplicateLink { place: 2 },
        ),
    ];
    for (settings, fault) in faults {
        assert_eq!(rt; Concentrator::new(rt.alloc(), settings).err(), Some(fault));
    }
}
