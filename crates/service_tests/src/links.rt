//! Links files of both versions, and the first fault of each.

use rohc_concentrator::{CidRange, LinkSetting};
use rohc_context::{Mode, Settings};
use rohc_frame::CidKind;
use rohc_links::{Key, LinksFault, Ports, read_links};
use std::alloc::Global;
use std::fmt::InlineText;
use std::process::Abort;

const FIRST: &str = "version = 1
[[link]]
number = 1
cid = \"small\"
max_cid = 15
mode = \"O\"
k1 = 2
n1 = 3
k2 = 2
n2 = 3
packet_ms = 20
static_nack_ms = 1000
deliver_port = 6001
feedback_port = 6002
relay_port = 6003
";

const SECOND: &str = "version = 2
[[link]]
number = 4
cid = \"large\"
max_cid = 15
mode = \"O\"
k1 = 2
n1 = 3
k2 = 2
n2 = 3
packet_ms = 20
static_nack_ms = 1000
deliver_port = 6001
feedback_port = 6002
relay_port = 6003
idle_ms = 5000
";

/// What stands behind the second text.
const RANGE: &str = "range = [{ first = 4, last = 7, mode = \"U\" }]";

/// The ports of both texts.
const PORTS: Ports = Ports {
    deliver: 6001,
    feedback: 6002,
    relay: 6003,
};

#[test]
fn reads_both_versions(rt: HostRuntime) {
    let settings = Settings {
        size: CidKind::Small,
        max_cid: 15,
        mode: Mode::O,
        k1: 2,
        n1: 3,
        k2: 2,
        n2: 3,
        packet_ms: 20,
        static_nack_ms: 1000,
        idle_ms: 0,
    };
    let wide = Settings {
        size: CidKind::Large,
        idle_ms: 5000,
        ..settings
    };
    let range = CidRange {
        first: 4,
        last: 7,
        mode: Mode::U,
    };
    compare_links(&rt, rt.alloc(), (FIRST, ""), 1, settings, &[]);
    compare_links(&rt, rt.alloc(), (SECOND, RANGE), 4, wide, &[range]);
}

/// Reads the text of these parts, which has one link with these settings and ranges.
fn compare_links(
    rt: &impl Abort,
    alloc: Global,
    parts: (&str, &str),
    link: u16,
    settings: Settings,
    ranges: &[CidRange],
) {
    let text = joined(rt, alloc, parts);
    let links = read_links(alloc, text.as_str()).expect(rt, "links");
    assert_eq!(rt; links.ports(), [PORTS].as_slice());
    compare_settings(rt, links.settings(), link, settings, ranges);
}

/// Compares the settings of links with these of one.
fn compare_settings(
    rt: &impl Abort,
    found: &[LinkSetting],
    link: u16,
    settings: Settings,
    ranges: &[CidRange],
) {
    let [setting] = found else {
        panic!(rt; "more links than one, or none");
    };
    assert_eq!(rt; (setting.link, setting.settings), (link, settings));
    assert_eq!(rt; setting.ranges.as_slice(), ranges);
}

/// The text of these parts.
fn joined(rt: &impl Abort, alloc: Global, parts: (&str, &str)) -> String {
    let (begin, end) = parts;
    format!(in alloc; "{begin}{end}").expect(rt, "memory")
}

/// Texts in two parts, each with the name of its first fault, and the fault. Entry 0 is none, and a missing key counts
/// as a wrong one.
const FAULTS: [((&str, &str), &str, LinksFault); 11] = [
    (("", "x"), "NotToml", LinksFault::NotToml),
    (("", "version = 3"), "BadVersion", LinksFault::BadVersion),
    (
        ("version = 1\nother = 1\n", "link = 1"),
        "UnknownKey",
        LinksFault::UnknownKey { entry: 0 },
    ),
    (
        ("version = 1\n", "link = [1, {}]"),
        "BadKey",
        LinksFault::BadKey {
            entry: 0,
            key: Key::Link,
        },
    ),
    (
        ("version = 1\n", "[[link]]\nnumber = 65536"),
        "BadKey",
        LinksFault::BadKey {
            entry: 1,
            key: Key::Number,
        },
    ),
    (
        ("version = 1\n", "[[link]]\nnumber = 1\ncid = \"Small\""),
        "BadKey",
        LinksFault::BadKey {
            entry: 1,
            key: Key::Cid,
        },
    ),
    (
        (FIRST, "idle_ms = 0"),
        "UnknownKey",
        LinksFault::UnknownKey { entry: 1 },
    ),
    (
        (FIRST, "[[link]]\nother = 1"),
        "UnknownKey",
        LinksFault::UnknownKey { entry: 2 },
    ),
    (
        (FIRST, "[[link]]\nnumber = 2\ncid = \"large\""),
        "BadKey",
        LinksFault::BadKey {
            entry: 2,
            key: Key::MaxCid,
        },
    ),
    (
        (SECOND, "range = [{ first = 4, last = 7 }]"),
        "BadKey",
        LinksFault::BadKey {
            entry: 1,
            key: Key::Range,
        },
    ),
    (
        (SECOND, "range = true"),
        "BadKey",
        LinksFault::BadKey {
            entry: 1,
            key: Key::Range,
        },
    ),
];

#[test]
fn tells_the_first_fault(rt: HostRuntime) {
    for (parts, name, fault) in FAULTS {
        compare_name(&rt, &fault, name);
        compare_fault(&rt, rt.alloc(), parts, fault);
    }
    compare_name(&rt, &LinksFault::NoMemory, "NoMemory");
}

/// Compares the fault of the text of these parts with this one.
fn compare_fault(rt: &impl Abort, alloc: Global, parts: (&str, &str), fault: LinksFault) {
    let text = joined(rt, alloc, parts);
    assert_eq!(rt;
        read_links(alloc, text.as_str()).err(),
        Some(fault),
        "at {text}"
    );
}

#[test]
fn a_file_may_have_no_links(rt: HostRuntime) {
    for text in ["version = 1", "version = 2\nlink = []"] {
        let links = read_links(rt.alloc(), text).expect(&rt, "links");
        assert!(rt; links.settings().is_empty());
    }
}

/// Compares the name of a fault, and what is shown of it, with this name.
fn compare_name(rt: &impl Abort, fault: &LinksFault, name: &str) {
    assert_eq!(rt; fault.name(), name);
    assert_eq!(rt; InlineText::<16>::of(fault).as_str(), name);
}
