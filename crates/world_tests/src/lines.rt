//! Tests of lines that are cut.

use rohc_gateway_file::shortened;

/// A text is cut at a limit, or before a character that the limit is in.
#[test]
fn a_cut_leaves_whole_characters(rt: HostRuntime) {
    for (text, most, front) in [
        ("", 0, ""),
        ("abc", 0, ""),
        ("abc", 2, "ab"),
        ("abc", 3, "abc"),
        ("abc", 4, "abc"),
        ("a\u{e9}b", 2, "a"),
        ("a\u{e9}b", 3, "a\u{e9}"),
        ("\u{2026}", 2, ""),
        ("\u{1f600}z", 3, ""),
        ("\u{1f600}z", 4, "\u{1f600}"),
    ] {
        assert!(rt; shortened(text, most) == front);
    }
}
