//! Where the newest save is, and where its copy belongs.

ghost use Rattle.std.specs.Prelude.{IfSome};
ghost use Rattle.rohctl_keep.specs.Lines.{AreLines};

use std::str;

/// Where the newest save is, and where its copy belongs.
#[derive(Clone, Copy, PartialEq, Eq)]
pub struct Places<'a> {
    /// The path of the newest save.
    pub latest: &'a str,
    /// The path of the copy.
    pub kept: &'a str,
}

/// The two paths that a gateway answered, each in a line of its own; `None` if the answer is another.
pub fn places_in(answer: &[u8]) -> Option<Places<'_>>
    ensures { IfSome result (λ places. AreLines answer.now places.latest.now places.kept.now) }
{
    let text = str::from_utf8(answer).ok()?;
    let (latest, rest) = text.split_once("\n")?;
    let kept = rest.strip_suffix("\n").unwrap_or(rest);
    if latest.is_empty() || kept.is_empty() || kept.contains("\n") {
        return None;
    }
    Some(Places { latest, kept })
}
