//! The kind of a feedback element.

ghost use Rattle.std.specs.Prelude.{◌≡◌, ◌≢◌, ℕ, List, Option, Some, None, IfSome, IfNone};
ghost use Rattle.rohc_feedback.specs.declared.meaning.Word.{Word};
ghost use Rattle.rohc_feedback.specs.Element.{IsMeaning, octets_of_meaning};
ghost use Rattle.rohc_feedback.specs.declared.meaning.Reading.{Reading};
ghost use Rattle.rohc_counts.specs.Counted.{IsElement};

use rohc_feedback::{Word, read};
use rohc_frame::CidKind;

/// The kind of an element for this CID, on a link of CIDs of this size.
fn word_on(size: CidKind, cid: u16, element: &[u8]) -> Option<Word>
    ensures word { IfSome result (λ word. (m : Reading) × IsMeaning size m
        × (m.cid ≡ cid) × (m.word ≡ word) × (element.now ≡ octets_of_meaning size m)) }
    ensures none { IfNone result ((m : Reading) → IsMeaning size m → m.cid ≡ cid → element.now ≢ octets_of_meaning size m) }
{
    match read(size, element) {
        Some(reading) if reading.cid == cid => Some(reading.word),
        _ => None,
    }
}

/// The kind of an element for this CID.
pub(crate) fn word_of(cid: u16, element: &[u8]) -> Option<Word>
    ensures word { IfSome result (IsElement cid element.now) }
    ensures none { IfNone result ((word : Word) → ¬ IsElement cid element.now word) }
{
    match word_on(CidKind::Small, cid, element) {
        Some(word) => Some(word),
        None => word_on(CidKind::Large, cid, element),
    }
}
