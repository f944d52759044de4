//! The kind of feedback.

ghost use Rattle.std.specs.Prelude.{◌≡◌, ◌≢◌, ◌⊎◌, ◌/◌, ℕ, List, length, Ok, IsTrue, IsFalse, IfSome, IfNone};
ghost use Rattle.hex.specs.Hex.{decode_of};
ghost use Rattle.rohc_frame.specs.declared.header.CidKind.{CidKind};
ghost use Rattle.rohc_feedback.specs.declared.meaning.Word.{Word};
ghost use Rattle.rohc_totals.specs.declared.kind.LineKind.TheVariants.{OtherFeedback};
ghost use Rattle.rohc_totals.specs.Answer.{IsFeedback, IsElement, kind_of_word};

use crate::kind::LineKind;
use hex::decode_to_slice;
use rohc_feedback::{Word, read};
use rohc_frame::CidKind;

/// The longest element that rohcd writes, in octets.
const LONGEST_ELEMENT: usize = 8;

/// The kind of feedback for this word.
fn kind_of_word(word: Word) -> LineKind
    ensures { result ≡ kind_of_word word }
{
    match word {
        Word::Ack => LineKind::Ack,
        Word::Nack => LineKind::Nack,
        Word::StaticNack => LineKind::StaticNack,
        Word::Plain => LineKind::Plain,
    }
}

/// The word of an element for this CID, on a link of CIDs of this kind.
fn word_on(size: CidKind, cid: u16, element: &[u8]) -> Option<Word>
    ensures word { IfSome result (IsElement cid element.now size) }
    ensures none { IfNone result ((word : Word) → ¬ IsElement cid element.now size word) }
{
    match read(size, element) {
        Some(reading) => {
            if reading.cid == cid {
                Some(reading.word)
            } else {
                None
            }
        }
        None => None,
    }
}

/// The kind of an element for this CID.
fn element_kind(cid: u16, element: &[u8]) -> LineKind
    ensures { ((size : CidKind) × (word : Word) × IsElement cid element.now size word × (result ≡ kind_of_word word))
        ⊎ (result ≡ OtherFeedback) × ((size : CidKind) (word : Word) → ¬ IsElement cid element.now size word) }
{
    if let Some(word) = word_on(CidKind::Small, cid, element) {
        return kind_of_word(word);
    }
    match word_on(CidKind::Large, cid, element) {
        Some(word) => kind_of_word(word),
        None => LineKind::OtherFeedback,
    }
}

/// Reads hex text of twice as many digits. Returns whether it is such a text.
fn decode(hex: &[u8], octets: &mut [u8]) -> bool
    requires { length octets.old ≡ length hex.now / 2 }
    ensures read { IsTrue result → decode_of hex.now ≡ Ok octets.new }
    ensures none { IsFalse result → (other : List ℕ) → decode_of hex.now ≢ Ok other }
{
    decode_to_slice(hex, octets).is_ok()
}

/// The kind of the feedback in hex text, for this CID.
pub(crate) fn feedback_kind(cid: u16, hex: &[u8]) -> LineKind
    ensures { IsFeedback cid hex.now result }
{
    let size = hex.len() / 2;
    if size > LONGEST_ELEMENT {
        return LineKind::OtherFeedback;
    }
    let mut octets = [0; LONGEST_ELEMENT];
    let element = &mut octets[..size];
    if !decode(hex, element) {
        return LineKind::OtherFeedback;
    }
    element_kind(cid, element)
}
