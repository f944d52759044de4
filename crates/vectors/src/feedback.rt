//! The table of feedback elements, written and read.

ghost use Rattle.std.specs.Prelude.{◌≡◌};
ghost use Rattle.rohc_frame.specs.Header as frame;

use crate::framing::cid_kind;
use crate::text::{NoAnswer, Words, read_octets, spell};
use rohc_feedback::{Element, Reading, Word, ack, nack, plain_ack, read, static_nack};
use rohc_frame::CidKind;
use std::alloc::{AllocError, Global};

/// Answers a question. The columns are the CID kind, and a call with its arguments: a CID and
/// perhaps a sequence number, or for `read` an element.
pub(crate) fn answer(alloc: Global, columns: &[&str]) -> Result<String, NoAnswer> {
    let [kind, call] = *columns else {
        return Err(NoAnswer::Unreadable);
    };
    let size = cid_kind(kind)?;
    let mut words = Words::of(call);
    let name = words.text()?;
    if name == "read" {
        let text = read_octets(alloc, words.text()?)?;
        return Ok(meaning(alloc, read(size, &text))?);
    }
    let element = element(size, name, &mut words)?;
    Ok(spell(alloc, &element)?)
}

/// The element that the function of this name writes.
fn element(size: CidKind, name: &str, words: &mut Words<'_>) -> Result<Element, NoAnswer> {
    let cid: u16 = words.text()?.parse()?;
    if cid > size.greatest_cid() {
        return Err(NoAnswer::OutsideConditions);
    }
    match name {
        "ack" => Ok(ack(size, cid, words.text()?.parse()?)),
        "nack" => Ok(nack(size, cid, number(words.text()?)?)),
        "static_nack" => Ok(static_nack(size, cid)),
        "plain_ack" => Ok(plain_ack(size, cid)),
        _ => Err(NoAnswer::Unreadable),
    }
}

/// A sequence number, or `-` for none.
fn number(text: &str) -> Result<Option<u16>, NoAnswer> {
    match text {
        "-" => Ok(None),
        number => Ok(Some(number.parse()?)),
    }
}

/// The CID, the kind of feedback and the number that were read, or `none`.
fn meaning(alloc: Global, reading: Option<Reading>) -> Result<String, AllocError> {
    let Some(Reading { cid, word, sn }) = reading else {
        return String::from_str(alloc, "none");
    };
    let word = word_name(word);
    match sn {
        Some(sn) => format!(in alloc; "{cid} {word} {sn}"),
        None => format!(in alloc; "{cid} {word} -"),
    }
}

/// The name of a kind of feedback.
fn word_name(word: Word) -> &'static str {
    match word {
        Word::Ack => "Ack",
        Word::Nack => "Nack",
        Word::StaticNack => "StaticNack",
        Word::Plain => "Plain",
    }
}
