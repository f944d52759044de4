//! Reading one line of answers.

ghost use Rattle.std.specs.Prelude.{◌≡◌, ◌≢◌, ℕ, List, ◌++◌, ◌∷◌, ◌<◌, ◌^◌, length, get_or, codes, IfSome, IfNone};
ghost use Rattle.std.specs.Fmt.{decimal};
ghost use Rattle.rohc_context.specs.Refusal.{name_of};
ghost use Rattle.rohc_context.specs.declared.refusal.Refusal.{Refusal};
ghost use Rattle.rohc_context.specs.declared.refusal.Refusal.TheVariants.{Empty};
ghost use Rattle.rohc_totals.specs.Answer.{LinkSays, CallSays, Answer, OfLink, OfCall, IsLinkSays, IsCallSays, IsAnswer, link_says_text, call_text, spelling, link_kind, IsCallKind, TellsLine, IsNoAnswer};

use crate::feedback::feedback_kind;
use crate::field::{is_hex, read_field};
use crate::kind::{AnswerLine, LineKind};
use rohc_context::Refusal;

/// What follows `- - refused `, if the line starts so.
fn after_script(line: &[u8]) -> Option<&[u8]>
    ensures some { IfSome result (λ text. line.entry.now ≡ codes "- - refused " ++ text.now) }
    ensures none { IfNone result ((text : List ℕ) → line.entry.now ≢ codes "- - refused " ++ text) }
{
    match line {
        [
            b'-',
            b' ',
            b'-',
            b' ',
            b'r',
            b'e',
            b'f',
            b'u',
            b's',
            b'e',
            b'd',
            b' ',
            text @ ..,
        ] => Some(text),
        _ => None,
    }
}

/// What follows `- `, if the text starts so.
fn after_dash(text: &[u8]) -> Option<&[u8]>
    ensures some { IfSome result (λ rest. text.entry.now ≡ codes "- " ++ rest.now) }
    ensures none { IfNone result ((rest : List ℕ) → text.entry.now ≢ codes "- " ++ rest) }
{
    match text {
        [b'-', b' ', rest @ ..] => Some(rest),
        _ => None,
    }
}

/// What follows `relay `, if the text starts so.
fn after_relay(text: &[u8]) -> Option<&[u8]>
    ensures some { IfSome result (λ rest. text.entry.now ≡ codes "relay " ++ rest.now) }
    ensures none { IfNone result ((rest : List ℕ) → text.entry.now ≢ codes "relay " ++ rest) }
{
    match text {
        [b'r', b'e', b'l', b'a', b'y', b' ', rest @ ..] => Some(rest),
        _ => None,
    }
}

/// What follows `ip `, if the text starts so.
fn after_ip(text: &[u8]) -> Option<&[u8]>
    ensures some { IfSome result (λ rest. text.entry.now ≡ codes "ip " ++ rest.now) }
    ensures none { IfNone result ((rest : List ℕ) → text.entry.now ≢ codes "ip " ++ rest) }
{
    match text {
        [b'i', b'p', b' ', rest @ ..] => Some(rest),
        _ => None,
    }
}

/// What follows `feedback `, if the text starts so.
fn after_feedback(text: &[u8]) -> Option<&[u8]>
    ensures some { IfSome result (λ rest. text.entry.now ≡ codes "feedback " ++ rest.now) }
    ensures none { IfNone result ((rest : List ℕ) → text.entry.now ≢ codes "feedback " ++ rest) }
{
    match text {
        [
            b'f',
            b'e',
            b'e',
            b'd',
            b'b',
            b'a',
            b'c',
            b'k',
            b' ',
            rest @ ..,
        ] => Some(rest),
        _ => None,
    }
}

/// What follows `refused `, if the text starts so.
fn after_refused(text: &[u8]) -> Option<&[u8]>
    ensures some { IfSome result (λ rest. text.entry.now ≡ codes "refused " ++ rest.now) }
    ensures none { IfNone result ((rest : List ℕ) → text.entry.now ≢ codes "refused " ++ rest) }
{
    match text {
        [b'r', b'e', b'f', b'u', b's', b'e', b'd', b' ', rest @ ..] => Some(rest),
        _ => None,
    }
}

/// The first of these refusals with this name.
fn named_among(refusals: &[Refusal], name: &[u8]) -> Option<Refusal>
    ensures named { IfSome result (λ r. name.now ≡ name_of r) }
    ensures none { IfNone result ((k : ℕ) → k < length refusals.now → name.now ≢ name_of (get_or refusals.now k Empty)) }
{
    for refusal in refusals {
        if refusal.name().as_bytes() == name {
            return Some(*refusal);
        }
    }
    None
}

/// The refusal with this name.
fn refusal_named(name: &[u8]) -> Option<Refusal>
    ensures named { IfSome result (λ r. name.now ≡ name_of r) }
    ensures none { IfNone result ((r : Refusal) → name.now ≢ name_of r) }
{
    named_among(Refusal::all().as_slice(), name)
}

/// The refusal in `refused NAME`.
fn refusal_in(text: &[u8]) -> Option<Refusal>
    ensures named { IfSome result (λ r. text.now ≡ codes "refused " ++ name_of r) }
    ensures none { IfNone result ((r : Refusal) → text.now ≢ codes "refused " ++ name_of r) }
{
    refusal_named(after_refused(text)?)
}

/// The kind of what is said of a link, behind ` - `.
fn read_link_kind(text: &[u8]) -> Option<LineKind>
    ensures says { IfSome result (λ kind. (says : LinkSays) × IsLinkSays says × (text.now ≡ link_says_text says) × (kind ≡ link_kind says)) }
    ensures none { IfNone result ((says : LinkSays) → IsLinkSays says → text.now ≢ link_says_text says) }
{
    if let Some(hex) = after_relay(text) {
        if is_hex(hex) {
            Some(LineKind::Relayed)
        } else {
            None
        }
    } else {
        let refusal = refusal_in(text)?;
        Some(LineKind::Refused(refusal))
    }
}

/// The kind of what is said of a call with this CID, behind the link and the CID.
fn read_call_kind(cid: u16, text: &[u8]) -> Option<LineKind>
    ensures says { IfSome result (λ kind. (says : CallSays) × IsCallSays says × (text.now ≡ call_text says) × IsCallKind cid says kind) }
    ensures none { IfNone result ((says : CallSays) → IsCallSays says → text.now ≢ call_text says) }
{
    if text == b"stored".as_slice() {
        return Some(LineKind::Stored);
    }
    if let Some(hex) = after_ip(text) {
        return if is_hex(hex) {
            Some(LineKind::Delivered)
        } else {
            None
        };
    }
    if let Some(hex) = after_feedback(text) {
        return if is_hex(hex) {
            Some(feedback_kind(cid, hex))
        } else {
            None
        };
    }
    let refusal = refusal_in(text)?;
    Some(LineKind::Refused(refusal))
}

/// What is told of this link, from what stands behind ` - `.
fn read_of_link(link: u16, text: &[u8]) -> Option<AnswerLine>
    ensures tells { IfSome result (TellsLine (decimal link ++ 32 ∷ 45 ∷ 32 ∷ text.now)) }
    ensures none { IfNone result ((says : LinkSays) → IsLinkSays says → text.now ≢ link_says_text says) }
{
    let kind = read_link_kind(text)?;
    Some(AnswerLine {
        link: Some(link),
        cid: None,
        kind,
    })
}

/// What is told of a call of this link, from its CID on.
fn read_of_call(link: u16, text: &[u8]) -> Option<AnswerLine>
    ensures tells { IfSome result (TellsLine (decimal link ++ 32 ∷ text.now)) }
    ensures none { IfNone result ((cid : ℕ) (says : CallSays) → cid < 2 ^ 16 → IsCallSays says → text.now ≢ decimal cid ++ 32 ∷ call_text says) }
{
    let (cid, text) = read_field(text)?;
    let kind = read_call_kind(cid, text)?;
    Some(AnswerLine {
        link: Some(link),
        cid: Some(cid),
        kind,
    })
}

/// What a line of a link or of a call tells.
fn read_numbered(line: &[u8]) -> Option<AnswerLine>
    ensures tells { IfSome result (TellsLine line.now) }
    ensures link { IfNone result ((link : ℕ) (says : LinkSays) → IsAnswer (OfLink link says) → line.now ≢ spelling (OfLink link says)) }
    ensures call { IfNone result ((link cid : ℕ) (says : CallSays) → IsAnswer (OfCall link cid says) → line.now ≢ spelling (OfCall link cid says)) }
{
    let (link, text) = read_field(line)?;
    match after_dash(text) {
        Some(text) => read_of_link(link, text),
        None => read_of_call(link, text),
    }
}

/// What a line that names no link tells, from its last word.
fn read_unnumbered(name: &[u8]) -> Option<AnswerLine>
    ensures tells { IfSome result (TellsLine (codes "- - refused " ++ name.now)) }
    ensures bad { IfNone result (name.now ≢ codes "BadLine") }
    ensures long { IfNone result (name.now ≢ codes "LongLine") }
{
    let kind = if name == b"BadLine".as_slice() {
        LineKind::BadLine
    } else if name == b"LongLine".as_slice() {
        LineKind::LongLine
    } else {
        return None;
    };
    Some(AnswerLine {
        link: None,
        cid: None,
        kind,
    })
}

/// What an answer line tells. Returns `None` exactly if the line is the text of no answer.
pub fn read_answer(line: &[u8]) -> Option<AnswerLine>
    ensures tells { IfSome result (TellsLine line.now) }
    ensures none { IfNone result (IsNoAnswer line.now) }
{
    match after_script(line) {
        Some(name) => read_unnumbered(name),
        None => read_numbered(line),
    }
}
