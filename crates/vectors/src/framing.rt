//! The table of framing: the one reading of a packet, or the one refusal.

use crate::text::{NoAnswer, read_octets, spell, spell_or};
use rohc_frame::{CidKind, Elements, Forward, Framed, HeadKind, cut};
use std::alloc::{AllocError, Global};

/// Answers a question. The columns are the CID kind, the link's greatest CID, and a packet. The
/// answer is the packet's parts, or the name of its refusal.
pub(crate) fn answer(alloc: Global, columns: &[&str]) -> Result<String, NoAnswer> {
    let [kind, max_cid, packet] = *columns else {
        return Err(NoAnswer::Unreadable);
    };
    let packet = read_octets(alloc, packet)?;
    match cut(cid_kind(kind)?, max_cid.parse()?, &packet) {
        Ok(framed) => Ok(parts(alloc, framed)?),
        Err(refusal) => Ok(format!(in alloc; "{refusal:?}")?),
    }
}

/// The CID kind of this name.
pub(crate) fn cid_kind(name: &str) -> Result<CidKind, NoAnswer> {
    match name {
        "small" => Ok(CidKind::Small),
        "large" => Ok(CidKind::Large),
        _ => Err(NoAnswer::Unreadable),
    }
}

/// A packet's feedback elements, and its header or `none`.
fn parts(alloc: Global, framed: Framed<'_>) -> Result<String, AllocError> {
    let elements = elements(alloc, framed.feedback())?;
    match framed.forward {
        Some(forward) => {
            let header = header(alloc, forward)?;
            format!(in alloc; "{elements}|{header}")
        }
        None => format!(in alloc; "{elements}|none"),
    }
}

/// The data of each element, with a comma between.
fn elements(alloc: Global, elements: Elements<'_>) -> Result<String, AllocError> {
    let mut text = String::new(alloc);
    for octets in elements {
        if !text.is_empty() {
            text.push_str(",")?;
        }
        text.push_str(&spell_or(alloc, octets, "empty")?)?;
    }
    if text.is_empty() {
        text.push_str("no elements")?;
    }
    Ok(text)
}

/// The CID, the kind, the first octet, the CID octets and the rest.
fn header(alloc: Global, forward: Forward<'_>) -> Result<String, AllocError> {
    let cid = forward.cid;
    let kind = kind_name(forward.kind);
    let first = forward.first;
    let cid_octets = spell(alloc, forward.cid_octets)?;
    let rest = spell(alloc, forward.rest)?;
    format!(in alloc; "{cid}|{kind}|{first:02x}|{cid_octets}|{rest}")
}

/// The name of a kind of header; an IR has one name with a dynamic chain and one without.
fn kind_name(kind: HeadKind) -> &'static str {
    match kind {
        HeadKind::Ir { .. } => "Ir",
        HeadKind::IrDyn => "IrDyn",
        HeadKind::Other => "Other",
    }
}
