//! The table of packets of kind Other: their content, or why they are refused.

use crate::text::{NoAnswer, Words, read_octets, spell_or};
use rohc_bits::Bits;
use rohc_forms::{Form, IdBits, Values, read_form};
use rohc_frame::{CidKind, HeadKind, cut};
use std::alloc::{AllocError, Global};

/// Answers a question. The columns are a packet of CID 0 on a link of small CIDs, and whether the
/// Identification is random, packets carry the UDP checksum and a stride is in force. The answer is
/// the packet's content, or the name of its refusal.
pub(crate) fn answer(alloc: Global, columns: &[&str]) -> Result<String, NoAnswer> {
    let [packet, context] = *columns else {
        return Err(NoAnswer::Unreadable);
    };
    let packet = read_octets(alloc, packet)?;
    let mut flags = Words::of(context);
    let rnd = flags.flag()?;
    let udp_sum = flags.flag()?;
    let stride_known = flags.flag()?;
    let Ok(framed) = cut(CidKind::Small, 15, &packet) else {
        return Err(NoAnswer::OutsideConditions);
    };
    let Some(forward) = framed.forward else {
        return Err(NoAnswer::OutsideConditions);
    };
    let HeadKind::Other = forward.kind else {
        return Err(NoAnswer::OutsideConditions);
    };
    match read_form(&forward, rnd, udp_sum, stride_known) {
        Ok(form) => Ok(said(alloc, form)?),
        Err(refusal) => Ok(format!(in alloc; "{refusal:?}")?),
    }
}

/// The content of a packet, with a bar between its parts.
fn said(alloc: Global, form: Form<'_>) -> Result<String, AllocError> {
    let kind = form.kind;
    let sn = bits(alloc, Some(form.sn))?;
    let ts = bits(alloc, form.ts)?;
    let tsc = flag(form.tsc);
    let id = id(alloc, form.id)?;
    let udp_sum = number(alloc, form.udp_sum.map(u32::from))?;
    let marker = flag(Some(form.marker));
    let values = values(alloc, form.values)?;
    let check = form.check;
    let payload = spell_or(alloc, form.payload, "-")?;
    format!(in alloc; "{kind:?}|{sn}|{ts}|{tsc}|{id}|{udp_sum}|{marker}|{values}|{check}|{payload}")
}

/// Bits as their number and their value, or a dash.
fn bits(alloc: Global, bits: Option<Bits>) -> Result<String, AllocError> {
    match bits {
        Some(bits) => {
            let count = bits.count;
            let value = bits.value;
            format!(in alloc; "{count}:{value}")
        }
        None => String::from_str(alloc, "-"),
    }
}

/// A number, or a dash.
fn number(alloc: Global, number: Option<u32>) -> Result<String, AllocError> {
    match number {
        Some(number) => format!(in alloc; "{number}"),
        None => String::from_str(alloc, "-"),
    }
}

/// A flag as 0 or 1, or a dash.
fn flag(flag: Option<bool>) -> &'static str {
    match flag {
        Some(true) => "1",
        Some(false) => "0",
        None => "-",
    }
}

/// What a packet says of the Identification.
fn id(alloc: Global, id: IdBits) -> Result<String, AllocError> {
    match id {
        IdBits::Same => String::from_str(alloc, "same"),
        IdBits::Offset(offset) => {
            let offset = bits(alloc, Some(offset))?;
            format!(in alloc; "offset {offset}")
        }
        IdBits::Whole(id) => format!(in alloc; "whole {id}"),
    }
}

/// The values of an extension 3, or a dash if there is none.
fn values(alloc: Global, values: Option<Values>) -> Result<String, AllocError> {
    let Some(values) = values else {
        return String::from_str(alloc, "-");
    };
    let tos = number(alloc, values.tos.map(u32::from))?;
    let ttl = number(alloc, values.ttl.map(u32::from))?;
    let payload_type = number(alloc, values.payload_type.map(u32::from))?;
    let stride = number(alloc, values.stride)?;
    let padding = flag(values.padding);
    let df = flag(values.df);
    let nbo = flag(values.nbo);
    let rnd = flag(values.rnd);
    let extension = flag(values.extension);
    format!(in alloc; "{tos} {ttl} {payload_type} {stride} {padding} {df} {nbo} {rnd} {extension}")
}
