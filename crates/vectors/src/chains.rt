//! The table of IR and IR-DYN packets: their content, or why they are refused.

use crate::framing::cid_kind;
use crate::text::{NoAnswer, read_octets, spell};
use rohc_chain::{ChainRefusal, Ir, IrDyn, read_ir, read_ir_dyn};
use rohc_frame::{CidKind, Forward, HeadKind, cut};
use rohc_header::{Dynamic, Static};
use std::alloc::{AllocError, Global};

/// Answers a question. The columns are the CID kind, a packet of one header, and a call.
pub(crate) fn answer(alloc: Global, columns: &[&str]) -> Result<String, NoAnswer> {
    let [kind, packet, call] = *columns else {
        return Err(NoAnswer::Unreadable);
    };
    let packet = read_octets(alloc, packet)?;
    let forward = header(cid_kind(kind)?, &packet)?;
    if call == "read_ir" {
        return ir(alloc, &forward);
    }
    let words: Vec<&str> = call.split_whitespace().collect(alloc)?;
    ir_dyn(alloc, &forward, &words)
}

/// The header of a packet.
fn header(size: CidKind, packet: &[u8]) -> Result<Forward<'_>, NoAnswer> {
    match cut(size, size.greatest_cid(), packet) {
        Ok(framed) => framed.forward.ok_or(NoAnswer::Unreadable),
        Err(_) => Err(NoAnswer::Unreadable),
    }
}

fn ir(alloc: Global, forward: &Forward<'_>) -> Result<String, NoAnswer> {
    let HeadKind::Ir { .. } = forward.kind else {
        return Err(NoAnswer::OutsideConditions);
    };
    match read_ir(forward) {
        Ok(said) => Ok(ir_text(alloc, said)?),
        Err(refusal) => Ok(refusal_text(alloc, refusal)?),
    }
}

/// The answer of `ir_dyn`. The words are the call, and its arguments, each after its name.
fn ir_dyn(alloc: Global, forward: &Forward<'_>, words: &[&str]) -> Result<String, NoAnswer> {
    let [
        _call,
        _profile,
        profile,
        _extension,
        extension,
        _stride,
        stride,
    ] = *words
    else {
        return Err(NoAnswer::Unreadable);
    };
    let profile = profile.parse()?;
    let extension = extension == "1";
    let stride = match stride {
        "-" => None,
        stride => Some(stride.parse()?),
    };
    let HeadKind::IrDyn = forward.kind else {
        return Err(NoAnswer::OutsideConditions);
    };
    if profile > 1 {
        return Err(NoAnswer::OutsideConditions);
    }
    match read_ir_dyn(forward, profile, extension, stride) {
        Ok(said) => Ok(ir_dyn_text(alloc, said)?),
        Err(refusal) => Ok(refusal_text(alloc, refusal)?),
    }
}

fn refusal_text(alloc: Global, refusal: ChainRefusal) -> Result<String, AllocError> {
    format!(in alloc; "{refusal:?}")
}

fn ir_text(alloc: Global, said: Ir<'_>) -> Result<String, AllocError> {
    match said {
        Ir::Plain { packet } => {
            let packet = spell(alloc, packet)?;
            format!(in alloc; "plain {packet}")
        }
        Ir::StaticOnly { fixed } => {
            let fixed = static_text(alloc, fixed)?;
            format!(in alloc; "static {fixed}")
        }
        Ir::Whole {
            fixed,
            moving,
            payload,
        } => {
            let fixed = static_text(alloc, fixed)?;
            let moving = dynamic_text(alloc, moving)?;
            let payload = spell(alloc, payload)?;
            format!(in alloc; "whole {fixed}/{moving}/{payload}")
        }
    }
}

fn ir_dyn_text(alloc: Global, said: IrDyn<'_>) -> Result<String, AllocError> {
    let moving = dynamic_text(alloc, said.moving)?;
    let payload = spell(alloc, said.payload)?;
    format!(in alloc; "dyn {moving}/{payload}")
}

/// The addresses in hexadecimal digits, the ports and the SSRC.
fn static_text(alloc: Global, fixed: Static) -> Result<String, AllocError> {
    let source = spell(alloc, &fixed.source)?;
    let destination = spell(alloc, &fixed.destination)?;
    let source_port = fixed.source_port;
    let destination_port = fixed.destination_port;
    let ssrc = fixed.ssrc;
    format!(in alloc; "{source} {destination} {source_port} {destination_port} {ssrc}")
}

/// The fields of the dynamic chain in the order of their octets, each flag as 0 or 1.
fn dynamic_text(alloc: Global, moving: Dynamic) -> Result<String, AllocError> {
    let ip = ip_text(alloc, moving)?;
    let udp_sum = moving.udp_sum;
    let rtp = rtp_text(alloc, moving)?;
    format!(in alloc; "{ip} {udp_sum} {rtp}")
}

fn ip_text(alloc: Global, moving: Dynamic) -> Result<String, AllocError> {
    let tos = moving.tos;
    let ttl = moving.ttl;
    let id = moving.id;
    let df = u8::from(moving.df);
    let rnd = u8::from(moving.rnd);
    let nbo = u8::from(moving.nbo);
    format!(in alloc; "{tos} {ttl} {id} {df} {rnd} {nbo}")
}

fn rtp_text(alloc: Global, moving: Dynamic) -> Result<String, AllocError> {
    let padding = u8::from(moving.padding);
    let extension = u8::from(moving.extension);
    let marker = u8::from(moving.marker);
    let payload_type = moving.payload_type;
    let sn = moving.sn;
    let ts = moving.ts;
    let stride = stride_text(alloc, moving.stride)?;
    format!(in alloc; "{padding} {extension} {marker} {payload_type} {sn} {ts} {stride}")
}

/// The stride, or `-` if there is none.
fn stride_text(alloc: Global, stride: Option<u32>) -> Result<String, AllocError> {
    match stride {
        Some(stride) => format!(in alloc; "{stride}"),
        None => format!(in alloc; "-"),
    }
}
