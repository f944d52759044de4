//! The table of rebuilt headers, their checks, and the registers after their static octets.

use crate::text::{NoAnswer, Words, read_octets, spell};
use rohc_header::{Dynamic, Header, Static};
use std::alloc::Global;

/// Answers a question. The columns are the static fields, the dynamic fields, and the payload's
/// length. The answer is the header, its 3-bit and its 7-bit check, and the registers of both.
pub(crate) fn answer(alloc: Global, columns: &[&str]) -> Result<String, NoAnswer> {
    let [fixed, moving, payload_len] = *columns else {
        return Err(NoAnswer::Unreadable);
    };
    let fixed = read_static(alloc, fixed)?;
    let moving = read_dynamic(moving)?;
    if moving.payload_type >= 128 {
        return Err(NoAnswer::OutsideConditions);
    }
    match Header::build(&fixed, &moving, payload_len.parse()?) {
        Some(header) => parts(alloc, &header),
        None => Ok(String::from_str(alloc, "none")?),
    }
}

/// A header's octets, checks and registers.
fn parts(alloc: Global, header: &Header) -> Result<String, NoAnswer> {
    let octets = spell(alloc, &header.octets)?;
    let (check3, check7) = (header.check3(), header.check7());
    let (register3, register7) = header.registers();
    Ok(format!(in alloc; "{octets}\t{check3:x}\t{check7:02x}\t{register3:x}\t{register7:02x}")?)
}

fn read_static(alloc: Global, column: &str) -> Result<Static, NoAnswer> {
    let mut values = Words::of(column);
    Ok(Static {
        source: read_address(alloc, values.text()?)?,
        destination: read_address(alloc, values.text()?)?,
        source_port: values.word()?,
        destination_port: values.word()?,
        ssrc: values.quad()?,
    })
}

/// The dynamic fields of a header whose fields are all zero.
const ZERO: Dynamic = Dynamic {
    tos: 0,
    ttl: 0,
    id: 0,
    df: false,
    rnd: false,
    nbo: false,
    udp_sum: 0,
    padding: false,
    extension: false,
    marker: false,
    payload_type: 0,
    sn: 0,
    ts: 0,
    stride: None,
};

/// The fields of IP and UDP.
fn read_ip(values: &mut Words<'_>) -> Result<Dynamic, NoAnswer> {
    Ok(Dynamic {
        tos: values.octet()?,
        ttl: values.octet()?,
        id: values.word()?,
        df: values.flag()?,
        rnd: values.flag()?,
        nbo: values.flag()?,
        udp_sum: values.word()?,
        ..ZERO
    })
}

/// The fields of RTP, behind these of IP and UDP.
fn read_rtp(values: &mut Words<'_>, front: Dynamic) -> Result<Dynamic, NoAnswer> {
    Ok(Dynamic {
        padding: values.flag()?,
        extension: values.flag()?,
        marker: values.flag()?,
        payload_type: values.octet()?,
        sn: values.word()?,
        ts: values.quad()?,
        stride: values.optional_quad()?,
        ..front
    })
}

fn read_dynamic(column: &str) -> Result<Dynamic, NoAnswer> {
    let mut values = Words::of(column);
    let front = read_ip(&mut values)?;
    read_rtp(&mut values, front)
}

/// An address, in hexadecimal digits.
fn read_address(alloc: Global, text: &str) -> Result<[u8; 4], NoAnswer> {
    match *read_octets(alloc, text)? {
        [a, b, c, d] => Ok([a, b, c, d]),
        _ => Err(NoAnswer::Unreadable),
    }
}
