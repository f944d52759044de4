//! The table of header fields, decoded from their low bits: intervals, sequence numbers, timestamps
//! and the IP Identification.

use crate::text::{NoAnswer, Words, read_small};
use rohc_bits::Bits;
use rohc_lsb::{
    inferred_ts, interval_value, ip_id, scaled, sn_shift, sn_value, ts_shift, unscaled,
};
use std::alloc::Global;

/// Answers a question. The columns are a call and its arguments, each after its name.
pub(crate) fn answer(alloc: Global, columns: &[&str]) -> Result<String, NoAnswer> {
    let [call, arguments] = *columns else {
        return Err(NoAnswer::Unreadable);
    };
    let mut arguments = Words::of(arguments);
    if call == "sn_value" {
        let (number, steps) = sequence_number(&mut arguments)?;
        return Ok(format!(in alloc; "{number} {steps}")?);
    }
    let value = value(call, &mut arguments)?;
    Ok(format!(in alloc; "{value}")?)
}

/// The result of a call that gives one number.
fn value(call: &str, arguments: &mut Words<'_>) -> Result<u32, NoAnswer> {
    match call {
        "interval_value" => in_interval(arguments),
        "sn_shift" => sequence_shift(arguments),
        "ts_shift" => timestamp_shift(arguments),
        "scaled" => from_scaled(arguments),
        "unscaled" => from_unscaled(arguments),
        "inferred_ts" => from_steps(arguments),
        "ip_id" => identification(arguments),
        _ => Err(NoAnswer::Unreadable),
    }
}

/// Passes the name of the next argument. It is an error if it has another name.
fn pass(arguments: &mut Words<'_>, name: &str) -> Result<(), NoAnswer> {
    if arguments.text()? == name {
        Ok(())
    } else {
        Err(NoAnswer::Unreadable)
    }
}

/// The text of the argument of this name.
fn text<'a>(arguments: &mut Words<'a>, name: &str) -> Result<&'a str, NoAnswer> {
    pass(arguments, name)?;
    arguments.text()
}

/// A number of 32 bits.
fn quad(arguments: &mut Words<'_>, name: &str) -> Result<u32, NoAnswer> {
    pass(arguments, name)?;
    arguments.quad()
}

/// A number of 16 bits.
fn word(arguments: &mut Words<'_>, name: &str) -> Result<u16, NoAnswer> {
    pass(arguments, name)?;
    arguments.word()
}

/// A number of 8 bits.
fn octet(arguments: &mut Words<'_>, name: &str) -> Result<u8, NoAnswer> {
    pass(arguments, name)?;
    arguments.octet()
}

/// How many bits there are, and the number that they stand for; dashes if there are none.
fn optional_bits(arguments: &mut Words<'_>) -> Result<Option<Bits>, NoAnswer> {
    let count = text(arguments, "count")?;
    let value = text(arguments, "bits")?;
    if count == "-" && value == "-" {
        return Ok(None);
    }
    let (count, value): (u8, u32) = (read_small(count)?, value.parse()?);
    if count <= 32 && u64::from(value) < 1 << count {
        Ok(Some(Bits::new(value, count)))
    } else {
        Err(NoAnswer::OutsideConditions)
    }
}

/// The same, with an error if there are none.
fn bits(arguments: &mut Words<'_>) -> Result<Bits, NoAnswer> {
    optional_bits(arguments)?.ok_or(NoAnswer::Unreadable)
}

fn in_interval(arguments: &mut Words<'_>) -> Result<u32, NoAnswer> {
    let reference = quad(arguments, "reference")?;
    let bits = bits(arguments)?;
    let p = quad(arguments, "p")?;
    let width = octet(arguments, "width")?;
    if 1 <= bits.count && bits.count <= width && width <= 32 && u64::from(p) < 1 << bits.count {
        Ok(interval_value(reference, bits, p, width))
    } else {
        Err(NoAnswer::OutsideConditions)
    }
}

fn sequence_shift(arguments: &mut Words<'_>) -> Result<u32, NoAnswer> {
    let k = octet(arguments, "k")?;
    if 1 <= k && k <= 16 {
        Ok(sn_shift(k))
    } else {
        Err(NoAnswer::OutsideConditions)
    }
}

fn timestamp_shift(arguments: &mut Words<'_>) -> Result<u32, NoAnswer> {
    let k = octet(arguments, "k")?;
    if 2 <= k && k <= 32 {
        Ok(ts_shift(k))
    } else {
        Err(NoAnswer::OutsideConditions)
    }
}

/// A sequence number, and its steps from the reference.
fn sequence_number(arguments: &mut Words<'_>) -> Result<(u16, i32), NoAnswer> {
    let reference = word(arguments, "reference")?;
    let shift = quad(arguments, "shift")?;
    let bits = bits(arguments)?;
    if 1 <= bits.count && bits.count <= 16 && shift <= 65_536 {
        Ok(sn_value(reference, shift, bits))
    } else {
        Err(NoAnswer::OutsideConditions)
    }
}

/// The greatest stride of a timestamp.
const GREATEST_STRIDE: u32 = 536_870_911;

fn from_scaled(arguments: &mut Words<'_>) -> Result<u32, NoAnswer> {
    let reference = quad(arguments, "reference")?;
    let stride = quad(arguments, "stride")?;
    let bits = bits(arguments)?;
    if 1 <= stride && stride <= GREATEST_STRIDE && 2 <= bits.count {
        Ok(scaled(reference, stride, bits))
    } else {
        Err(NoAnswer::OutsideConditions)
    }
}

fn from_unscaled(arguments: &mut Words<'_>) -> Result<u32, NoAnswer> {
    let reference = quad(arguments, "reference")?;
    let bits = bits(arguments)?;
    if 2 <= bits.count {
        Ok(unscaled(reference, bits))
    } else {
        Err(NoAnswer::OutsideConditions)
    }
}

fn from_steps(arguments: &mut Words<'_>) -> Result<u32, NoAnswer> {
    let reference = quad(arguments, "reference")?;
    pass(arguments, "stride")?;
    let stride = arguments.optional_quad()?;
    let steps = text(arguments, "steps")?.parse()?;
    Ok(inferred_ts(reference, stride, steps))
}

fn identification(arguments: &mut Words<'_>) -> Result<u32, NoAnswer> {
    let sn = word(arguments, "sn")?;
    let reference_sn = word(arguments, "reference_sn")?;
    let reference_id = word(arguments, "reference_id")?;
    pass(arguments, "nbo")?;
    let nbo = arguments.flag()?;
    let bits = optional_bits(arguments)?;
    if let Some(bits) = bits
        && !(1 <= bits.count && bits.count <= 16)
    {
        return Err(NoAnswer::OutsideConditions);
    }
    Ok(u32::from(ip_id(sn, reference_sn, reference_id, nbo, bits)))
}
