//! The table of checks, from any register, and of the Internet checksum.

use crate::text::{NoAnswer, read_octet, read_octets};
use rohc_checks::{crc3, crc7, crc8, internet_sum};
use std::alloc::Global;

/// Answers a question. The columns are the check's width, the register from which it starts, and
/// the octets. The Internet checksum has `sum` in place of a width, and no register.
pub(crate) fn answer(alloc: Global, columns: &[&str]) -> Result<String, NoAnswer> {
    let [width, register, octets] = *columns else {
        return Err(NoAnswer::Unreadable);
    };
    let octets = read_octets(alloc, octets)?;
    if width == "sum" {
        let sum = internet_sum(&octets);
        return Ok(format!(in alloc; "{sum:04x}")?);
    }
    let check = check(width, read_octet(alloc, register)?, &octets)?;
    Ok(format!(in alloc; "{check:02x}")?)
}

/// The check of this width.
fn check(width: &str, register: u8, octets: &[u8]) -> Result<u8, NoAnswer> {
    match width {
        "3" => Ok(crc3(register, octets)),
        "7" => Ok(crc7(register, octets)),
        "8" => Ok(crc8(register, octets)),
        _ => Err(NoAnswer::Unreadable),
    }
}
