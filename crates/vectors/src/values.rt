//! The table of self-describing values, read and written.

use crate::text::{NoAnswer, read_octets, spell};
use rohc_bits::{read_value, write_value};
use std::alloc::Global;

/// Answers a question. The column is octets to be read, or `write` and a value.
pub(crate) fn answer(alloc: Global, columns: &[&str]) -> Result<String, NoAnswer> {
    let [question] = *columns else {
        return Err(NoAnswer::Unreadable);
    };
    match question.strip_prefix("write ") {
        Some(value) => written(alloc, value.parse()?),
        None => read(alloc, &read_octets(alloc, question)?),
    }
}

/// The value at the start of the octets, and how many encode it; two dashes if there is none.
fn read(alloc: Global, octets: &[u8]) -> Result<String, NoAnswer> {
    match read_value(octets) {
        Some((value, taken)) => Ok(format!(in alloc; "{value}\t{taken}")?),
        None => Ok(String::from_str(alloc, "-\t-")?),
    }
}

/// The shortest encoding of a value, or `none`.
fn written(alloc: Global, value: u32) -> Result<String, NoAnswer> {
    match write_value(value) {
        Some(text) => Ok(spell(alloc, &text)?),
        None => Ok(String::from_str(alloc, "none")?),
    }
}
