//! A group of users.

use std::alloc::{AllocError, Global};
use toml::Value;

/// What the key of a group must be.
pub(crate) const A_GROUP: &str = "the name of a group in quotes, or its number";

/// A number that no group has: to a system's call it means that the group stays (chown(2)).
const NO_GROUP: u32 = u32::MAX;

/// A group of users, as a gateway file names it.
#[derive(Drop)]
pub enum Group {
    /// That of this name.
    Named(String),
    /// That of this number.
    Numbered(u32),
}

/// A number that a group may have.
fn group_number(number: u32) -> Option<u32> {
    if number == NO_GROUP {
        None
    } else {
        Some(number)
    }
}

/// The group that a value names. `None` if it names none.
pub(crate) fn group_of(alloc: Global, value: &Value) -> Result<Option<Group>, AllocError> {
    if let Some(name) = value.as_str() {
        if name.is_empty() {
            return Ok(None);
        }
        return Ok(Some(Group::Named(String::from_str(alloc, name)?)));
    }
    let number = match value.as_integer() {
        Some(number) => u32::try_from(number).ok().and_then(group_number),
        None => None,
    };
    Ok(number.map(Group::Numbered))
}

/// The number of the group of this name on a line of the system's list of groups (group(5)).
fn number_on(line: &str, name: &str) -> Option<u32> {
    let mut fields = line.split(":");
    if fields.next()? != name {
        return None;
    }
    let _password = fields.next()?;
    group_number(fields.next()?.parse::<u32>().ok()?)
}

/// The number of the group of this name in the text of the system's list of groups (group(5)).
pub(crate) fn group_number_in(text: &str, name: &str) -> Option<u32> {
    for line in text.lines() {
        if let Some(number) = number_on(line, name) {
            return Some(number);
        }
    }
    None
}
