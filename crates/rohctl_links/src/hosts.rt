//! A hosts file: the processes that take the links, each with its address, its port and its links.

use std::alloc::Global;
use toml::{Table, Value};

/// The port of the datagrams of all links, if the file gives none.
const PORT: u16 = 7000;

/// Where a process is, if the file doesn't say it.
const HERE: &str = "127.0.0.1";

/// The longest name of a process, in octets.
const LONGEST_NAME: usize = 32;

/// What stands before a process.
const ENTRY: &str = "[[process]]";

/// The keys of the top.
const TOP_KEYS: [&str; 2] = ["port", "process"];

/// The keys of a process.
const PROCESS_KEYS: [&str; 4] = ["name", "address", "port", "links"];

/// A range of links that a process takes.
#[derive(Clone, Copy, PartialEq, Eq)]
pub(crate) struct Share {
    first: u16,
    last: u16,
}

impl Share {
    /// Whether the link is one of them.
    pub(crate) fn holds(self, link: u16) -> bool {
        self.first <= link && link <= self.last
    }
}

/// A process that takes links.
#[derive(Drop)]
pub(crate) struct Process<'a> {
    pub(crate) name: &'a str,
    /// Its IPv4 address, if the file gives one.
    pub(crate) given: Option<&'a str>,
    /// The port at which it takes datagrams.
    pub(crate) port: u16,
    /// The links that it takes.
    pub(crate) shares: Vec<Share>,
}

impl<'a> Process<'a> {
    /// Its IPv4 address: without one in the file it is on this host.
    pub(crate) fn address(&self) -> &'a str {
        self.given.unwrap_or(HERE)
    }
}

/// The processes, and the port of the datagrams of all links.
#[derive(Drop)]
pub(crate) struct Hosts<'a> {
    pub(crate) port: u16,
    pub(crate) processes: Vec<Process<'a>>,
}

/// What is wrong with a hosts file.
#[derive(Clone, Copy, PartialEq, Eq)]
pub(crate) enum HostsFault {
    /// A key of the top, or of the process at this place, counted from 1, is missing or wrong.
    BadKey(usize, &'static str),
    /// The links of the process at this place have something at this index that names none.
    BadShare(usize, usize),
    /// There is a key that isn't known, at the top or in the process at this place.
    UnknownKey(usize),
    /// Two processes have one name; the place of the later.
    SameName(usize),
    /// There is no memory.
    NoMemory,
}

/// The line of a process, counted from 1, if the file has each of them behind a line `[[process]]`.
pub(crate) fn line_of(text: &str, place: usize) -> Option<usize> {
    let mut count = 0usize;
    let mut number = 0usize;
    for line in text.split("\n") {
        number = number.saturating_add(1);
        if line.trim() == ENTRY {
            count = count.saturating_add(1);
            if count == place {
                return Some(number);
            }
        }
    }
    None
}

/// A port at the key; `None` if the key is wrong.
fn port_at(table: &Table, key: &str, default: Option<u16>) -> Option<u16> {
    match table.get(key) {
        Some(value) => match u16::try_from(value.as_integer()?) {
            Ok(port) if port > 0 => Some(port),
            _ => None,
        },
        None => default,
    }
}

/// Whether a name may stand in the name of a file.
fn is_name(text: &str) -> bool {
    let is_plain = text.bytes().all(|octet| octet.is_ascii_alphanumeric()
        || octet == b'-'
        || octet == b'_');
    is_plain && !text.is_empty() && text.len() <= LONGEST_NAME
}

/// Whether the text is four numbers below 256 with points between.
pub(crate) fn is_address(text: &str) -> bool {
    let mut count = 0usize;
    for part in text.split(".") {
        let fits = match part.parse::<u8>() {
            Ok(_) => part.len() == 1 || !part.starts_with("0"),
            Err(_) => false,
        };
        if !fits || part.starts_with("+") {
            return false;
        }
        count = count.saturating_add(1);
    }
    count == 4
}

/// The links that a value names: a number, or a text FIRST-LAST.
fn share_in(value: &Value) -> Option<Share> {
    if let Some(number) = value.as_integer() {
        let link = u16::try_from(number).ok()?;
        return Some(Share {
            first: link,
            last: link,
        });
    }
    let (first, last) = value.as_str()?.split_once("-")?;
    let share = Share {
        first: first.parse().ok()?,
        last: last.parse().ok()?,
    };
    if share.first <= share.last {
        Some(share)
    } else {
        None
    }
}

/// The links of a process.
fn shares_in(alloc: Global, table: &Table, place: usize) -> Result<Vec<Share>, HostsFault> {
    let wrong = HostsFault::BadKey(place, "links");
    let Some(value) = table.get("links") else {
        return Err(wrong);
    };
    let Some(values) = value.as_array() else {
        return Err(wrong);
    };
    let mut shares = Vec::new(alloc);
    for (index, value) in values.iter().enumerate() {
        match share_in(value) {
            Some(share) => {
                if shares.push(share).is_err() {
                    return Err(HostsFault::NoMemory);
                }
            }
            None => return Err(HostsFault::BadShare(place, index)),
        }
    }
    Ok(shares)
}

/// The keys of the top, or of the process at this place.
pub(crate) fn keys_at(place: usize) -> &'static [&'static str] {
    if place == 0 { &TOP_KEYS } else { &PROCESS_KEYS }
}

/// The first key of a table that is none of these.
pub(crate) fn unknown_in<'a>(table: &'a Table, keys: &[&'static str]) -> Option<&'a str> {
    for (name, _) in table {
        let mut known = false;
        for key in keys {
            known = known || name.as_str() == *key;
        }
        if !known {
            return Some(name.as_str());
        }
    }
    None
}

/// The table of the top, or of the process at this place.
pub(crate) fn table_at<'a>(table: &'a Table, place: usize) -> Option<&'a Table> {
    match place.checked_sub(1) {
        Some(index) => table.get("process")?.as_array()?.get(index)?.as_table(),
        None => Some(table),
    }
}

/// The name of a process.
fn name_in<'a>(table: &'a Table, place: usize) -> Result<&'a str, HostsFault> {
    let name = match table.get("name") {
        Some(value) => value.as_str(),
        None => None,
    };
    match name {
        Some(name) if is_name(name) => Ok(name),
        _ => Err(HostsFault::BadKey(place, "name")),
    }
}

/// The address of a process, if the file gives one.
fn address_in<'a>(table: &'a Table, place: usize) -> Result<Option<&'a str>, HostsFault> {
    let Some(value) = table.get("address") else {
        return Ok(None);
    };
    match value.as_str() {
        Some(address) if is_address(address) => Ok(Some(address)),
        _ => Err(HostsFault::BadKey(place, "address")),
    }
}

/// The process at a place, counted from 1.
fn process_in<'a>(
    alloc: Global,
    table: &'a Table,
    place: usize,
) -> Result<Process<'a>, HostsFault> {
    if unknown_in(table, keys_at(place)).is_some() {
        return Err(HostsFault::UnknownKey(place));
    }
    let name = name_in(table, place)?;
    let given = address_in(table, place)?;
    let Some(port) = port_at(table, "port", None) else {
        return Err(HostsFault::BadKey(place, "port"));
    };
    let shares = shares_in(alloc, table, place)?;
    Ok(Process {
        name,
        given,
        port,
        shares,
    })
}

/// Whether one of the processes has this name.
fn has_name(processes: &[Process<'_>], name: &str) -> bool {
    for process in processes {
        if process.name == name {
            return true;
        }
    }
    false
}

/// The processes of these entries.
fn processes_in<'a>(alloc: Global, entries: &'a [Value]) -> Result<Vec<Process<'a>>, HostsFault> {
    let mut processes: Vec<Process<'a>> = Vec::new(alloc);
    for entry in entries {
        let place = processes.len().saturating_add(1);
        let Some(table) = entry.as_table() else {
            return Err(HostsFault::BadKey(0, "process"));
        };
        let process = process_in(alloc, table, place)?;
        if has_name(&processes, process.name) {
            return Err(HostsFault::SameName(place));
        }
        if processes.push(process).is_err() {
            return Err(HostsFault::NoMemory);
        }
    }
    Ok(processes)
}

/// The processes of a hosts file.
pub(crate) fn hosts_in<'a>(alloc: Global, table: &'a Table) -> Result<Hosts<'a>, HostsFault> {
    if unknown_in(table, keys_at(0)).is_some() {
        return Err(HostsFault::UnknownKey(0));
    }
    let Some(port) = port_at(table, "port", Some(PORT)) else {
        return Err(HostsFault::BadKey(0, "port"));
    };
    let missing = HostsFault::BadKey(0, "process");
    let Some(value) = table.get("process") else {
        return Err(missing);
    };
    let Some(entries) = value.as_array() else {
        return Err(missing);
    };
    let processes = processes_in(alloc, entries)?;
    if processes.is_empty() {
        return Err(missing);
    }
    Ok(Hosts { port, processes })
}
