//! The gateway file, with the options that win over it.

use crate::command::Options;
use crate::group::{A_GROUP, Group, group_number_in, group_of};
use crate::key_lines::KeyLines;
use crate::link_tables::{LINK_KEYS, LinkNote};
use crate::log::LogFormat;
use indexmap::IndexMap;
use rohc_text::{error_line, nearest_name, write_quoted, write_toml_reason, write_value};
use std::alloc::{AllocError, Global};
use std::io;
use std::io::{ErrorKind, Write};
use toml::{Table, Value};

/// The keys of a gateway file.
const KEYS: [&str; 14] = [
    "links",
    "port",
    "timed_port",
    "state",
    "save_seconds",
    "scratch",
    "stale_ms",
    "control",
    "control_group",
    "metrics_port",
    "log_format",
    "numbered_feedback",
    "receive_buffer",
    "link",
];

/// How many octets of datagrams a socket keeps that wait, unless the gateway file says otherwise: 4 MiB.
const RECEIVE_BUFFER: u32 = 4_194_304;

/// Which numbers a key may have.
#[derive(Clone, Copy)]
struct Range {
    least: u32,
    greatest: u32,
    /// What is expected, in words.
    expected: &'static str,
}

/// The ports.
const PORTS: Range = Range {
    least: 1,
    greatest: 65_535,
    expected: A_PORT,
};

/// The seconds between two saves, up to a day.
const SAVE_SECONDS: Range = Range {
    least: 1,
    greatest: 86_400,
    expected: "a number from 1 to 86400",
};

/// The ages from which on calls are stale.
const STALE: Range = Range {
    least: 0,
    greatest: u32::MAX,
    expected: "a number of milliseconds from 0 to 4294967295",
};

/// What a socket may keep: up to 1 GiB.
const RECEIVED: Range = Range {
    least: 1,
    greatest: 1_073_741_824,
    expected: "a number of octets from 1 to 1073741824",
};

/// From which age on saved calls are stale, in milliseconds, unless the gateway file says otherwise.
const STALE_MS: u32 = 1000;

/// The longest path of a control socket, in octets: the system has room for 107, and it is first bound under a name that
/// is four octets longer.
const LONGEST_SOCKET: usize = 103;

/// What a path must be.
const A_PATH: &str = "a path in quotes";

/// What a port must be.
pub(crate) const A_PORT: &str = "a number from 1 to 65535";

/// What a format of log lines must be.
const A_FORMAT: &str = "\"text\" or \"json\"";

/// What a key must be that is set or isn't.
const A_FLAG: &str = "true or false";

/// What a gateway is to do.
#[derive(Drop)]
pub struct Config {
    /// The links file.
    pub links: Option<String>,
    /// The port for datagrams.
    pub port: Option<u16>,
    /// The port for timed datagrams.
    pub timed_port: Option<u16>,
    /// The file for saved contexts.
    pub state: Option<String>,
    /// How often they are saved while the gateway runs.
    pub save_seconds: Option<u32>,
    /// The folder for these saves; that of the state file if it isn't given.
    pub scratch: Option<String>,
    /// From which age on saved contexts are stale, in milliseconds, if the gateway file says so.
    pub stale_ms: Option<u32>,
    /// The control socket.
    pub control: Option<String>,
    /// The group whose members may open it; otherwise only its owner may.
    pub control_group: Option<Group>,
    /// The port for metrics.
    pub metrics_port: Option<u16>,
    /// The format of log lines.
    pub log_format: LogFormat,
    /// Whether feedback for the compressor and relayed feedback are sent with the link's number first.
    pub numbered_feedback: bool,
    /// How many octets of datagrams each socket keeps that wait.
    pub receive_buffer: u32,
    /// What the tables [[link]] say.
    pub notes: Vec<LinkNote>,
}

impl Config {
    /// From which age on saved contexts are stale, in milliseconds; 0 is never. At `timed_port` moments are the sender's, and no
    /// context is.
    pub fn stale_ms(&self) -> u32 {
        match self.timed_port {
            Some(_) => 0,
            None => self.stale_ms.unwrap_or(STALE_MS),
        }
    }

    /// The key that has this port, if one has.
    pub(crate) fn key_of_port(&self, port: u16) -> Option<&'static str> {
        if self.port == Some(port) {
            Some("port")
        } else if self.timed_port == Some(port) {
            Some("timed_port")
        } else if self.metrics_port == Some(port) {
            Some("metrics_port")
        } else {
            None
        }
    }
}

/// What is wrong at a key.
#[derive(Drop)]
pub enum Wrong {
    /// The key is missing; this was expected.
    Missing(&'static str),
    /// No gateway file has this key; this one is the nearest, if one is near.
    UnknownKey(Option<&'static str>),
    /// The key has a value of this text; that was expected.
    WrongValue(String, &'static str),
    /// Another table [[link]] has this number already: the one of that number.
    SameNumber(u16, usize),
    /// Another key has the same port.
    SamePort(&'static str),
    /// Without a state file there is nothing to save.
    NeedsState,
    /// Without a control socket nobody opens it.
    NeedsControl,
    /// The system's list of groups at this path has no group of this name.
    UnknownGroup(String, &'static str),
    /// At `timed_port` moments are the sender's, so the age of a saved call isn't known.
    NotTimed,
    /// The path of a socket has this many octets, which are too many.
    LongPath(usize),
}

/// Where a fault of a gateway file is.
#[derive(Clone, Copy)]
pub enum Place {
    /// In this line of the file, counted from 1.
    Line(usize),
    /// In the file.
    File,
    /// At an option, which wins over the file.
    Option,
}

/// A fault of a gateway file.
#[derive(Drop)]
pub struct ConfigFault {
    /// Where it is.
    pub place: Place,
    /// The table [[link]], counted from 1, if it is in one.
    pub table: Option<usize>,
    /// The key.
    pub key: String,
    /// What is wrong there.
    pub wrong: Wrong,
}

/// Writes where a fault of the gateway file at this path is.
pub fn write_place<W: Write>(out: &mut W, path: &str, place: Place) -> io::Result<()> {
    match place {
        Place::Line(line) => write!(out, "{path}:{line}: "),
        Place::File => write!(out, "{path}: "),
        Place::Option => write!(out, "command line: "),
    }
}

/// Writes which keys there are.
fn write_names<W: Write>(out: &mut W, is_link: bool) -> io::Result<()> {
    write!(out, "; expected one of")?;
    if is_link {
        for (place, key) in LINK_KEYS.iter().enumerate() {
            let comma = if place == 0 { "" } else { "," };
            write!(out, "{comma} {}", key.name)?;
        }
        return Ok(());
    }
    for (place, key) in KEYS.iter().enumerate() {
        let comma = if place == 0 { "" } else { "," };
        write!(out, "{comma} {key}")?;
    }
    Ok(())
}

/// Writes that no gateway file has this key, or no table [[link]].
fn write_unknown<W: Write>(
    out: &mut W,
    key: &str,
    near: Option<&'static str>,
    is_link: bool,
) -> io::Result<()> {
    write!(out, "unknown key ")?;
    write_quoted(out, key)?;
    match near {
        Some(near) => write!(out, "; did you mean {near}?"),
        None => write_names(out, is_link),
    }
}

impl ConfigFault {
    /// Writes the fault as a line for a reader of the gateway file at this path.
    pub fn write<W: Write>(&self, out: &mut W, path: &str) -> io::Result<()> {
        write_place(out, path, self.place)?;
        if let Some(table) = self.table {
            write!(out, "link table {table}: ")?;
        }
        let key = self.key.as_str();
        match &self.wrong {
            Wrong::Missing(expected) => write!(out, "{key} is missing; expected {expected}")?,
            Wrong::UnknownKey(near) => write_unknown(out, key, *near, self.table.is_some())?,
            Wrong::WrongValue(value, expected) => {
                write!(out, "{key} is {value}; expected {expected}")?
            }
            Wrong::SameNumber(number, other) => write!(
                out,
                "{key} {number} is already used by link table {other}; expected another number"
            )?,
            Wrong::SamePort(other) => {
                write!(out, "{key} is the same as {other}; expected another port")?
            }
            Wrong::NeedsState => {
                write!(
                    out,
                    "{key} needs state; expected state = \"FILE\" for the saved calls"
                )?
            }
            Wrong::NeedsControl => {
                write!(out, "{key} needs control; expected control = \"PATH\"")?
            }
            Wrong::UnknownGroup(name, list) => {
                write!(out, "{key} is ")?;
                write_quoted(out, name.as_str())?;
                write!(out, "; expected a group in {list}, or its number")?
            }
            Wrong::NotTimed => write!(
                out,
                "{key} needs the gateway's moments; expected no timed_port, whose moments are the sender's"
            )?,
            Wrong::LongPath(size) => write!(
                out,
                "{key} is a path of {size} octets; expected at most {LONGEST_SOCKET}"
            )?,
        }
        writeln!(out)
    }
}

/// What was read of a gateway file, and what is wrong with it.
#[derive(Drop)]
pub struct Reading<'a> {
    pub(crate) alloc: Global,
    /// Where the file has its keys.
    pub(crate) lines: KeyLines<'a>,
    /// The tables [[link]] that were read, by their numbers of links.
    pub(crate) tables: IndexMap<u16, usize>,
    /// The options, which win.
    options: Options<'a>,
    /// What the gateway is to do, as far as it can be read.
    pub config: Config,
    /// The faults.
    pub faults: Vec<ConfigFault>,
}

/// Why there is no table of a gateway file.
#[derive(Clone, Copy)]
pub enum Unread {
    /// The text is no TOML document.
    NotToml(toml::de::Error),
    /// There is no memory.
    Memory,
}

impl Unread {
    /// Writes why the text of the gateway file at this path has no table. Lack of memory is the error.
    pub fn write<W: Write>(&self, out: &mut W, path: &str, text: &str) -> io::Result<()> {
        let Unread::NotToml(error) = self else {
            return Err(io::Error::from(ErrorKind::OutOfMemory));
        };
        write_place(out, path, Place::Line(error_line(text, error)))?;
        write_toml_reason(out, text, error)?;
        writeln!(out)
    }
}

impl From<AllocError> for Unread {
    fn from(_e: AllocError) -> Unread {
        Unread::Memory
    }
}

/// The text of a value, as a reader sees it.
fn value_text(alloc: Global, value: &Value) -> Result<String, AllocError> {
    let mut text = Vec::new(alloc);
    if write_value(&mut text, Some(value)).is_err() {
        return Err(AllocError);
    }
    String::from_utf8(text).map_err(|_| AllocError)
}

impl Reading<'_> {
    /// Where the file has a key.
    fn place_in_file(&self, key: &str) -> Place {
        match self.lines.line_of(key) {
            Some(line) => Place::Line(line),
            None => Place::File,
        }
    }

    /// Where a key was given: at an option, or in the file.
    pub fn place_of(&self, key: &str) -> Place {
        if self.options.gives(key) {
            Place::Option
        } else {
            self.place_in_file(key)
        }
    }

    /// Adds a fault of this place, and of this table [[link]] if it is in one.
    pub(crate) fn add_fault(
        &mut self,
        place: Place,
        table: Option<usize>,
        key: &str,
        wrong: Wrong,
    ) -> Result<(), AllocError> {
        let key = String::from_str(self.alloc, key)?;
        self.faults.push(ConfigFault {
            place,
            table,
            key,
            wrong,
        })?;
        Ok(())
    }

    /// Adds a fault of what was given at a key.
    fn add(&mut self, key: &str, wrong: Wrong) -> Result<(), AllocError> {
        self.add_fault(self.place_of(key), None, key, wrong)
    }

    /// Adds a fault of the file at a key.
    fn add_in_file(&mut self, key: &str, wrong: Wrong) -> Result<(), AllocError> {
        self.add_fault(self.place_in_file(key), None, key, wrong)
    }

    /// That a key was expected to have another value.
    pub(crate) fn wrong_value(
        &self,
        value: &Value,
        expected: &'static str,
    ) -> Result<Wrong, AllocError> {
        Ok(Wrong::WrongValue(value_text(self.alloc, value)?, expected))
    }

    /// Gives the group for the control socket its number, from the text of the system's list of groups at this path, or
    /// adds a fault.
    pub fn number_group(&mut self, list: &str, path: &'static str) -> Result<(), AllocError> {
        let Some(Group::Named(name)) = &self.config.control_group else {
            return Ok(());
        };
        match group_number_in(list, name.as_str()) {
            Some(number) => {
                self.config.control_group = Some(Group::Numbered(number));
                Ok(())
            }
            None => {
                let name = String::from_str(self.alloc, name.as_str())?;
                self.add("control_group", Wrong::UnknownGroup(name, path))
            }
        }
    }

    /// Adds that the file was expected to have another value at a key.
    pub(crate) fn add_value(
        &mut self,
        key: &str,
        value: &Value,
        expected: &'static str,
    ) -> Result<(), AllocError> {
        let wrong = self.wrong_value(value, expected)?;
        self.add_in_file(key, wrong)
    }

    /// The path of an option, or a fault if it is empty.
    fn option_path(&mut self, key: &str, path: &str) -> Result<Option<String>, AllocError> {
        if path.is_empty() {
            let text = String::from_str(self.alloc, "empty")?;
            self.add(key, Wrong::WrongValue(text, "a path"))?;
            return Ok(None);
        }
        Ok(Some(String::from_str(self.alloc, path)?))
    }

    /// The number at a key that is there, within its range, or a fault.
    fn number_at(
        &mut self,
        table: &Table,
        key: &'static str,
        range: Range,
    ) -> Result<Option<u32>, AllocError> {
        let Some(value) = table.get(key) else {
            return Ok(None);
        };
        let Range {
            least,
            greatest,
            expected,
        } = range;
        match number_of(value, least, greatest) {
            Some(number) => Ok(Some(number)),
            None => {
                self.add_value(key, value, expected)?;
                Ok(None)
            }
        }
    }

    /// The port at a key that is there, or a fault.
    fn port_at(&mut self, table: &Table, key: &'static str) -> Result<Option<u16>, AllocError> {
        match self.number_at(table, key, PORTS)? {
            Some(number) => Ok(u16::try_from(number).ok()),
            None => Ok(None),
        }
    }

    /// The path at a key that is there, relative to the folder of the gateway file, or a fault.
    fn path_at(
        &mut self,
        table: &Table,
        key: &'static str,
        folder: &str,
    ) -> Result<Option<String>, AllocError> {
        let Some(value) = table.get(key) else {
            return Ok(None);
        };
        match value.as_str() {
            Some(path) if path.starts_with("/") => Ok(Some(String::from_str(self.alloc, path)?)),
            Some(path) if !path.is_empty() => Ok(Some(format!(in self.alloc; "{folder}{path}")?)),
            _ => {
                self.add_value(key, value, A_PATH)?;
                Ok(None)
            }
        }
    }

    /// The format of log lines, text if the key isn't there, or a fault.
    fn format_at(&mut self, table: &Table, key: &'static str) -> Result<LogFormat, AllocError> {
        let Some(value) = table.get(key) else {
            return Ok(LogFormat::Text);
        };
        match format_of(value) {
            Some(format) => Ok(format),
            None => {
                self.add_value(key, value, A_FORMAT)?;
                Ok(LogFormat::Text)
            }
        }
    }

    /// Whether the key is set, not if it isn't there, or a fault.
    fn flag_at(&mut self, table: &Table, key: &'static str) -> Result<bool, AllocError> {
        let Some(value) = table.get(key) else {
            return Ok(false);
        };
        match value.as_bool() {
            Some(is_set) => Ok(is_set),
            None => {
                self.add_value(key, value, A_FLAG)?;
                Ok(false)
            }
        }
    }

    /// The group at a key that is there, or a fault.
    fn group_at(&mut self, table: &Table, key: &'static str) -> Result<Option<Group>, AllocError> {
        let Some(value) = table.get(key) else {
            return Ok(None);
        };
        let group = group_of(self.alloc, value)?;
        if group.is_none() {
            self.add_value(key, value, A_GROUP)?;
        }
        Ok(group)
    }

    /// Reads the table of a gateway file.
    fn read_table(&mut self, table: &Table, folder: &str) -> Result<(), AllocError> {
        for (key, _) in table {
            if !is_key(key.as_str()) {
                let near = nearest_name(self.alloc, key.as_str(), &KEYS)?;
                self.add_in_file(key.as_str(), Wrong::UnknownKey(near))?;
            }
        }
        self.config.links = self.path_at(table, "links", folder)?;
        self.config.port = self.port_at(table, "port")?;
        self.config.timed_port = self.port_at(table, "timed_port")?;
        self.config.state = self.path_at(table, "state", folder)?;
        self.config.save_seconds = self.number_at(table, "save_seconds", SAVE_SECONDS)?;
        self.config.scratch = self.path_at(table, "scratch", folder)?;
        self.config.stale_ms = self.number_at(table, "stale_ms", STALE)?;
        self.config.control = self.path_at(table, "control", folder)?;
        self.config.control_group = self.group_at(table, "control_group")?;
        self.config.metrics_port = self.port_at(table, "metrics_port")?;
        self.config.log_format = self.format_at(table, "log_format")?;
        self.config.numbered_feedback = self.flag_at(table, "numbered_feedback")?;
        let buffer = self.number_at(table, "receive_buffer", RECEIVED)?;
        self.config.receive_buffer = buffer.unwrap_or(RECEIVE_BUFFER);
        self.read_links(table)
    }

    /// Lets the options win.
    fn take_options(&mut self) -> Result<(), AllocError> {
        let options = self.options;
        if let Some(path) = options.links {
            self.config.links = self.option_path("links", path)?;
        }
        if let Some(path) = options.state {
            self.config.state = self.option_path("state", path)?;
        }
        if let Some(path) = options.control {
            self.config.control = self.option_path("control", path)?;
        }
        let config = &mut self.config;
        config.port = options.port.or(config.port);
        config.timed_port = options.timed_port.or(config.timed_port);
        config.save_seconds = options.save_seconds.or(config.save_seconds);
        config.metrics_port = options.metrics_port.or(config.metrics_port);
        config.log_format = options.log_format.unwrap_or(config.log_format);
        Ok(())
    }

    /// Whether there is a fault at this key.
    fn is_faulty(&self, key: &str) -> bool {
        self.faults
            .iter()
            .any(|fault| fault.table.is_none() && fault.key.as_str() == key)
    }

    /// Judges the length of the control socket's path, and that there is one for a group.
    fn judge_control(&mut self) -> Result<(), AllocError> {
        let size = match &self.config.control {
            Some(path) => path.len(),
            None => 0,
        };
        if size > LONGEST_SOCKET {
            self.add("control", Wrong::LongPath(size))?;
        }
        let has_control = self.config.control.is_some() || self.is_faulty("control");
        if self.config.control_group.is_some() && !has_control {
            self.add("control_group", Wrong::NeedsControl)?;
        }
        Ok(())
    }

    /// Judges what is said of saves.
    fn judge_saves(&mut self) -> Result<(), AllocError> {
        let has_state = self.config.state.is_some() || self.is_faulty("state");
        if self.config.save_seconds.is_some() && !has_state {
            self.add("save_seconds", Wrong::NeedsState)?;
        }
        if self.config.scratch.is_some() && !has_state {
            self.add("scratch", Wrong::NeedsState)?;
        }
        if self.config.stale_ms.is_some() && self.config.timed_port.is_some() {
            self.add("stale_ms", Wrong::NotTimed)?;
        }
        Ok(())
    }

    /// Judges what was read as a whole.
    fn judge(&mut self) -> Result<(), AllocError> {
        if self.config.links.is_none() && !self.is_faulty("links") {
            self.add("links", Wrong::Missing("links = \"FILE\""))?;
        }
        let ports = [
            self.config.port,
            self.config.timed_port,
            self.config.metrics_port,
        ];
        if ports[0].is_none()
            && ports[1].is_none()
            && !self.is_faulty("port")
            && !self.is_faulty("timed_port")
        {
            self.add(
                "port",
                Wrong::Missing("port or timed_port, a number from 1 to 65535"),
            )?;
        }
        if ports[1].is_some() && ports[1] == ports[0] {
            self.add("timed_port", Wrong::SamePort("port"))?;
        }
        if ports[2].is_some() && ports[2] == ports[0] {
            self.add("metrics_port", Wrong::SamePort("port"))?;
        }
        if ports[2].is_some() && ports[2] == ports[1] {
            self.add("metrics_port", Wrong::SamePort("timed_port"))?;
        }
        self.judge_saves()?;
        self.judge_link_ports()?;
        self.judge_control()
    }
}

/// Whether this is a key of a gateway file.
fn is_key(name: &str) -> bool {
    KEYS.iter().any(|key| *key == name)
}

/// The number of a value, from the least to the greatest.
fn number_of(value: &Value, least: u32, greatest: u32) -> Option<u32> {
    let number = u32::try_from(value.as_integer()?).ok()?;
    if least <= number && number <= greatest {
        Some(number)
    } else {
        None
    }
}

/// The format that a value names.
fn format_of(value: &Value) -> Option<LogFormat> {
    LogFormat::of(value.as_str()?)
}

/// The folder of a file, with the slash at its end; empty for a file in the working directory.
fn folder_of(path: &str) -> &str {
    match path.rfind("/") {
        Some(place) => path.get(..place + 1).unwrap_or(""),
        None => "",
    }
}

/// Reads a gateway file, which stands at this path.
pub fn read_config<'a>(
    alloc: Global,
    path: &str,
    text: &'a str,
    options: &Options<'a>,
) -> Result<Reading<'a>, Unread> {
    let table = match toml::table_from_str(alloc, text) {
        Ok(table) => table,
        Err(e) if e.is_memory() => return Err(Unread::Memory),
        Err(e) => return Err(Unread::NotToml(e)),
    };
    let config = Config {
        links: None,
        port: None,
        timed_port: None,
        state: None,
        save_seconds: None,
        scratch: None,
        stale_ms: None,
        control: None,
        control_group: None,
        metrics_port: None,
        log_format: LogFormat::Text,
        numbered_feedback: false,
        receive_buffer: RECEIVE_BUFFER,
        notes: Vec::new(alloc),
    };
    let mut reading = Reading {
        alloc,
        lines: KeyLines::of(alloc, text)?,
        tables: IndexMap::new(alloc),
        options: *options,
        config,
        faults: Vec::new(alloc),
    };
    reading.read_table(&table, folder_of(path))?;
    reading.take_options()?;
    reading.judge()?;
    Ok(reading)
}
