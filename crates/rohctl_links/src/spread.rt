//! The subcommand `spread`: the rules that bring each datagram to the process of its link, and a links file for each.

use crate::feedback::{Target, target_in, write_feedback};
use crate::hosts::{Hosts, HostsFault, Process, hosts_in, keys_at, line_of, table_at, unknown_in};
use crate::settings::write_entry;
use rohc_faults::{no_toml, write_sentence};
use rohc_links::Links;
use rohctl_ground::{
    Ending, Misuse, Reason, good_links, nearest_name, overwritten, printed, text_at, unprinted,
    unread, unwritten, write_quoted, write_value,
};
use std::alloc::{AllocError, Global};
use std::fs;
use std::io::{self, BufWriter, ErrorKind, Write};
use std::rt::Files;
use toml::{Table, Value};

/// What is asked of `spread`.
#[derive(Clone, Copy)]
pub struct Spread<'a> {
    /// The links file.
    pub links: &'a str,
    /// The hosts file.
    pub hosts: &'a str,
    /// Whether nginx is to do it.
    pub nginx: bool,
    /// The folder for the links files of the processes.
    pub out: Option<&'a str>,
    /// Where the feedback of all links goes: HOST:PORT.
    pub feedback: Option<&'a str>,
}

/// The process of a link: its place among them.
#[derive(Clone, Copy, PartialEq, Eq)]
enum Owner {
    Nobody,
    One(usize),
    Two(usize, usize),
}

/// The process that takes the link.
fn owner_of(processes: &[Process<'_>], link: u16) -> Owner {
    let mut owner = Owner::Nobody;
    for place in 0..processes.len() {
        let mut takes = false;
        for share in &processes[place].shares {
            takes = takes || share.holds(link);
        }
        if takes {
            match owner {
                Owner::Nobody => owner = Owner::One(place),
                Owner::One(first) => return Owner::Two(first, place),
                Owner::Two(_, _) => return owner,
            }
        }
    }
    owner
}

/// Writes where something is wrong in the hosts file.
fn write_place<W: Write>(out: &mut W, path: &str, text: &str, place: usize) -> io::Result<()> {
    match line_of(text, place) {
        Some(line) => write!(out, "{path}:{line}: process {place}: "),
        None if place > 0 => write!(out, "{path}: process {place}: "),
        None => write!(out, "{path}: "),
    }
}

/// What is expected at a key of the hosts file.
fn expected_at(key: &str) -> &'static str {
    match key {
        "name" => "1 to 32 letters, digits, - and _, in quotes",
        "address" => "an IPv4 address in quotes, as \"10.0.0.1\"",
        "port" => "a number from 1 to 65535",
        "links" => "an array of link numbers and ranges, as [1, \"4-9\"]",
        _ => "at least one table [[process]]",
    }
}

/// What is at a key of the hosts file: of the top, or of the process at this place.
fn value_at<'a>(table: &'a Table, place: usize, key: &str) -> Option<&'a Value> {
    table_at(table, place)?.get(key)
}

/// Writes that a key is missing or wrong.
fn write_bad_key<W: Write>(out: &mut W, value: Option<&Value>, key: &str) -> io::Result<()> {
    write!(out, "{key} is ")?;
    match value {
        None => write!(out, "missing")?,
        value => write_value(out, value)?,
    }
    write!(out, "; expected {}", expected_at(key))
}

/// Writes that the links of a process have something at this index that names none.
fn write_bad_share<W: Write>(out: &mut W, value: Option<&Value>, index: usize) -> io::Result<()> {
    let share = match value {
        Some(value) => match value.as_array() {
            Some(shares) => shares.get(index),
            None => None,
        },
        None => None,
    };
    write!(out, "links has ")?;
    write_value(out, share)?;
    write!(
        out,
        "; expected a number from 0 to 65535, or a range such as \"4-9\""
    )
}

/// Writes that a key isn't known.
fn write_unknown<W: Write>(
    out: &mut W,
    alloc: Global,
    table: &Table,
    place: usize,
) -> io::Result<()> {
    let keys = keys_at(place);
    let Some(table) = table_at(table, place) else {
        return Ok(());
    };
    let name = unknown_in(table, keys).unwrap_or("");
    write!(out, "unknown key ")?;
    write_quoted(out, name)?;
    match nearest_name(alloc, name, keys)? {
        Some(near) => write!(out, "; did you mean {near}?"),
        None if place == 0 => write!(out, "; expected port and [[process]]"),
        None => write!(out, "; expected name, address, port and links"),
    }
}

/// Writes that an earlier process has the name of this one.
fn write_same_name<W: Write>(out: &mut W, name: Option<&Value>) -> io::Result<()> {
    write!(out, "name ")?;
    write_value(out, name)?;
    write!(
        out,
        " is already used by an earlier process; expected another"
    )
}

/// Writes what is wrong with the hosts file.
fn write_fault<W: Write>(
    out: &mut W,
    alloc: Global,
    path: &str,
    text: &str,
    table: &Table,
    fault: HostsFault,
) -> io::Result<()> {
    match fault {
        HostsFault::BadKey(place, key) => {
            write_place(out, path, text, place)?;
            write_bad_key(out, value_at(table, place, key), key)?;
        }
        HostsFault::BadShare(place, index) => {
            write_place(out, path, text, place)?;
            write_bad_share(out, value_at(table, place, "links"), index)?;
        }
        HostsFault::UnknownKey(place) => {
            write_place(out, path, text, place)?;
            write_unknown(out, alloc, table, place)?;
        }
        HostsFault::SameName(place) => {
            write_place(out, path, text, place)?;
            write_same_name(out, value_at(table, place, "name"))?;
        }
        HostsFault::NoMemory => return Err(io::Error::from(ErrorKind::OutOfMemory)),
    }
    writeln!(out)
}

/// Writes that a link has no process, or two.
fn write_owner<W: Write>(
    out: &mut W,
    path: &str,
    text: &str,
    link: u16,
    owner: Owner,
) -> io::Result<()> {
    match owner {
        Owner::One(_) => Ok(()),
        Owner::Nobody => writeln!(
            out,
            "{path}: link {link} is not assigned to any process; add it to the links of one"
        ),
        Owner::Two(_, later) => {
            write_place(out, path, text, later.saturating_add(1))?;
            writeln!(
                out,
                "link {link} is already assigned to an earlier process; remove it from one of the two"
            )
        }
    }
}

/// The place of the process of each link. Writes the links that have none, or two; then there is nothing.
fn owners<W: Write>(
    out: &mut W,
    alloc: Global,
    path: &str,
    text: &str,
    processes: &[Process<'_>],
    links: &Links,
) -> Result<Option<Vec<usize>>, Ending<'static>> {
    let mut owners = Vec::new(alloc);
    for setting in links.settings() {
        let owner = owner_of(processes, setting.link);
        if let Owner::One(place) = owner {
            owners.push(place).map_err(|_| Ending::Memory)?;
        }
        write_owner(out, path, text, setting.link, owner).map_err(|error| unprinted(&error))?;
    }
    if owners.len() == links.settings().len() {
        Ok(Some(owners))
    } else {
        Ok(None)
    }
}

/// What is written behind the number of a link.
#[derive(Clone, Copy)]
enum Behind {
    Nothing,
    Address,
    Port,
}

/// Writes what a process has, with a colon in front.
fn write_behind<W: Write>(out: &mut W, behind: Behind, process: &Process<'_>) -> io::Result<()> {
    match behind {
        Behind::Nothing => Ok(()),
        Behind::Address => write!(out, " : {}", process.address()),
        Behind::Port => write!(out, " : {}", process.port),
    }
}

/// Writes, for each link, its number and what its process has: `NUMBER : TEXT` with commas between.
fn write_map<W: Write>(
    out: &mut W,
    links: &Links,
    owners: &[usize],
    processes: &[Process<'_>],
    behind: Behind,
) -> io::Result<()> {
    for (place, setting) in links.settings().iter().enumerate() {
        if place > 0 {
            write!(out, ", ")?;
        }
        write!(out, "{}", setting.link)?;
        if let Some(owner) = owners.get(place)
            && let Some(process) = processes.get(*owner)
        {
            write_behind(out, behind, process)?;
        }
    }
    Ok(())
}

/// Whether the file gives an address.
fn gives_address(processes: &[Process<'_>]) -> bool {
    for process in processes {
        if process.given.is_some() {
            return true;
        }
    }
    false
}

/// What stands before the rules of the table of nftables.
const TABLE_HEAD: &str = "\
# Each datagram to the process of its link: `nft -f FILE`, as root. It replaces the rules that were set before.
table ip polorowan
delete table ip polorowan
table ip polorowan {
    counter unknown_links {}
    chain to_process {
        type filter hook prerouting priority raw;
";

/// Writes the rule that drops datagrams of other links. The 16 bits behind the UDP header are the link's number.
fn write_known<W: Write>(
    out: &mut W,
    hosts: &Hosts<'_>,
    links: &Links,
    owners: &[usize],
) -> io::Result<()> {
    let port = hosts.port;
    writeln!(out, "        udp dport {port} notrack")?;
    write!(out, "        udp dport {port} @th,64,16 != {{ ")?;
    write_map(out, links, owners, &hosts.processes, Behind::Nothing)?;
    writeln!(out, " }} counter name unknown_links drop")
}

/// Writes the rule that sets a part of a datagram's way by its link.
fn write_rule<W: Write>(
    out: &mut W,
    hosts: &Hosts<'_>,
    links: &Links,
    owners: &[usize],
    part: &str,
    behind: Behind,
) -> io::Result<()> {
    let port = hosts.port;
    write!(out, "        udp dport {port} {part} set @th,64,16 map {{ ")?;
    write_map(out, links, owners, &hosts.processes, behind)?;
    writeln!(out, " }}")
}

/// Where the feedback of all links goes, if it is asked.
fn target_of<'a>(asked: Spread<'a>) -> Result<Option<Target<'a>>, Ending<'a>> {
    match asked.feedback {
        None => Ok(None),
        Some(text) => match target_in(text) {
            Some(target) => Ok(Some(target)),
            None => Err(Ending::Misuse(Misuse::Value {
                word: "--feedback",
                given: text,
                expected: "an IPv4 address and a port, as 10.0.0.1:5002",
            })),
        },
    }
}

/// Writes the table of nftables.
fn write_table<W: Write>(
    out: &mut W,
    hosts: &Hosts<'_>,
    links: &Links,
    owners: &[usize],
    target: Option<Target<'_>>,
) -> io::Result<()> {
    out.write_all(TABLE_HEAD.as_bytes())?;
    write_known(out, hosts, links, owners)?;
    if gives_address(&hosts.processes) {
        write_rule(out, hosts, links, owners, "ip daddr", Behind::Address)?;
    }
    write_rule(out, hosts, links, owners, "udp dport", Behind::Port)?;
    writeln!(out, "    }}")?;
    if let Some(target) = target {
        write_feedback(out, links, target)?;
    }
    writeln!(out, "}}")
}

/// What stands before the lines of the links in nginx's configuration.
const NGINX_HEAD: &str = "\
# Each datagram to the process of its link, by nginx with link.js of deploy/ beside this file.
worker_processes 1; # more would let datagrams of one link overtake one another
daemon off;
pid /tmp/polorowan-nginx.pid;
error_log stderr warn;
load_module /usr/lib/nginx/modules/ngx_stream_module.so;
load_module /usr/lib/nginx/modules/ngx_stream_js_module.so;
events { worker_connections 16384; }
stream {
    js_path .;
    js_import link from link.js;
    js_set $link link.number;
    map $link $process { # a number that isn't here goes to a port where nobody listens
        default 127.0.0.1:9;
";

/// What stands behind the port at which nginx listens.
const NGINX_END: &str = "        js_preread link.preread;
        proxy_pass $process;
        proxy_responses 0; # answers go to ports of their own
    }
}
";

/// Writes the configuration of nginx.
fn write_nginx<W: Write>(
    out: &mut W,
    hosts: &Hosts<'_>,
    links: &Links,
    owners: &[usize],
) -> io::Result<()> {
    out.write_all(NGINX_HEAD.as_bytes())?;
    for (place, setting) in links.settings().iter().enumerate() {
        if let Some(owner) = owners.get(place)
            && let Some(process) = hosts.processes.get(*owner)
        {
            writeln!(
                out,
                "        {} {}:{};",
                setting.link,
                process.address(),
                process.port
            )?;
        }
    }
    write!(
        out,
        "    }}\n    server {{\n        listen 127.0.0.1:{} udp;\n",
        hosts.port
    )?;
    out.write_all(NGINX_END.as_bytes())
}

/// Writes the links file of the process at this place.
fn write_own<W: Write>(out: &mut W, links: &Links, owners: &[usize], own: usize) -> io::Result<()> {
    writeln!(out, "version = 2")?;
    for (place, setting) in links.settings().iter().enumerate() {
        if let Some(owner) = owners.get(place)
            && *owner == own
            && let Some(ports) = links.ports().get(place)
        {
            write_entry(out, setting, ports)?;
        }
    }
    Ok(())
}

/// The path of the links file of a process.
fn path_of(alloc: Global, folder: &str, name: &str) -> Result<String, AllocError> {
    let mut path = String::new(alloc);
    path.push_str(folder)?;
    path.push_str("/")?;
    path.push_str(name)?;
    path.push_str(".toml")?;
    Ok(path)
}

/// Writes the links file of the process at this place.
fn write_file<R: Files + AllocGlobal>(
    rt: &R,
    path: &str,
    links: &Links,
    owners: &[usize],
    own: usize,
) -> Result<(), Reason> {
    let file = fs::create(rt, path).map_err(|error| Reason::of(&error))?;
    let Ok(mut out) = BufWriter::new(rt.alloc(), file) else {
        return Err(Reason::Memory);
    };
    write_own(&mut out, links, owners, own).map_err(|error| Reason::of(&error))?;
    out.flush().map_err(|error| Reason::of(&error))
}

/// Refuses a folder in which the links file of a process would overwrite the links file or the hosts file.
fn keep_inputs<'a, R: Files + AllocGlobal>(
    rt: &R,
    asked: Spread<'a>,
    folder: &'a str,
    processes: &[Process<'_>],
) -> Result<(), Ending<'a>> {
    for process in processes {
        let path = path_of(rt.alloc(), folder, process.name).map_err(|_| Ending::Memory)?;
        if let Some(input) = overwritten(rt, &[asked.links, asked.hosts], path.as_str()) {
            return Err(Ending::Misuse(Misuse::Overwrites {
                output: folder,
                input,
            }));
        }
    }
    Ok(())
}

/// Writes a links file for each process into a folder.
fn write_files<'a, R: Files + AllocGlobal>(
    rt: &R,
    folder: &'a str,
    processes: &[Process<'_>],
    links: &Links,
    owners: &[usize],
) -> Result<(), Ending<'a>> {
    for (place, process) in processes.iter().enumerate() {
        let path = path_of(rt.alloc(), folder, process.name).map_err(|_| Ending::Memory)?;
        let written = write_file(rt, path.as_str(), links, owners, place);
        written.map_err(|reason| unwritten(folder, reason))?;
    }
    Ok(())
}

/// Writes the rules, and the links files if a folder is named.
pub fn run_spread<'a, R>(rt: &R, asked: Spread<'a>) -> Result<Ending<'a>, Ending<'a>>
where
    R: Files + Input + Print + Eprint + AllocGlobal,
{
    let links = good_links(rt, asked.links)?;
    let text = text_at(rt, asked.hosts).map_err(|reason| unread(asked.hosts, reason))?;
    let Ok(mut out) = BufWriter::new(rt.alloc(), io::writer(rt)) else {
        return Err(Ending::Memory);
    };
    let written = write_spread(rt, &mut out, asked, text.as_str(), &links)?;
    match out.flush() {
        Ok(()) => Ok(written),
        Err(error) => Err(unprinted(&error)),
    }
}

/// Writes the rules for the processes of a hosts file's text, or what is wrong with it.
fn write_spread<'a, R, W>(
    rt: &R,
    out: &mut W,
    asked: Spread<'a>,
    text: &str,
    links: &Links,
) -> Result<Ending<'a>, Ending<'a>>
where
    R: Files + AllocGlobal,
    W: Write,
{
    let path = printed(rt.alloc(), asked.hosts).map_err(|_| Ending::Memory)?;
    let written = match toml::table_from_str(rt.alloc(), text) {
        Ok(table) => return write_hosts(rt, out, asked, text, &table, links),
        Err(error) if error.is_memory() => return Err(Ending::Memory),
        Err(error) => write_sentence(out, path.as_str(), &no_toml(text, &error)),
    };
    match written {
        Ok(()) => Ok(Ending::Findings),
        Err(error) => Err(unprinted(&error)),
    }
}

/// Writes the rules for the processes of a hosts file, or what is wrong with it.
fn write_hosts<'a, R, W>(
    rt: &R,
    out: &mut W,
    asked: Spread<'a>,
    text: &str,
    table: &Table,
    links: &Links,
) -> Result<Ending<'a>, Ending<'a>>
where
    R: Files + AllocGlobal,
    W: Write,
{
    let path = printed(rt.alloc(), asked.hosts).map_err(|_| Ending::Memory)?;
    let written = match hosts_in(rt.alloc(), table) {
        Ok(hosts) => return write_rules(rt, out, asked, text, &hosts, links),
        Err(HostsFault::NoMemory) => return Err(Ending::Memory),
        Err(fault) => write_fault(out, rt.alloc(), path.as_str(), text, table, fault),
    };
    match written {
        Ok(()) => Ok(Ending::Findings),
        Err(error) => Err(unprinted(&error)),
    }
}

/// Writes the rules for these processes, if each link has one of them.
fn write_rules<'a, R, W>(
    rt: &R,
    out: &mut W,
    asked: Spread<'a>,
    text: &str,
    hosts: &Hosts<'_>,
    links: &Links,
) -> Result<Ending<'a>, Ending<'a>>
where
    R: Files + AllocGlobal,
    W: Write,
{
    let target = target_of(asked)?;
    let processes = hosts.processes.as_slice();
    let path = printed(rt.alloc(), asked.hosts).map_err(|_| Ending::Memory)?;
    let Some(owners) = owners(out, rt.alloc(), path.as_str(), text, processes, links)? else {
        return Ok(Ending::Findings);
    };
    if let Some(folder) = asked.out {
        keep_inputs(rt, asked, folder, processes)?;
    }
    let written = if asked.nginx {
        write_nginx(out, hosts, links, &owners)
    } else {
        write_table(out, hosts, links, &owners, target)
    };
    written.map_err(|error| unprinted(&error))?;
    if let Some(folder) = asked.out {
        write_files(rt, folder, processes, links, &owners)?;
    }
    Ok(Ending::Good)
}
