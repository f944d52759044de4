//! What a good links file sets: a table of its links, the memory that they may take, and what is unusual.

use rohc_concentrator::LinkSetting;
use rohc_context::Mode;
use rohc_frame::CidKind;
use rohc_links::{Key, Links, Ports};
use std::io;
use std::io::Write;

/// How many octets a call takes at most (docs/OPERATING.md).
pub(crate) const CALL: u64 = 326;

/// From this on a window is long.
const LONG: u8 = 17;

/// The name of a mode in a links file.
fn mode_name(mode: Mode) -> &'static str {
    match mode {
        Mode::U => "U",
        Mode::O => "O",
    }
}

/// The name of a CID kind in a links file.
fn size_name(size: CidKind) -> &'static str {
    match size {
        CidKind::Small => "small",
        CidKind::Large => "large",
    }
}

/// The calls that the link has at most.
pub(crate) fn calls_of(setting: &LinkSetting) -> u64 {
    u64::from(setting.settings.max_cid) + 1
}

/// The octets that the link's calls take at most.
fn memory_of(setting: &LinkSetting) -> u64 {
    calls_of(setting).saturating_mul(CALL)
}

/// Writes the row of a link.
fn write_row<W: Write>(out: &mut W, setting: &LinkSetting) -> io::Result<()> {
    let settings = &setting.settings;
    write!(
        out,
        "{:>5} {} {:>7} {:>4} {:>3}/{:<3} {:>3}/{:<3} {:>9} {:>14} {:>8} {:>9}",
        setting.link,
        size_name(settings.size),
        settings.max_cid,
        mode_name(settings.mode),
        settings.k1,
        settings.n1,
        settings.k2,
        settings.n2,
        settings.packet_ms,
        settings.static_nack_ms,
        settings.idle_ms,
        memory_of(setting)
    )?;
    for range in setting.ranges.iter() {
        write!(
            out,
            " {}-{}:{}",
            range.first,
            range.last,
            mode_name(range.mode)
        )?;
    }
    writeln!(out, "")
}

/// Each port of a link with its key.
fn named_ports(ports: &Ports) -> [(Key, u16); 3] {
    [
        (Key::DeliverPort, ports.deliver),
        (Key::FeedbackPort, ports.feedback),
        (Key::RelayPort, ports.relay),
    ]
}

/// The place of the first port, in the order of the links and their keys, that is this one.
fn first_with(ports: &[Ports], port: u16) -> Option<(usize, Key)> {
    for (place, others) in ports.iter().enumerate() {
        for (key, other) in named_ports(others) {
            if other == port {
                return Some((place, key));
            }
        }
    }
    None
}

/// Writes which key before this one, of the link at this place, names its port too, if one does.
fn write_port_twice<W: Write>(
    out: &mut W,
    links: &Links,
    place: usize,
    key: Key,
    port: u16,
) -> io::Result<()> {
    if let Some((first, other)) = first_with(links.ports(), port)
        && (first != place || other != key)
        && let Some(setting) = links.settings().get(place)
        && let Some(earlier) = links.settings().get(first)
    {
        return writeln!(
            out,
            "unusual: link {}: {} {port} is {} of link {} too",
            setting.link,
            key.name(),
            other.name(),
            earlier.link
        );
    }
    Ok(())
}

/// Writes the ports that two keys name.
fn write_ports_twice<W: Write>(out: &mut W, links: &Links) -> io::Result<()> {
    for (place, ports) in links.ports().iter().enumerate() {
        for (key, port) in named_ports(ports) {
            write_port_twice(out, links, place, key, port)?;
        }
    }
    Ok(())
}

/// Writes what is unusual.
fn write_unusual<W: Write>(out: &mut W, links: &Links) -> io::Result<()> {
    for setting in links.settings() {
        let settings = &setting.settings;
        if settings.idle_ms == 0 {
            writeln!(
                out,
                "unusual: link {}: no idle_ms: a silent call keeps its context",
                setting.link
            )?;
        }
        for (key, number) in [(Key::N1, settings.n1), (Key::N2, settings.n2)] {
            if number >= LONG {
                writeln!(
                    out,
                    "unusual: link {}: {} {number} is above 16",
                    setting.link,
                    key.name()
                )?;
            }
        }
    }
    write_ports_twice(out, links)
}

/// Writes the table of the links.
pub(crate) fn write_links<W: Write>(out: &mut W, links: &Links) -> io::Result<()> {
    writeln!(
        out,
        " link cid   max_cid mode   k1/n1   k2/n2 packet_ms static_nack_ms  idle_ms    memory ranges"
    )?;
    let mut memory = 0u64;
    let mut calls = 0u64;
    for setting in links.settings() {
        write_row(out, setting)?;
        memory = memory.saturating_add(memory_of(setting));
        calls = calls.saturating_add(calls_of(setting));
    }
    writeln!(
        out,
        "links {} calls at most {calls} memory at most {memory} octets",
        links.settings().len()
    )?;
    write_unusual(out, links)
}

/// Writes the entry of a link, as a links file of version 2 has it.
pub(crate) fn write_entry<W: Write>(
    out: &mut W,
    setting: &LinkSetting,
    ports: &Ports,
) -> io::Result<()> {
    let settings = &setting.settings;
    write!(
        out,
        "\n[[link]]\nnumber = {}\ncid = \"{}\"\nmax_cid = {}\nmode = \"{}\"\nk1 = {}\nn1 = {}\nk2 = {}\nn2 = {}\npacket_ms = {}\nstatic_nack_ms = {}\ndeliver_port = {}\nfeedback_port = {}\nrelay_port = {}\nidle_ms = {}\n",
        setting.link,
        size_name(settings.size),
        settings.max_cid,
        mode_name(settings.mode),
        settings.k1,
        settings.n1,
        settings.k2,
        settings.n2,
        settings.packet_ms,
        settings.static_nack_ms,
        ports.deliver,
        ports.feedback,
        ports.relay,
        settings.idle_ms
    )?;
    for range in setting.ranges.iter() {
        writeln!(
            out,
            "[[link.range]]\nfirst = {}\nlast = {}\nmode = \"{}\"",
            range.first,
            range.last,
            mode_name(range.mode)
        )?;
    }
    Ok(())
}

/// Writes the object of a link.
fn write_object<W: Write>(out: &mut W, setting: &LinkSetting, ports: &Ports) -> io::Result<()> {
    let settings = &setting.settings;
    write!(
        out,
        "{{\"link\":{},\"cid\":\"{}\",\"max_cid\":{},\"mode\":\"{}\",\"k1\":{},\"n1\":{},\"k2\":{},\"n2\":{},\"packet_ms\":{},\"static_nack_ms\":{},\"idle_ms\":{},\"memory\":{},\"deliver_port\":{},\"feedback_port\":{},\"relay_port\":{},\"range\":[",
        setting.link,
        size_name(settings.size),
        settings.max_cid,
        mode_name(settings.mode),
        settings.k1,
        settings.n1,
        settings.k2,
        settings.n2,
        settings.packet_ms,
        settings.static_nack_ms,
        settings.idle_ms,
        memory_of(setting),
        ports.deliver,
        ports.feedback,
        ports.relay
    )?;
    for (place, range) in setting.ranges.iter().enumerate() {
        if place > 0 {
            write!(out, ",")?;
        }
        write!(
            out,
            "{{\"first\":{},\"last\":{},\"mode\":\"{}\"}}",
            range.first,
            range.last,
            mode_name(range.mode)
        )?;
    }
    writeln!(out, "]}}")
}

/// Writes an object for each link.
pub(crate) fn write_links_json<W: Write>(out: &mut W, links: &Links) -> io::Result<()> {
    for (setting, ports) in links.settings().iter().zip(links.ports().iter()) {
        write_object(out, setting, ports)?;
    }
    Ok(())
}
