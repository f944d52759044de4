//! The rules that bring the numbered feedback of all links to one port.

use crate::hosts::is_address;
use rohc_links::Links;
use std::io::{self, Write};

/// An address and a port to which all feedback is sent.
#[derive(Clone, Copy)]
pub(crate) struct Target<'a> {
    address: &'a str,
    port: u16,
}

/// The target that a text HOST:PORT names.
pub(crate) fn target_in(text: &str) -> Option<Target<'_>> {
    let (address, port) = text.rsplit_once(":")?;
    match port.parse::<u16>() {
        Ok(port) if port > 0 && is_address(address) => Some(Target { address, port }),
        _ => None,
    }
}

/// Whether a link before this place has the feedback port of the link at this place.
fn is_earlier(links: &Links, place: usize, port: u16) -> bool {
    links
        .ports()
        .iter()
        .take(place)
        .any(|ports| ports.feedback == port)
}

/// Writes each feedback port of the links once, with commas between.
fn write_ports<W: Write>(out: &mut W, links: &Links) -> io::Result<()> {
    for (place, ports) in links.ports().iter().enumerate() {
        if is_earlier(links, place, ports.feedback) {
            continue;
        }
        let comma = if place == 0 { "" } else { ", " };
        write!(out, "{comma}{}", ports.feedback)?;
    }
    Ok(())
}

/// Writes the rules that bring what is sent to the feedback ports of the links to the target, from an address of this host.
pub(crate) fn write_feedback<W: Write>(
    out: &mut W,
    links: &Links,
    target: Target<'_>,
) -> io::Result<()> {
    let Target { address, port } = target;
    writeln!(out, "    chain feedback {{")?;
    writeln!(out, "        type nat hook output priority -100;")?;
    write!(out, "        ip daddr 127.0.0.1 udp dport {{ ")?;
    write_ports(out, links)?;
    writeln!(out, " }} dnat to {address}:{port}")?;
    writeln!(out, "    }}\n    chain feedback_source {{")?;
    writeln!(out, "        type nat hook postrouting priority 100;")?;
    writeln!(
        out,
        "        ip daddr {address} udp dport {port} masquerade\n    }}"
    )
}
