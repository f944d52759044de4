//! The datagrams that the system drops at the gateway's sockets, since they come faster than they are taken.

use crate::gateway::Gateway;
use crate::sockets::Sockets;
use rohc_disk::RealDisk;
use rohc_gateway_file::Level;
use rohc_loop::read_text;
use std::rt::Files;
use std::time::Clock;

/// The system's table of UDP sockets (proc_net_udp(5)).
const TABLE: &str = "/proc/self/net/udp";

/// How often it is read, in milliseconds.
const EVERY: u64 = 10_000;

/// 127.0.0.1, as the table writes it.
const LOCAL: &str = "0100007F";

/// What is known of drops.
#[derive(Clone, Copy, Default)]
pub(crate) struct Drops {
    /// When the table is read next.
    next: u64,
    /// How many the sockets had at the last look.
    seen: u64,
    /// Whether the log told that some were dropped, and not yet that none are any more.
    is_told: bool,
    /// Whether the log told that the table can't be read.
    is_blind: bool,
}

/// The port of 127.0.0.1 in a field of the table.
fn port_of(field: &str) -> Option<u16> {
    let (address, port) = field.split_once(":")?;
    if address != LOCAL {
        return None;
    }
    u16::from_str_radix(port, 16).ok()
}

/// How many datagrams were dropped at the socket in a line of the table, if it is one of these.
fn dropped_at(line: &str, sockets: &Sockets) -> Option<u64> {
    let port = port_of(line.split_whitespace().nth(1)?)?;
    if !sockets.has_port(port) {
        return None;
    }
    line.split_whitespace().last()?.parse::<u64>().ok()
}

/// How many datagrams were dropped at these sockets.
fn dropped_in(table: &str, sockets: &Sockets) -> u64 {
    let mut dropped = 0u64;
    for line in table.lines() {
        dropped = dropped.saturating_add(dropped_at(line, sockets).unwrap_or(0));
    }
    dropped
}

impl Gateway<'_> {
    /// Counts what the system dropped since the last look, if it is time for another. The log tells when drops begin, and when
    /// there are none any more.
    pub(crate) fn note_drops<R>(&mut self, rt: &R, sockets: &Sockets, moment: u64)
    where
        R: Files + Clock + Eprint + AllocGlobal,
    {
        if moment < self.drops.next {
            return;
        }
        self.drops.next = moment.saturating_add(EVERY);
        let log = self.frame.log;
        match read_text(&mut RealDisk::of(rt), rt.alloc(), TABLE) {
            Ok(table) => self.count_drops(rt, dropped_in(table.as_str(), sockets)),
            Err(reason) if !self.drops.is_blind => {
                self.drops.is_blind = true;
                let text = format_args!(
                    "{TABLE}: {reason}; datagrams that the system drops are not counted"
                );
                log.say(rt, Level::Warning, text);
            }
            Err(_) => {}
        }
    }

    /// Counts the drops since the last look. `seen` is the total at the sockets now.
    fn count_drops<R: Clock + Eprint + AllocGlobal>(&mut self, rt: &R, seen: u64) {
        let (log, buffer) = (self.frame.log, self.frame.config.receive_buffer);
        let dropped = seen.saturating_sub(self.drops.seen);
        self.drops.seen = seen;
        self.figures.dropped_datagrams = self.figures.dropped_datagrams.saturating_add(dropped);
        if dropped > 0 && !self.drops.is_told {
            let text = format_args!(
                "the system dropped {dropped} datagrams that came faster than they are taken; expected fewer, or a larger receive_buffer than {buffer}"
            );
            log.say(rt, Level::Warning, text);
        } else if dropped == 0 && self.drops.is_told {
            let all = self.figures.dropped_datagrams;
            let text = format_args!("the system drops no more datagrams; {all} since the start");
            log.say(rt, Level::Info, text);
        }
        self.drops.is_told = dropped > 0;
    }
}
