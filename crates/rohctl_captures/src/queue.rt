//! The sockets of this host's UDP ports, as the kernel lists them in /proc/net/udp.

/// 127.0.0.1 and any address, as the list has them on hosts of either octet order.
const ADDRESSES: [&str; 3] = ["0100007F", "7F000001", "00000000"];

/// What waits in the sockets of a port, and what they dropped.
#[derive(Clone, Copy, PartialEq, Eq)]
pub(crate) struct Queue {
    /// The memory of the datagrams that wait, in octets.
    pub(crate) octets: u64,
    /// The datagrams that were dropped.
    pub(crate) drops: u64,
}

/// The words of a line of the list that are looked at.
#[derive(Clone, Copy)]
struct Words<'a> {
    local: &'a str,
    queues: &'a str,
    drops: &'a str,
}

/// The words of a line: the local address is the second, both queues are the fifth, and the drops are the thirteenth.
fn words_of(line: &str) -> Words<'_> {
    let mut words = Words {
        local: "",
        queues: "",
        drops: "",
    };
    let mut number = 0u32;
    for word in line.split(" ") {
        if word.is_empty() {
            continue;
        }
        number = number.saturating_add(1);
        match number {
            2 => words.local = word,
            5 => words.queues = word,
            13 => words.drops = word,
            _ => {}
        }
    }
    words
}

/// Whether a local address of the list is this port of this host.
fn is_port(local: &str, port: u16) -> bool {
    match local.split_once(":") {
        Some((address, number)) => {
            ADDRESSES.contains(&address) && u16::from_str_radix(number, 16) == Ok(port)
        }
        None => false,
    }
}

/// The queue of the socket in a line, if it is on this port.
fn queue_of(line: &str, port: u16) -> Option<Queue> {
    let words = words_of(line);
    if !is_port(words.local, port) {
        return None;
    }
    let (_, waiting) = words.queues.split_once(":")?;
    Some(Queue {
        octets: u64::from_str_radix(waiting, 16).ok()?,
        drops: words.drops.parse().ok()?,
    })
}

/// The queue of a port in the list: of several sockets the longest, with the drops of all. `None` if there is no socket.
pub(crate) fn queue_in(list: &str, port: u16) -> Option<Queue> {
    let mut found: Option<Queue> = None;
    for line in list.split("\n") {
        let Some(queue) = queue_of(line, port) else {
            continue;
        };
        let before = found.unwrap_or(Queue {
            octets: 0,
            drops: 0,
        });
        found = Some(Queue {
            octets: queue.octets.max(before.octets),
            drops: queue.drops.saturating_add(before.drops),
        });
    }
    found
}
