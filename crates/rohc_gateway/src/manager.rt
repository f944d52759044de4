//! What the service manager is told: sd_notify(3), over the socket that it names in the environment.

use libc::net::{AF_UNIX, MSG_DONTWAIT, MSG_NOSIGNAL, SOCK_CLOEXEC, SOCK_DGRAM, sendto, socket};
use libc::{close, getpid};
use std::env;
use std::rt::Env;

/// The octets of an address.
const ROOM: usize = 128;

/// The longest name in the address of a Unix socket.
const LONGEST: usize = 107;

/// The service manager that started this program, if it wants to be told anything.
#[derive(Clone, Copy)]
pub(crate) struct Manager {
    address: [u8; ROOM],
    /// How many octets of it count; 0: there is no service manager.
    length: u32,
    /// How often it is told that the gateway goes on, in milliseconds, if it wants to know.
    pub(crate) every: Option<u64>,
    /// When it is told next.
    next: u64,
}

/// Writes the address of a Unix socket (unix(7)): the family and the name. A leading `@` stands for the octet 0. Returns the length
/// in octets, 0 if the name is too long.
fn put_address(address: &mut [u8; ROOM], name: &str) -> u32 {
    let name = name.as_bytes();
    if name.is_empty() || name.len() > LONGEST {
        return 0;
    }
    let [first, second] = 1u16.to_ne_bytes();
    address[0] = first;
    address[1] = second;
    for (slot, octet) in address[2..].iter_mut().zip(name) {
        *slot = *octet;
    }
    if address[2] == b'@' {
        address[2] = 0;
    }
    2 + name.len() as u32
}

/// A number in the environment.
fn number_in<R: Env + AllocGlobal>(rt: &R, name: &str) -> Option<u64> {
    env::var(rt, name).ok()?.as_str().parse::<u64>().ok()
}

/// How often the service manager is told that this process goes on, in milliseconds: twice in the time after which it would
/// kill it (sd_watchdog_enabled(3)).
fn watched_every<R: Env + AllocGlobal>(rt: &R) -> Option<u64> {
    let time = number_in(rt, "WATCHDOG_USEC")?;
    match number_in(rt, "WATCHDOG_PID") {
        Some(process) if i64::try_from(process) != Ok(i64::from(getpid())) => None,
        _ => Some((time / 2000).max(1)),
    }
}

impl Manager {
    /// The one that the environment names.
    pub(crate) fn of<R: Env + AllocGlobal>(rt: &R) -> Manager {
        let mut address = [0u8; ROOM];
        let length = match env::var(rt, "NOTIFY_SOCKET") {
            Ok(name) => put_address(&mut address, name.as_str()),
            Err(_) => 0,
        };
        Manager {
            address,
            length,
            every: watched_every(rt),
            next: 0,
        }
    }

    /// Tells it this. If that fails, nothing follows: it has limits of its own for what it isn't told.
    pub(crate) fn tell(&self, text: &str) {
        if self.length == 0 || self.length > ROOM as u32 {
            return;
        }
        let teller = unsafe { socket(AF_UNIX, SOCK_DGRAM | SOCK_CLOEXEC, 0) };
        if teller < 0 {
            return;
        }
        let flags = MSG_NOSIGNAL | MSG_DONTWAIT;
        let _ = unsafe { sendto(teller, text.as_bytes(), flags, &self.address, self.length) };
        let _ = close(teller);
    }

    /// Tells it that the gateway goes on, if that is due at a moment.
    pub(crate) fn go_on(&mut self, moment: u64) {
        let Some(every) = self.every else {
            return;
        };
        if moment >= self.next {
            self.next = moment.saturating_add(every);
            self.tell("WATCHDOG=1\n");
        }
    }
}
