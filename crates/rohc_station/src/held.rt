//! The datagrams of a link that is being moved to this gateway: they wait until its contexts come.

ghost use Rattle.std.specs.Prelude.{◌≤◌, All, vec_len, vec_capacity};
ghost use Rattle.rohc_station.specs.declared.held.Mark.{Mark};

use std::alloc::{AllocError, Global};

/// How many datagrams may wait.
const MOST_HELD: usize = 16_384;

/// How many octets they may have together.
const MOST_OCTETS: usize = 4_194_304;

/// A datagram of either form that came at this moment.
#[derive(Clone, Copy)]
pub(crate) struct Arrived<'a> {
    pub(crate) moment: u64,
    pub(crate) is_timed: bool,
    pub(crate) octets: &'a [u8],
}

/// Where a datagram is among the octets of all, when it came, and whether it is a timed one.
#[derive(Clone, Copy)]
pub(crate) struct Mark {
    pub(crate) moment: u64,
    pub(crate) is_timed: bool,
    pub(crate) start: usize,
    pub(crate) end: usize,
}

/// The datagrams of a link that wait, and how many were dropped since there was no room. All room is there from the start.
#[derive(Drop)]
pub struct Held {
    pub(crate) link: u16,
    pub(crate) dropped: u64,
    pub(crate) marks: Vec<Mark>,
    pub(crate) octets: Vec<u8>,
    ghost within: { All (λ (m : Mark). (m.start ≤ m.end) × (m.end ≤ vec_len octets)) marks.items },
    ghost marks_fit: { 16384 ≤ vec_capacity marks },
    ghost octets_fit: { 4194304 ≤ vec_capacity octets },
}

impl Held {
    ghost use Rattle.std.specs.Prelude.{◌≡◌, ◌<◌, ◌^◌, ◌++◌, ◌∷◌, [], true, length, IfOk, vec_len};
    ghost use Rattle.rohc_station.specs.Held.{held_in, has_room, KeepsHeld};

    /// No datagram of this link waits yet. The error is lack of memory.
    pub fn new(alloc: Global, link: u16) -> Result<Held, AllocError>
        ensures link { IfOk result (λ held. held.link ≡ link) }
        ensures none { IfOk result (λ held. held_in held ≡ []) }
        ensures dropped { IfOk result (λ held. held.dropped ≡ 0) }
    {
        let marks = Vec::with_capacity(alloc, MOST_HELD)?;
        let octets = Vec::with_capacity(alloc, MOST_OCTETS)?;
        Ok(Held {
            link,
            dropped: 0,
            marks,
            octets,
        })
    }

    /// The link.
    pub fn link(&self) -> u16
        ensures { result ≡ self.now.link }
    {
        self.link
    }

    /// How many datagrams wait.
    pub fn count(&self) -> usize
        ensures { result ≡ length (held_in self.now) }
    {
        self.marks.as_slice().len()
    }

    /// How many octets they have.
    pub fn octets(&self) -> usize
        ensures { result ≡ vec_len self.now.octets }
    {
        self.octets.len()
    }

    /// How many datagrams were dropped since there was no room.
    pub fn dropped(&self) -> u64
        ensures { result ≡ self.now.dropped }
    {
        self.dropped
    }

    /// Whether there is room for a datagram of this size.
    fn has_room(&self, size: usize) -> bool
        requires { size < 2 ^ 63 }
        ensures { result ≡ has_room size self.now }
    {
        self.marks.len() < MOST_HELD && self.octets.len() + size <= MOST_OCTETS
    }

    /// Puts a datagram behind the others, for which there is room.
    fn put(&mut self, moment: u64, is_timed: bool, datagram: &[u8])
        requires { has_room (length datagram.now) self.old ≡ true }
        ensures list { held_in self.new ≡ held_in self.old ++ record { moment = moment; is_timed = is_timed; octets = datagram.now } ∷ [] }
        ensures link { self.new.link ≡ self.old.link }
        ensures dropped { self.new.dropped ≡ self.old.dropped }
    {
        let start = self.octets.len();
        let Ok(()) = self.octets.extend_from_slice(datagram) else {
            unreachable!();
        };
        let mark = Mark {
            moment,
            is_timed,
            start,
            end: start + datagram.len(),
        };
        let Ok(()) = self.marks.push(mark) else {
            unreachable!();
        };
    }

    /// Keeps a datagram of either form that came at this moment, if there is room for it: at most 16,384 datagrams of 4 MiB
    /// together. Otherwise it is dropped, and counted.
    pub fn keep(&mut self, moment: u64, is_timed: bool, datagram: &[u8])
        ensures { KeepsHeld self.old self.new (record { moment = moment; is_timed = is_timed; octets = datagram.now }) }
    {
        if self.has_room(datagram.len()) {
            self.put(moment, is_timed, datagram);
        } else {
            self.dropped = self.dropped.saturating_add(1);
        }
    }
}
