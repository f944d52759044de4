//! Those who see what comes of datagrams, and change nothing of it.

use crate::ahead::Ahead;
use crate::sending::Taken;
use crate::station::Station;
use crate::timed::Timed;

/// What an observer wants to see.
#[derive(Clone, Copy, PartialEq, Eq)]
pub enum Wish {
    /// Nothing.
    Nothing,
    /// The packets that arrive.
    Arrivals,
    /// The packets, and what each is before it is taken.
    Ahead,
}

/// A datagram, as it was before it was taken.
#[derive(Clone, Copy)]
pub struct Seen<'a> {
    /// Whether the moment is one of its sender's.
    pub is_timed: bool,
    /// Its packet; `None` if it is too short.
    pub arrival: Option<Timed<'a>>,
    /// What its packet is, if that is wanted.
    pub ahead: Option<Ahead>,
}

/// Sees datagrams, and what comes of them.
pub trait Observer {
    /// What it wants to see now.
    fn wish(&self) -> Wish;

    /// Sees a datagram, and what came of it.
    fn see(&mut self, seen: &Seen<'_>, taken: &Taken<'_>);
}

impl Station {
    ghost use Rattle.std.specs.Prelude.{◌≡◌};
    ghost use Rattle.std.specs.Option.{option_map};
    ghost use Rattle.rohc_station.specs.Timed.{plain_timed};
    ghost use Rattle.rohc_station.specs.Taking.{trimmed_at};

    /// The packet of a datagram without what a layer below added behind it.
    fn trimmed_in<'a>(&self, read: Option<Timed<'a>>) -> Option<Timed<'a>>
        ensures { option_map plain_timed result ≡ option_map (trimmed_at self.now) (option_map plain_timed read.entry) }
    {
        match read {
            Some(arrival) => Some(self.trimmed(arrival)),
            None => None,
        }
    }

    /// A datagram as it was read, before it is taken.
    #[inline(never)]
    pub(crate) fn seen<'a>(&self, wish: Wish, is_timed: bool, read: Option<Timed<'a>>) -> Seen<'a>
        ensures arrival { option_map plain_timed result.arrival ≡ option_map (trimmed_at self.now) (option_map plain_timed read.entry) }
        ensures is_timed { result.is_timed ≡ is_timed }
    {
        let arrival = self.trimmed_in(read);
        let ahead = match &arrival {
            Some(arrival) if wish == Wish::Ahead => Some(self.ahead(arrival)),
            _ => None,
        };
        Seen {
            is_timed,
            arrival,
            ahead,
        }
    }
}
