//! The links that are moved: one to this gateway, whose datagrams wait, and those that were moved away.

ghost use Rattle.std.specs.Prelude.{◌≡◌};
ghost use Rattle.rohc_station.specs.Moves.{without};

use crate::held::{Arrived, Held};
use rohc_serve::named_link;
use std::alloc::{AllocError, Global};
use std::mem;

/// The links that are moved to this gateway, or from it.
#[derive(Drop)]
pub struct Moves {
    /// The datagrams of the link that is moved here.
    pub(crate) held: Option<Held>,
    /// The links that were exported.
    pub(crate) away: Vec<u16>,
    /// How many of their datagrams were dropped.
    pub(crate) dropped: u64,
}

/// Removes a link from a list.
fn remove(links: &mut Vec<u16>, link: u16)
    ensures { links.new.items ≡ without link links.old.items }
{
    links.retain(|number| *number != link);
}

impl Moves {
    ghost use Rattle.std.specs.Prelude.{◌≡◌, ◌≢◌, ℕ, [], true, option_map, None, OnOk, OnErr};
    ghost use Rattle.rohc_links.specs.Limits.{counted};
    ghost use Rattle.rohc_station.specs.Held.{came};
    ghost use Rattle.rohc_station.specs.Moves.{holds, is_away, without, HoldsNone, KeepsIfHeld, HoldsBack};

    /// No link is moved.
    pub fn new(alloc: Global) -> Moves
        ensures held { result.held ≡ None }
        ensures away { result.away.items ≡ [] }
        ensures dropped { result.dropped ≡ 0 }
    {
        Moves {
            held: None,
            away: Vec::new(alloc),
            dropped: 0,
        }
    }

    /// The datagrams of the link that is held, if one is.
    pub fn held(&self) -> Option<&Held>
        ensures { option_map (λ h. h.now) result ≡ self.now.held }
    {
        self.held.as_ref()
    }

    /// The links that were exported.
    pub fn away(&self) -> &[u16]
        ensures { result.now ≡ self.now.away.items }
    {
        self.away.as_slice()
    }

    /// How many datagrams of exported links were dropped. The count stays at the greatest `u64`.
    pub fn dropped(&self) -> u64
        ensures { result ≡ self.now.dropped }
    {
        self.dropped
    }

    /// Whether a link is held.
    pub fn is_held(&self, link: u16) -> bool
        ensures { result ≡ holds self.now.held link }
    {
        match &self.held {
            Some(held) => held.link() == link,
            None => false,
        }
    }

    /// Whether a link was exported.
    pub fn is_away(&self, link: u16) -> bool
        ensures { result ≡ is_away self.now link }
    {
        self.away.contains(&link)
    }

    /// Lets the datagrams of a link wait from now on; it counts as exported no longer. A link that was held before is held no
    /// longer. The error is lack of memory; then nothing changes.
    pub fn hold(&mut self, alloc: Global, link: u16) -> Result<(), AllocError>
        ensures held { OnOk result (HoldsNone self.new.held link) }
        ensures away { OnOk result (self.new.away.items ≡ without link self.old.away.items) }
        ensures dropped { self.new.dropped ≡ self.old.dropped }
        ensures kept { OnErr result (self.new ≡ self.old) }
    {
        self.held = Some(Held::new(alloc, link)?);
        remove(&mut self.away, link);
        Ok(())
    }

    /// Holds no link any longer, and returns the datagrams that waited.
    pub fn release(&mut self) -> Option<Held>
        ensures held { result ≡ self.old.held }
        ensures none { self.new.held ≡ None }
        ensures away { self.new.away ≡ self.old.away }
        ensures dropped { self.new.dropped ≡ self.old.dropped }
    {
        mem::replace(&mut self.held, None)
    }

    /// Notes that a link was exported. The error is lack of memory; then nothing changes.
    pub fn export(&mut self, link: u16) -> Result<(), AllocError>
        ensures away { OnOk result (is_away self.new link ≡ true) }
        ensures others { (other : ℕ) → other ≢ link → is_away self.new other ≡ is_away self.old other }
        ensures held { self.new.held ≡ self.old.held }
        ensures dropped { self.new.dropped ≡ self.old.dropped }
    {
        if !self.is_away(link) {
            self.away.push(link)?;
        }
        Ok(())
    }

    /// Notes that a link counts as exported no longer.
    pub fn take_back(&mut self, link: u16)
        ensures away { self.new.away.items ≡ without link self.old.away.items }
        ensures held { self.new.held ≡ self.old.held }
        ensures dropped { self.new.dropped ≡ self.old.dropped }
    {
        remove(&mut self.away, link);
    }

    /// Counts a datagram of an exported link as dropped.
    fn drop_one(&mut self)
        ensures { self.new ≡ record self.old { dropped = counted self.old.dropped 1 } }
    {
        self.dropped = self.dropped.saturating_add(1);
    }

    /// Keeps a datagram of a link that is held, if it is of this link. Returns whether it is.
    fn keep(&mut self, link: u16, arrived: Arrived<'_>) -> bool
        ensures { KeepsIfHeld (holds self.old.held link) self.old self.new (came arrived.entry.moment arrived.entry.is_timed arrived.entry.octets.now) result }
    {
        match &mut self.held {
            Some(held) if held.link() == link => {
                held.keep(arrived.moment, arrived.is_timed, arrived.octets);
                true
            }
            _ => false,
        }
    }

    /// Keeps a datagram of the link that is held, or drops one of an exported link. Returns whether it did.
    pub(crate) fn hold_back(&mut self, arrived: Arrived<'_>) -> bool
        ensures { HoldsBack self.old self.new (came arrived.entry.moment arrived.entry.is_timed arrived.entry.octets.now) result }
    {
        if self.held.is_none() && self.away.is_empty() {
            return false;
        }
        let Some((link, _)) = named_link(arrived.octets) else {
            return false;
        };
        if self.keep(link, arrived) {
            return true;
        }
        let is_away = self.is_away(link);
        if is_away {
            self.drop_one();
        }
        is_away
    }
}
