//! The index of an entry of a map: a cached index is tried before the key is looked up.

ghost use Rattle.std.specs.Prelude.{◌≡◌, ◌+◌, ◌<◌, ◌≤◌, None, true, IfSome, nat_eq};
ghost use Rattle.indexmap.specs.IndexMap.{get};
ghost use Rattle.rohc_concentrator.specs.Tables.{IsPlaceOf};

use crate::records::LinkRecords;
use indexmap::IndexMap;
use std::alloc::Global;

/// The number of keys to make room for, so that this key has room: as many as a link of small CIDs may have, or a multiple
/// of 64. So memory is seldom asked for.
fn room_for(key: usize) -> usize
    requires { key < 65536 }
    ensures room { key < result }
    ensures few { result ≤ key + 64 }
{
    if key < 16 { 16 } else { (key / 64 + 1) * 64 }
}

/// Whether the entry at this index has this key.
#[inline(always)]
fn stands_at<V>(map: &IndexMap<u16, V>, place: usize, key: u16) -> bool
    ensures { result ≡ true → IsPlaceOf map.now place key }
{
    let Some((found, _)) = map.get_index(place) else {
        return false;
    };
    *found == key
}

/// The index of a key's entry, if it has one, by its hash. It isn't inlined, so that a caller who finds the entry at the
/// cached index keeps its values in registers.
#[cold]
#[inline(never)]
fn place_by_hash<V>(map: &IndexMap<u16, V>, key: u16) -> Option<usize>
    ensures there { IfSome result (λ place. IsPlaceOf map.now place key) }
    ensures absent { result ≡ None → get nat_eq map.now key ≡ None }
{
    map.get_index_of(&key)
}

/// The index of a key's entry, if it has one: `hint`, or by its hash.
#[inline(always)]
pub(crate) fn place_of<V>(map: &IndexMap<u16, V>, hint: usize, key: u16) -> Option<usize>
    ensures there { IfSome result (λ place. IsPlaceOf map.now place key) }
    ensures absent { result ≡ None → get nat_eq map.now key ≡ None }
{
    if stands_at(map, hint, key) {
        return Some(hint);
    }
    let Some(found) = place_by_hash(map, key) else {
        return None;
    };
    Some(found)
}

/// The index at which the entry of each key of a map was put. It is only a hint, since the map may have changed: whoever uses
/// it compares the key there. So 16 bits do, and a hint for which there is no memory isn't kept.
#[derive(Drop)]
pub(crate) struct Places {
    hints: Vec<u16>,
}

impl Places {
    /// No hints.
    pub(crate) fn new(alloc: Global) -> Places {
        Places {
            hints: Vec::new(alloc),
        }
    }

    /// The index of the key's entry, if it was kept.
    #[inline(always)]
    pub(crate) fn hint(&self, key: u16) -> usize {
        match self.hints.get(usize::from(key)) {
            Some(place) => usize::from(*place),
            None => 0,
        }
    }

    /// Keeps the index at which the key's entry was put.
    pub(crate) fn keep(&mut self, key: u16, place: usize) {
        let index = usize::from(key);
        if index >= self.hints.len() && self.hints.resize(room_for(index), 0).is_err() {
            return;
        }
        if let Some(hint) = self.hints.get_mut(index) {
            *hint = (place % 65_536) as u16;
        }
    }

    /// Keeps the index of each entry of a map, in no more memory than that takes.
    pub(crate) fn renew<V>(&mut self, map: &IndexMap<u16, V>) {
        let mut needed = 0;
        for (place, (key, _)) in map.iter().enumerate() {
            let index = usize::from(*key);
            if let Some(hint) = self.hints.get_mut(index) {
                *hint = (place % 65_536) as u16;
                needed = needed.max(index + 1);
            }
        }
        self.hints.truncate(needed);
        self.hints.shrink_to_fit();
    }
}

/// The indices at which links were put, and the records of each.
#[derive(Drop)]
pub(crate) struct Hints {
    pub links: Places,
    /// The hints for the records of each link, by the link's index.
    pub contexts: Vec<Places>,
}

impl Hints {
    /// No hints.
    pub(crate) fn new(alloc: Global) -> Hints {
        Hints {
            links: Places::new(alloc),
            contexts: Vec::new(alloc),
        }
    }

    /// The hints for the records of the link at an index, followed by those of the links after it; none, if they aren't
    /// kept.
    #[inline(always)]
    pub(crate) fn of(&mut self, place: usize) -> &mut [Places] {
        let at = place.min(self.contexts.len());
        &mut self.contexts[at..]
    }

    /// The index of a CID's record among those of the link at an index, if it was kept.
    pub(crate) fn context(&self, place: usize, cid: u16) -> usize {
        match self.contexts.get(place) {
            Some(contexts) => contexts.hint(cid),
            None => 0,
        }
    }

    /// Keeps the index of a link that was put last.
    pub(crate) fn keep_link(&mut self, link: u16, place: usize) {
        let contexts = Places::new(*self.contexts.allocator());
        self.links.keep(link, place);
        let _ = self.contexts.push(contexts);
    }

    /// Keeps the index of the last record of a link.
    pub(crate) fn keep_last(&mut self, links: &IndexMap<u16, LinkRecords>, link: u16, cid: u16) {
        let Some(place) = links.get_index_of(&link) else {
            return;
        };
        if let (Some(contexts), Some((_, records))) = (
            self.contexts.get_mut(place),
            links.get_index(place),
        ) {
            contexts.keep(cid, records.contexts.len().saturating_sub(1));
        }
    }

    /// Keeps the index of each record of a link.
    pub(crate) fn renew_records(&mut self, links: &IndexMap<u16, LinkRecords>, link: u16) {
        let Some(place) = links.get_index_of(&link) else {
            return;
        };
        if let (Some(contexts), Some((_, records))) = (
            self.contexts.get_mut(place),
            links.get_index(place),
        ) {
            contexts.renew(&records.contexts);
        }
    }

    /// Keeps the index of each link, after the one at an index was removed.
    pub(crate) fn renew_links(&mut self, links: &IndexMap<u16, LinkRecords>, gone: Option<usize>) {
        self.links.renew(links);
        if let Some(place) = gone
            && place < self.contexts.len()
        {
            self.contexts.remove(place);
        }
    }
}
