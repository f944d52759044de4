//! A save by pieces, from its begin to its last octet.

ghost use Rattle.std.specs.Prelude.{◌≡◌, ◌≤◌, ◌<◌, ◌+◌, ◌++◌, ◌∷◌, [], ℕ, List, true, false, map, take, drop, length, ◌%◌, ◌^◌, IfOk, OnOk, OnErr};
ghost use Rattle.rohc_concentrator.specs.declared.concentrator.Concentrator.{Concentrator};
ghost use Rattle.rohc_piecewise.specs.Piecewise.{Head, heads_of, IsSavedOver};
ghost use Rattle.rohc_piecewise.specs.Noted.{head_in};
ghost use Rattle.rohc_piecewise.specs.Between.{start_of};
ghost use Rattle.rohc_piecewise.specs.UnderWay.{busy, waiting, looked_at, IsTaken, IsUnderWay};
ghost use Rattle.rohc_piecewise.specs.declared.saver.Stage.TheVariants.{Waiting, Last};

use crate::noted::Noted;
use crate::ready::Ready;
use crate::saver::{Saver, Stage};
use rohc_concentrator::Concentrator;
use rohc_saved::start_part;
use sha2::{Digest, Sha256};
use std::alloc::{AllocError, Global};

/// The most octets that one piece puts out.
pub const MOST_OCTETS: usize = 65_536;

/// What is noted of the links that stand, in the order of their settings.
fn heads_of(alloc: Global, concentrator: &Concentrator) -> Result<Vec<Noted>, AllocError>
    ensures { IfOk result (λ heads. map head_in heads.items ≡ heads_of concentrator.now) }
{
    let tables = concentrator.tables();
    let mut heads = Vec::with_capacity(alloc, tables.len())?;
    for (_, records) in tables {
        heads.push(Noted::of(records))?;
    }
    Ok(heads)
}

/// Makes ready what stands in front of the links.
fn put_start(ready: &mut Ready, moment: u64, count: usize)
    ensures text { ready.new.octets.items ≡ start_of moment count }
    ensures next { ready.new.next ≡ 0 }
{
    let start = start_part(moment, count);
    ready.clear();
    ready.put(start.as_slice());
}

/// The first octets, at most so many.
fn front_of(octets: &[u8], count: usize) -> &[u8]
    ensures { result.now ≡ take count octets.now }
{
    match octets.get(..count) {
        Some(front) => front,
        None => octets,
    }
}

/// The octets from a place on.
fn behind(octets: &[u8], from: usize) -> &[u8]
    ensures { result.now ≡ drop from octets.now }
{
    match octets.get(from..) {
        Some(rest) => rest,
        None => &[],
    }
}

/// The octets from a place on, at most `MOST_OCTETS`.
fn piece_from(octets: &[u8], from: usize) -> &[u8]
    ensures { result.now ≡ take 65536 (drop from octets.now) }
{
    front_of(behind(octets, from), MOST_OCTETS)
}

impl Saver {
    /// Takes the buffer. Nothing is being saved.
    pub fn new(alloc: Global) -> Result<Saver, AllocError>
        ensures { IfOk result (λ s. busy s ≡ false) }
    {
        let ready = Ready::new(alloc)?;
        Ok(Saver {
            heads: Vec::new(alloc),
            place: 0,
            ready,
            sent: 0,
            hasher: Sha256::new(),
            stage: Stage::Idle,
        })
    }

    /// Begins a save of the links that stand, at this moment, in milliseconds of the clock of the arrivals. What was under way
    /// before is given up.
    ///
    /// The error is that there is no memory for the list of links; then nothing is being saved.
    pub fn begin(
        &mut self,
        alloc: Global,
        concentrator: &Concentrator,
        moment: u64,
    ) -> Result<(), AllocError>
        ensures begun { OnOk result (IsUnderWay moment (heads_of concentrator.now) [] [] self.new) }
        ensures busy { OnOk result (busy self.new ≡ true) }
        ensures none_yet { OnOk result (looked_at self.new ≡ 0) }
        ensures fault { OnErr result (busy self.new ≡ false) }
    {
        self.stage = Stage::Idle;
        self.heads = heads_of(alloc, concentrator)?;
        self.place = 0;
        self.sent = 0;
        self.hasher = Sha256::new();
        put_start(&mut self.ready, moment, self.heads.len());
        self.stage = Stage::Waiting;
        Ok(())
    }

    /// Whether a save is under way: begun, and its last octet not yet taken.
    pub fn is_busy(&self) -> bool
        ensures { result ≡ busy self.now }
    {
        match self.stage {
            Stage::Idle => false,
            Stage::Gathering | Stage::Waiting | Stage::Last => true,
        }
    }

    /// Looks at the next CIDs, at most `MOST_CIDS`, if a save is under way and none of its octets wait to be taken. Otherwise
    /// it does nothing.
    pub fn gather(&mut self, concentrator: &Concentrator)
        ensures goes { (moment : ℕ) (heads : List Head) (seen : List Concentrator) (taken : List ℕ) →
            IsUnderWay moment heads seen taken self.old →
            IsUnderWay moment heads (seen ++ concentrator.now ∷ []) taken self.new }
        ensures work { looked_at self.new ≤ looked_at self.old + 256 }
        ensures on { (moment : ℕ) (heads : List Head) (seen : List Concentrator) (taken : List ℕ) →
            IsUnderWay moment heads seen taken self.old → busy self.old ≡ true → waiting self.old ≡ [] →
            looked_at self.old < looked_at self.new }
    {
        let Stage::Gathering = self.stage else {
            return;
        };
        let Some(link) = self.heads.get(self.place) else {
            return;
        };
        let link = *link;
        self.ready.look_on(concentrator, link);
        if self.ready.next > link.greatest {
            self.ready.put_head(link);
            self.place += 1;
            self.sent = 0;
            self.stage = Stage::Waiting;
        }
    }

    /// The octets that wait to be taken, at most `MOST_OCTETS`. There are none while contexts are gathered, and when nothing is
    /// being saved.
    pub fn piece(&self) -> &[u8]
        ensures piece { result.now ≡ take 65536 (waiting self.now) }
        ensures few { length result.now ≤ 65536 }
    {
        match self.stage {
            Stage::Idle | Stage::Gathering => &[],
            Stage::Waiting | Stage::Last => piece_from(self.ready.octets.as_slice(), self.sent),
        }
    }

    /// Says that the first `count` octets of the piece were taken, or all of it if it has fewer.
    pub fn take(&mut self, count: usize)
        ensures taken { (moment : ℕ) (heads : List Head) (seen : List Concentrator) (taken : List ℕ) →
            IsUnderWay moment heads seen taken self.old →
            IsUnderWay moment heads seen (taken ++ take count (take 65536 (waiting self.old))) self.new }
        ensures looked { looked_at self.new ≡ looked_at self.old }
    {
        match self.stage {
            Stage::Idle | Stage::Gathering => {}
            Stage::Waiting => self.take_part(count),
            Stage::Last => self.take_digest(count),
        }
    }

    /// Takes octets in front of the digest. After the last of those that are ready it goes on.
    fn take_part(&mut self, count: usize)
        ensures looked { self.old.stage ≡ Waiting → looked_at self.new ≡ looked_at self.old }
        ensures taken { (moment : ℕ) (heads : List Head) (seen : List Concentrator) (taken : List ℕ) →
            self.old.stage ≡ Waiting → IsUnderWay moment heads seen taken self.old →
            IsUnderWay moment heads seen (taken ++ take count (take 65536 (drop self.old.sent self.old.ready.octets.items))) self.new }
    {
        let ready = &self.ready;
        let part = front_of(piece_from(ready.octets.as_slice(), self.sent), count);
        self.hasher.update(part);
        self.sent += part.len();
        if self.sent >= self.ready.octets.len() {
            self.go_on();
        }
    }

    /// Takes octets of the digest. After the last one nothing is being saved.
    fn take_digest(&mut self, count: usize)
        ensures looked { self.old.stage ≡ Last → looked_at self.new ≡ looked_at self.old }
        ensures taken { (moment : ℕ) (heads : List Head) (seen : List Concentrator) (taken : List ℕ) →
            self.old.stage ≡ Last → IsUnderWay moment heads seen taken self.old →
            IsUnderWay moment heads seen (taken ++ take count (take 65536 (drop self.old.sent self.old.ready.octets.items))) self.new }
    {
        let ready = &self.ready;
        let part = front_of(piece_from(ready.octets.as_slice(), self.sent), count);
        self.sent += part.len();
        if self.sent >= self.ready.octets.len() {
            self.stage = Stage::Idle;
        }
    }

    /// Goes on to the next link, or makes the digest ready after the last one.
    fn go_on(&mut self)
        ensures looked { self.old.stage ≡ Waiting → looked_at self.new ≡ looked_at self.old }
        ensures taken { (moment : ℕ) (heads : List Head) (seen : List Concentrator) (taken : List ℕ) →
            IsTaken moment heads seen taken self.old → IsUnderWay moment heads seen taken self.new }
    {
        self.sent = 0;
        self.ready.clear();
        if self.place < self.heads.len() {
            self.ready.put(&[0; 8]);
            self.stage = Stage::Gathering;
        } else {
            let digest = self.hasher.finalize_reset();
            self.ready.put(&digest);
            self.stage = Stage::Last;
        }
    }
}
