//! Saving and restoring, as C calls them (docs/FORMATS.md).

ghost use Rattle.std.specs.Prelude.{◌≡◌, ◌<◌, ◌≤◌, length, true, false, IfOk, IfErr, IfSome};
ghost use Rattle.rohc_saved.specs.Form.{saved_form};
ghost use Rattle.rohc_c.specs.Written.{StandsIn};
ghost use Rattle.rohc_c.specs.Saved.{IsSavedAs, IsBack, IsNotBack, told, link_back_number, link_back_place};

use crate::link::{RohcLink, link_settings};
use crate::setup::{NewFault, judge};
use rohc_concentrator::{Concentrator, SetupFault};
use rohc_saved::{LinkFault, Restored, SaveFault, SavedFault, restore, save, save_link};
use std::alloc::Global;

/// What was restored: `struct polorowan_restored` of include/polorowan.h. Each count stays at the greatest number of 64 bits.
#[repr(C)]
#[derive(Clone, Copy, Default, Drop)]
pub struct RohcRestored {
    /// The moment of saving, in milliseconds.
    pub moment: u64,
    /// Links that were taken.
    pub links: u64,
    /// Links that aren't in the settings, and were left out.
    pub unknown_links: u64,
    /// Links of another CID kind in the settings, which were left out.
    pub other_links: u64,
    /// Contexts that were taken.
    pub contexts: u64,
    /// Contexts that were left out with their link.
    pub left_contexts: u64,
    /// Contexts of taken links that were left out, since their CID is above the greatest of the settings.
    pub high_contexts: u64,
}

/// What was restored, for C.
pub(crate) fn tell(restored: Restored) -> RohcRestored
    ensures { result ≡ told restored }
{
    RohcRestored {
        moment: restored.moment,
        links: restored.links,
        unknown_links: restored.unknown_links,
        other_links: restored.other_links,
        contexts: restored.contexts,
        left_contexts: restored.left_contexts,
        high_contexts: restored.high_contexts,
    }
}

/// Why nothing is restored: why no concentrator is made from the links, or the first fault of the octets.
#[derive(Clone, Copy, PartialEq, Eq)]
pub enum BackFault {
    /// As of `polorowan_new`.
    New(NewFault),
    /// The octets don't begin as those of a saved concentrator do.
    NotSaved,
    /// The version isn't 1.
    Version { place: usize },
    /// The octets end too soon.
    Short { place: usize },
    /// A bad value of a link.
    BadLink { place: usize },
    /// A bad value of a context.
    BadContext { place: usize },
    /// A link or a CID for the second time, or a CID above the greatest of its link.
    BadOrder { place: usize },
    /// The digest isn't that of the octets before it.
    Digest { place: usize },
    /// Octets follow the digest.
    Long { place: usize },
}

impl BackFault {
    ghost use Rattle.std.specs.Prelude.{◌≡◌};
    ghost use Rattle.rohc_c.specs.Saved.{not_back_number, not_back_place, fault_of_saved};

    /// The status that C gets for the fault.
    pub(crate) fn number(self) -> u8
        ensures { result ≡ not_back_number self }
    {
        match self {
            BackFault::New(fault) => fault.number(),
            BackFault::NotSaved => 7,
            BackFault::Version { .. } => 8,
            BackFault::Short { .. } => 9,
            BackFault::BadLink { .. } => 10,
            BackFault::BadContext { .. } => 11,
            BackFault::BadOrder { .. } => 12,
            BackFault::Digest { .. } => 13,
            BackFault::Long { .. } => 14,
        }
    }

    /// The place of the link at fault, counted from 1, or that of the octet, counted from 0; else 0.
    pub(crate) fn place(self) -> usize
        ensures { result ≡ not_back_place self }
    {
        match self {
            BackFault::New(fault) => fault.place(),
            BackFault::NotSaved => 0,
            BackFault::Version { place }
            | BackFault::Short { place }
            | BackFault::BadLink { place }
            | BackFault::BadContext { place }
            | BackFault::BadOrder { place }
            | BackFault::Digest { place }
            | BackFault::Long { place } => place,
        }
    }

    /// The fault of a restore.
    fn of(fault: SavedFault) -> BackFault
        ensures { result ≡ fault_of_saved fault }
    {
        match fault {
            SavedFault::Settings(setup) => BackFault::New(NewFault::Setup(setup)),
            SavedFault::NoMemory => BackFault::New(NewFault::Setup(SetupFault::NoMemory)),
            SavedFault::NotSaved => BackFault::NotSaved,
            SavedFault::Version { place } => BackFault::Version { place },
            SavedFault::Short { place } => BackFault::Short { place },
            SavedFault::BadLink { place } => BackFault::BadLink { place },
            SavedFault::BadContext { place } => BackFault::BadContext { place },
            SavedFault::BadOrder { place } => BackFault::BadOrder { place },
            SavedFault::Digest { place } => BackFault::Digest { place },
            SavedFault::Long { place } => BackFault::Long { place },
        }
    }
}

/// The status that C gets if one link isn't restored. That of octets is 7 or more, since reading them finds no fault of
/// settings; no clause says so.
pub(crate) fn link_back_number(fault: LinkFault) -> u8
    ensures number { result ≡ link_back_number fault }
    ensures some { 2 ≤ result }
{
    match fault {
        LinkFault::NoLink => 2,
        LinkFault::HasContexts => 3,
        LinkFault::OtherLink => 4,
        LinkFault::OtherKind => 5,
        LinkFault::NoMemory => 6,
        LinkFault::Octets(fault) => BackFault::of(fault).number().max(6),
    }
}

/// The place of the octet at fault if one link isn't restored, counted from 0; else 0.
pub(crate) fn link_back_place(fault: LinkFault) -> usize
    ensures { result ≡ link_back_place fault }
{
    match fault {
        LinkFault::Octets(fault) => BackFault::of(fault).place(),
        LinkFault::NoLink
        | LinkFault::HasContexts
        | LinkFault::OtherLink
        | LinkFault::OtherKind
        | LinkFault::NoMemory => 0,
    }
}

/// The fault for a refused request for memory.
fn poor() -> BackFault
    ensures { result ≡ BackFault.New (NewFault.Setup SetupFault.NoMemory) }
{
    BackFault::New(NewFault::Setup(SetupFault::NoMemory))
}

/// Makes a concentrator with these links that goes on from what these octets spell.
pub(crate) fn rebuild(
    alloc: Global,
    links: &[RohcLink],
    octets: &[u8],
) -> Result<(Box<Concentrator>, RohcRestored), BackFault>
    ensures back { IfOk result (λ b. IsBack links.now octets.now b.0.value b.1) }
    ensures fault { IfErr result (IsNotBack links.now octets.now) }
{
    if let Err(fault) = judge(links) {
        return Err(BackFault::New(fault));
    }
    let Ok(settings) = link_settings(alloc, links) else {
        return Err(poor());
    };
    let (concentrator, restored) = match restore(alloc, settings.as_slice(), octets) {
        Ok(back) => back,
        Err(fault) => return Err(BackFault::of(fault)),
    };
    match Box::new(alloc, concentrator) {
        Ok(kept) => Ok((kept, tell(restored))),
        Err(_) => Err(poor()),
    }
}

/// The octets of a concentrator that is saved at this moment.
pub(crate) fn saved_octets(
    alloc: Global,
    concentrator: &Concentrator,
    moment: u64,
) -> Option<Vec<u8>>
    ensures { IfSome result (λ v. v.items ≡ saved_form moment concentrator.now) }
{
    let mut octets = Vec::new(alloc);
    match save(concentrator, moment, &mut octets) {
        Ok(_) => Some(octets),
        Err(_) => None,
    }
}

/// A link that was saved: its octets, or why there are none.
#[derive(Drop)]
pub enum SavedLink {
    /// The octets.
    Saved(Vec<u8>),
    /// The link isn't there.
    NoLink,
    /// There is no memory.
    NoMemory,
}

/// The octets of a link that is saved at this moment.
pub(crate) fn saved_link(
    alloc: Global,
    concentrator: &Concentrator,
    link: u16,
    moment: u64,
) -> SavedLink
    ensures { IsSavedAs concentrator.now link moment result }
{
    let mut octets = Vec::new(alloc);
    match save_link(concentrator, link, moment, &mut octets) {
        Ok(_) => SavedLink::Saved(octets),
        Err(SaveFault::NoLink) => SavedLink::NoLink,
        Err(SaveFault::Write { .. }) => SavedLink::NoMemory,
    }
}

/// Writes octets at the start of a buffer, if they fit, and returns whether they do.
pub(crate) fn put_octets(octets: &[u8], place: &mut [u8]) -> bool
    ensures put { result ≡ true → StandsIn octets.now (length octets.now) place.new }
    ensures short { result ≡ false → (length place.old < length octets.now) × (place.new ≡ place.old) }
{
    if place.len() < octets.len() {
        return false;
    }
    place[..octets.len()].copy_from_slice(octets);
    true
}
