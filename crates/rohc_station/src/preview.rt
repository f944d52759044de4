//! What a reload would do, without doing it.

ghost use Rattle.std.specs.Prelude.{◌≡◌, map, IfOk};
ghost use Rattle.rohc_station.specs.Reload.{added, changed, removed};
ghost use Rattle.rohc_station.specs.Preview.{link_of, lost_in, lost_on, loss_of_removed, loss_of_changed};

use crate::reload::{ReloadFault, differs, is_among, judge, names_link, numbers_of};
use crate::station::{Station, context_count};
use rohc_concentrator::{Concentrator, LinkRecords, LinkSetting};
use rohc_frame::CidKind;
use rohc_links::Links;
use std::alloc::{AllocError, Global};

/// A link, and how many of its contexts a reload would remove.
#[derive(Clone, Copy)]
pub struct Loss {
    /// The link.
    pub link: u16,
    /// How many contexts it would lose.
    pub contexts: u64,
}

/// What a reload would do.
#[derive(Drop)]
pub struct Preview {
    /// The links that it would add.
    pub added: Vec<u16>,
    /// The links whose setting it would change.
    pub changed: Vec<Loss>,
    /// The links that it would remove.
    pub removed: Vec<Loss>,
}

/// The links of the file whose numbers aren't among these.
fn added_links(
    alloc: Global,
    settings: &[LinkSetting],
    numbers: &[u16],
) -> Result<Vec<u16>, AllocError>
    ensures { IfOk result (λ links. links.items ≡ map link_of (added numbers.now settings.now)) }
{
    let mut links = Vec::new(alloc);
    for setting in settings {
        if !is_among(numbers, setting.link) {
            links.push(setting.link)?;
        }
    }
    Ok(links)
}

/// The links that the file leaves out, with all their contexts.
fn removed_links(
    alloc: Global,
    concentrator: &Concentrator,
    settings: &[LinkSetting],
    numbers: &[u16],
) -> Result<Vec<Loss>, AllocError>
    ensures { IfOk result (λ losses. losses.items ≡ map (loss_of_removed concentrator.now) (removed settings.now numbers.now)) }
{
    let mut losses = Vec::new(alloc);
    for link in numbers {
        if !names_link(settings, *link) {
            losses.push(Loss {
                link: *link,
                contexts: context_count(concentrator, *link) as u64,
            })?;
        }
    }
    Ok(losses)
}

/// Whether two CID kinds are the same.
fn is_same_kind(before: CidKind, after: CidKind) -> bool
    ensures { result ≡ is_same_kind before after }
{
    match (before, after) {
        (CidKind::Small, CidKind::Small) | (CidKind::Large, CidKind::Large) => true,
        (CidKind::Small, CidKind::Large) | (CidKind::Large, CidKind::Small) => false,
    }
}

ghost use Rattle.rohc_concentrator.specs.Leaving.{is_same_kind};

/// How many contexts of a link don't survive this setting.
fn lost_in(records: &LinkRecords, setting: &LinkSetting) -> u64
    ensures { result ≡ lost_in records.now setting.now }
{
    let is_kept = is_same_kind(records.setting.settings.size, setting.settings.size);
    let greatest = setting.settings.max_cid;
    let mut lost = 0u64;
    for (cid, _) in &records.contexts {
        if !(is_kept && *cid <= greatest) {
            lost = lost.saturating_add(1);
        }
    }
    lost
}

/// How many contexts a link loses by this setting.
fn lost_on(concentrator: &Concentrator, setting: &LinkSetting) -> u64
    ensures { result ≡ lost_on concentrator.now setting.now }
{
    match concentrator.tables().get(&setting.link) {
        Some(records) => lost_in(records, setting),
        None => 0,
    }
}

/// The links that have another setting in the file, with the contexts that don't survive it.
fn changed_links(
    alloc: Global,
    concentrator: &Concentrator,
    settings: &[LinkSetting],
) -> Result<Vec<Loss>, AllocError>
    ensures { IfOk result (λ losses. losses.items ≡ map (loss_of_changed concentrator.now) (changed concentrator.now settings.now)) }
{
    let mut losses = Vec::new(alloc);
    for setting in settings {
        if differs(concentrator, setting) {
            losses.push(Loss {
                link: setting.link,
                contexts: lost_on(concentrator, setting),
            })?;
        }
    }
    Ok(losses)
}

impl Station {
    ghost use Rattle.std.specs.Prelude.{IfOk, IfErr, OnOk};
    ghost use Rattle.rohc_concentrator.specs.Setup.{AreFine};
    ghost use Rattle.rohc_station.specs.Reload.{IsReloadFault};
    ghost use Rattle.rohc_station.specs.Preview.{Foresees};

    /// What `reload` would do with these links: the links that it would add, change and remove, each with the number of
    /// contexts that it would lose. It changes nothing. The error is that of `reload`.
    pub fn preview(&self, alloc: Global, links: &Links) -> Result<Preview, ReloadFault>
        ensures foresees { IfOk result (Foresees self.now.concentrator links.now.settings) }
        ensures fine { OnOk result (AreFine links.now.settings) }
        ensures fault { IfErr result (IsReloadFault links.now.settings) }
    {
        judge(alloc, links.settings())?;
        let numbers = numbers_of(alloc, &self.concentrator)?;
        let (settings, numbers) = (links.settings(), numbers.as_slice());
        Ok(Preview {
            added: added_links(alloc, settings, numbers)?,
            changed: changed_links(alloc, &self.concentrator, settings)?,
            removed: removed_links(alloc, &self.concentrator, settings, numbers)?,
        })
    }
}
