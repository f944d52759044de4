//! Links that come, go and change while a concentrator runs.

ghost use Rattle.std.specs.Prelude.{◌≡◌, ◌+◌, length};
ghost use Rattle.indexmap.specs.IndexMap.{keys};
ghost use Rattle.rohc_concentrator.specs.Setting.{IsGoodSetting};
ghost use Rattle.rohc_concentrator.specs.Leaving.{LeavesIn, survives, is_same_kind};

use crate::answer::NoLink;
use crate::concentrator::Concentrator;
use crate::records::LinkRecords;
use crate::setting::LinkSetting;
use indexmap::IndexMap;
use rohc_frame::CidKind;
use std::alloc::Global;
use thiserror::Error;

/// Why a link isn't added.
#[derive(Clone, Copy, Debug, PartialEq, Eq, Error)]
pub enum AddFault {
    /// There are 256 links.
    #[error("TooManyLinks")]
    TooManyLinks,
    /// The settings or ranges are outside their limits.
    #[error("BadSetting")]
    BadSetting,
    /// The link is there.
    #[error("DuplicateLink")]
    DuplicateLink,
    /// There is no memory.
    #[error("NoMemory")]
    NoMemory,
}

/// Why the setting of a link isn't changed.
#[derive(Clone, Copy, Debug, PartialEq, Eq, Error)]
pub enum ChangeFault {
    /// The link isn't there.
    #[error("NoLink")]
    NoLink,
    /// The settings or ranges are outside their limits.
    #[error("BadSetting")]
    BadSetting,
}

/// Whether two CID kinds are the same.
fn is_same_kind(before: CidKind, after: CidKind) -> bool
    ensures { result ≡ is_same_kind before after }
{
    match (before, after) {
        (CidKind::Small, CidKind::Small) => true,
        (CidKind::Small, CidKind::Large) => false,
        (CidKind::Large, CidKind::Small) => false,
        (CidKind::Large, CidKind::Large) => true,
    }
}

/// Sets the setting of a link, and removes the records that don't survive it. Returns the number of records removed.
fn change_in(records: &mut LinkRecords, setting: LinkSetting) -> usize
    requires { IsGoodSetting setting }
    ensures leaves { LeavesIn records.old (survives records.old.setting setting) records.new }
    ensures setting { records.new.setting ≡ setting }
    ensures gone { result + length (keys records.new.contexts) ≡ length (keys records.old.contexts) }
{
    let before = records.contexts.len();
    let same = is_same_kind(records.setting.settings.size, setting.settings.size);
    let greatest = setting.settings.max_cid;
    records.contexts.retain(|cid, _| same && *cid <= greatest);
    records.setting = setting;
    records.contexts.shrink_to_fit();
    before - records.contexts.len()
}

impl Concentrator {
    ghost use Rattle.std.specs.Prelude.{◌≡◌, length, IfOk};
    ghost use Rattle.rohc_concentrator.specs.Tables.{identifiers_at};
    ghost use Rattle.rohc_concentrator.specs.Leaving.{HaveGone};
    ghost use Rattle.rohc_concentrator.specs.Calls.{AddLink, RemoveLink, ChangeLink, plain_answer, add_answer, change_answer};
    ghost use Rattle.rohc_concentrator.specs.RunsCall.{RunsCall};

    /// Adds a link after the others, without a record.
    ///
    /// The error is the first that holds, in this order: `TooManyLinks`, `BadSetting`, `DuplicateLink`, and `NoMemory`,
    /// which comes only if a request for memory was refused. Then nothing changes.
    pub fn add_link(&mut self, alloc: Global, setting: LinkSetting) -> Result<(), AddFault>
        ensures event { RunsCall self.old setting.link (AddLink setting) (add_answer result) self.new }
    {
        let place = self.links.len();
        if place >= 256 {
            return Err(AddFault::TooManyLinks);
        }
        if !setting.is_good() {
            return Err(AddFault::BadSetting);
        }
        let link = setting.link;
        if self.links.contains_key(&link) {
            return Err(AddFault::DuplicateLink);
        }
        let records = LinkRecords {
            setting,
            contexts: IndexMap::new(alloc),
        };
        if self.links.insert(link, records).is_err() {
            return Err(AddFault::NoMemory);
        }
        self.hints.keep_link(link, place);
        Ok(())
    }

    /// Removes a link with its records. Returns the number of records removed. The error is `NoLink`; then nothing changes.
    pub fn remove_link(&mut self, link: u16) -> Result<usize, NoLink>
        ensures event { RunsCall self.old link RemoveLink (plain_answer result) self.new }
        ensures gone { IfOk result (λ gone. gone ≡ length (identifiers_at self.old link)) }
    {
        let place = self.links.get_index_of(&link);
        let Some(records) = self.links.shift_remove(&link) else {
            return Err(NoLink);
        };
        self.hints.renew_links(&self.links, place);
        Ok(records.contexts.len())
    }

    /// Changes the setting of the link that `setting` names. A context stays unless the CID kind changes or its CID is above
    /// the new `max_cid`. Returns the number of contexts removed.
    ///
    /// The error is `NoLink`, or else `BadSetting`. Then nothing changes.
    pub fn change_link(&mut self, setting: LinkSetting) -> Result<usize, ChangeFault>
        ensures event { RunsCall self.old setting.link (ChangeLink setting) (change_answer result) self.new }
        ensures gone { IfOk result (λ count. HaveGone count self.old self.new setting.link) }
    {
        let Some(records) = self.links.get_mut(&setting.link) else {
            return Err(ChangeFault::NoLink);
        };
        if !setting.is_good() {
            return Err(ChangeFault::BadSetting);
        }
        let link = setting.link;
        let gone = change_in(records, setting);
        self.hints.renew_records(&self.links, link);
        Ok(gone)
    }
}
