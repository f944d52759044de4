//! A links file that is taken anew while a station runs.

ghost use Rattle.std.specs.Prelude.{◌≡◌, ◌↔◌, IsTrue};

use crate::calls::keep_standing;
use crate::counters::LinkCounters;
use crate::station::Station;
use indexmap::IndexMap;
use rohc_concentrator::{CidRange, Concentrator, LinkRecords, LinkSetting, SetupFault};
use rohc_context::Settings;
use rohc_links::Links;
use std::alloc::{AllocError, Global};

/// What a reload did.
#[derive(Clone, Copy, PartialEq, Eq)]
pub struct ReloadReport {
    /// Links that were added.
    pub added: u64,
    /// Links whose setting was changed.
    pub changed: u64,
    /// Links that were removed.
    pub removed: u64,
    /// Contexts that went, with their link or by a change of it.
    pub contexts_gone: u64,
}

/// Why the links aren't taken.
#[derive(Clone, Copy, Debug, PartialEq, Eq)]
pub enum ReloadFault {
    /// The settings have this fault. All is as it was.
    Settings(SetupFault),
    /// There is no memory. Links that stay are as they were; some of the new ones may be missing.
    NoMemory,
}

/// Whether two settings are the same.
fn are_same(before: &Settings, after: &Settings) -> bool
    ensures { IsTrue result ↔ (before.now ≡ after.now) }
{
    before == after
}

/// Whether two ranges are the same.
fn is_same_range(before: CidRange, after: CidRange) -> bool
    ensures { IsTrue result ↔ (before ≡ after) }
{
    before == after
}

/// Whether the ranges are the same.
fn are_same_ranges(before: &[CidRange], after: &[CidRange]) -> bool
    ensures { IsTrue result ↔ (before.now ≡ after.now) }
{
    if before.len() != after.len() {
        return false;
    }
    for place in 0..before.len() {
        if !is_same_range(before[place], after[place]) {
            return false;
        }
    }
    true
}

/// Whether two settings of a link are the same.
fn is_same_setting(before: &LinkSetting, after: &LinkSetting) -> bool
    ensures { IsTrue result ↔ (before.now ≡ after.now) }
{
    before.link == after.link
        && are_same(&before.settings, &after.settings)
        && are_same_ranges(before.ranges.as_slice(), after.ranges.as_slice())
}

/// What a file did to some links.
#[derive(Clone, Copy)]
struct Tally {
    /// How many links there were.
    links: u64,
    /// The number of their contexts that were removed.
    contexts: u64,
}

impl Tally {
    ghost use Rattle.std.specs.Prelude.{◌≡◌};
    ghost use Rattle.rohc_links.specs.Limits.{counted};

    /// Adds one link and the number of its contexts that were removed.
    fn add(&mut self, gone: usize)
        ensures links { self.new.links ≡ counted self.old.links 1 }
        ensures contexts { self.new.contexts ≡ counted self.old.contexts gone }
    {
        self.links = self.links.saturating_add(1);
        self.contexts = self.contexts.saturating_add(gone as u64);
    }
}

ghost use Rattle.std.specs.Prelude.{ℕ, ◌<◌, ◌≤◌, ◌+◌, ◌++◌, ◌^◌, ◌≢◌, ◌⊎◌, List, length, map, option_map, nat_eq, true, false, sum_by, IfSome, IfErr, IfOk, OnOk, OnErr, None, Some};
ghost use Rattle.indexmap.specs.IndexMap.{get, keys, IsUnique};
ghost use Rattle.rohc_concentrator.specs.declared.setting.LinkSetting.{LinkSetting};
ghost use Rattle.rohc_concentrator.specs.Setting.{IsGoodSetting};
ghost use Rattle.rohc_concentrator.specs.Tables.{setting_at, identifiers_at, settings_in_order};
ghost use Rattle.rohc_concentrator.specs.Leaving.{HaveGone};
ghost use Rattle.rohc_concentrator.specs.Setup.{entry_of, names_link, AreFine};
ghost use Rattle.rohc_concentrator.specs.Calls.{AddLink, RemoveLink, ChangeLink, Done, NotAdded};
ghost use Rattle.rohc_concentrator.specs.RunsCall.{RunsCall, Turn, Runs};
ghost use Rattle.rohc_concentrator.specs.declared.links.AddFault.TheVariants as adds;
ghost use Rattle.rohc_links.specs.Limits.{counted};
ghost use Rattle.rohc_station.specs.Counting.{KeepsCounts};
ghost use Rattle.rohc_station.specs.Same.{is_same_setting};
ghost use Rattle.rohc_station.specs.Reload.{is_among, AreLinks, removed, differs, changed, added, removing, changing, adding, refused_add, reload_turns, contexts_on, gone_on, Tells, StopsIn, IsReloadFault};

/// Whether one of the settings is of a link.
pub(crate) fn names_link(settings: &[LinkSetting], link: u16) -> bool
    ensures { result ≡ names_link link settings.now }
{
    settings.iter().any(|setting| setting.link == link)
}

/// The setting of a link, if it is there.
fn setting_of(concentrator: &Concentrator, link: u16) -> Option<&LinkSetting>
    ensures { option_map (λ s. s.now) result ≡ setting_at concentrator.now link }
{
    match concentrator.tables().get(&link) {
        Some(records) => Some(&records.setting),
        None => None,
    }
}

/// Whether a link is there with another setting than this one.
pub(crate) fn differs(concentrator: &Concentrator, setting: &LinkSetting) -> bool
    ensures { result ≡ differs (setting_at concentrator.now setting.now.link) setting.now }
{
    match setting_of(concentrator, setting.link) {
        Some(before) => !is_same_setting(before, setting),
        None => false,
    }
}

/// Removes a link that is there. Returns the number of contexts removed.
fn remove(concentrator: &mut Concentrator, link: u16) -> usize
    requires there { setting_at concentrator.old link ≢ None }
    ensures call { RunsCall concentrator.old link RemoveLink Done concentrator.new }
    ensures gone { result ≡ length (identifiers_at concentrator.old link) }
{
    match concentrator.remove_link(link) {
        Ok(gone) => gone,
        Err(_) => 0,
    }
}

/// Removes the links that the file leaves out.
fn remove_links(concentrator: &mut Concentrator, settings: &[LinkSetting], numbers: &[u16]) -> Tally
    requires links { AreLinks concentrator.old numbers.now }
    requires few { length numbers.now < 2 ^ 63 }
    ensures runs { Runs concentrator.old (map removing (removed settings.now numbers.now)) concentrator.new }
    ensures links { result.links ≡ length (removed settings.now numbers.now) }
    ensures contexts { result.contexts ≡ counted 0 (sum_by (contexts_on concentrator.old) (removed settings.now numbers.now)) }
{
    let mut tally = Tally {
        links: 0,
        contexts: 0,
    };
    for link in numbers {
        if !names_link(settings, *link) {
            let gone = remove(concentrator, *link);
            tally.add(gone);
        }
    }
    tally
}

/// Changes the setting of a link that is there. Returns the number of contexts removed.
fn change(concentrator: &mut Concentrator, setting: LinkSetting) -> usize
    requires there { setting_at concentrator.old setting.link ≢ None }
    requires good { IsGoodSetting setting }
    ensures call { RunsCall concentrator.old setting.link (ChangeLink setting) Done concentrator.new }
    ensures gone { HaveGone result concentrator.old concentrator.new setting.link }
{
    match concentrator.change_link(setting) {
        Ok(gone) => gone,
        Err(_) => 0,
    }
}

/// Changes the settings of links that are there with another one. The error is lack of memory.
fn change_links(
    concentrator: &mut Concentrator,
    settings: &[LinkSetting],
) -> Result<Tally, AllocError>
    requires { AreFine settings.now }
    ensures runs { OnOk result (Runs concentrator.old (map changing (changed concentrator.old settings.now)) concentrator.new) }
    ensures links { IfOk result (λ tally. tally.links ≡ length (changed concentrator.old settings.now)) }
    ensures contexts { IfOk result (λ tally. tally.contexts ≡ counted 0 (sum_by (gone_on concentrator.old concentrator.new) (changed concentrator.old settings.now))) }
    ensures poor { OnErr result ((front behind : List LinkSetting) × (changed concentrator.old settings.now ≡ front ++ behind)
        × Runs concentrator.old (map changing front) concentrator.new) }
{
    let mut tally = Tally {
        links: 0,
        contexts: 0,
    };
    for setting in settings {
        if differs(concentrator, setting) {
            let gone = change(concentrator, setting.clone()?);
            tally.add(gone);
        }
    }
    Ok(tally)
}

/// Adds a link that isn't there, where there is room for it. The error is lack of memory.
fn add(
    alloc: Global,
    concentrator: &mut Concentrator,
    setting: &LinkSetting,
) -> Result<(), AllocError>
    requires few { length (settings_in_order concentrator.old) < 256 }
    requires good { IsGoodSetting setting.now }
    requires absent { setting_at concentrator.old setting.now.link ≡ None }
    ensures added { OnOk result (RunsCall concentrator.old setting.now.link (AddLink setting.now) Done concentrator.new) }
    ensures poor { OnErr result ((concentrator.new ≡ concentrator.old)
        ⊎ RunsCall concentrator.old setting.now.link (AddLink setting.now) (NotAdded adds.NoMemory) concentrator.new) }
{
    match concentrator.add_link(alloc, setting.clone()?) {
        Ok(()) => Ok(()),
        Err(_) => Err(AllocError),
    }
}

/// Whether a number is among these.
pub(crate) fn is_among(numbers: &[u16], link: u16) -> bool
    ensures { result ≡ is_among link numbers.now }
{
    numbers.iter().any(|number| link == *number)
}

/// Adds the links of the file whose numbers aren't among these. Returns how many. The error is lack of memory.
fn add_links(
    alloc: Global,
    concentrator: &mut Concentrator,
    settings: &[LinkSetting],
    numbers: &[u16],
) -> Result<u64, AllocError>
    requires fine { AreFine settings.now }
    requires absent { (l : ℕ) → is_among l numbers.now ≡ false → setting_at concentrator.old l ≡ None }
    requires few { length (settings_in_order concentrator.old) + length (added numbers.now settings.now) ≤ 256 }
    ensures runs { OnOk result (Runs concentrator.old (map adding (added numbers.now settings.now)) concentrator.new) }
    ensures links { IfOk result (λ links. links ≡ length (added numbers.now settings.now)) }
    ensures poor { OnErr result ((calls : List Turn) × StopsIn (map adding (added numbers.now settings.now)) calls
        × Runs concentrator.old calls concentrator.new) }
{
    let mut links = 0u64;
    for setting in settings {
        if !is_among(numbers, setting.link) {
            add(alloc, concentrator, setting)?;
            links = links.saturating_add(1);
        }
    }
    Ok(links)
}

/// Brings the links to their settings in the file: removes links, changes others, and then adds new ones. So there are
/// never more links than were there or are in the file.
fn bring(
    alloc: Global,
    concentrator: &mut Concentrator,
    settings: &[LinkSetting],
    numbers: &[u16],
) -> Result<ReloadReport, AllocError>
    requires fine { AreFine settings.now }
    requires links { AreLinks concentrator.old numbers.now }
    requires few { length numbers.now < 2 ^ 63 }
    ensures runs { OnOk result (Runs concentrator.old (reload_turns concentrator.old numbers.now settings.now) concentrator.new) }
    ensures tells { IfOk result (λ report. Tells concentrator.old numbers.now settings.now report concentrator.new) }
    ensures poor { OnErr result ((calls : List Turn) × StopsIn (reload_turns concentrator.old numbers.now settings.now) calls
        × Runs concentrator.old calls concentrator.new) }
{
    let removed = remove_links(concentrator, settings, numbers);
    let changed = change_links(concentrator, settings)?;
    let added = add_links(alloc, concentrator, settings, numbers)?;
    Ok(ReloadReport {
        added,
        changed: changed.links,
        removed: removed.links,
        contexts_gone: removed.contexts.saturating_add(changed.contexts),
    })
}

/// The numbers of the links in these tables.
fn keys_of(alloc: Global, tables: &IndexMap<u16, LinkRecords>) -> Result<Vec<u16>, AllocError>
    ensures keys { IfOk result (λ numbers. numbers.items ≡ keys tables.now) }
    ensures apart { OnOk result (IsUnique nat_eq tables.now) }
{
    let mut numbers = Vec::new(alloc);
    for (link, _) in tables {
        numbers.push(*link)?;
    }
    Ok(numbers)
}

/// The numbers of the links that are there, in their order.
pub(crate) fn numbers_of(alloc: Global, concentrator: &Concentrator) -> Result<Vec<u16>, AllocError>
    ensures { IfOk result (λ numbers. AreLinks concentrator.now numbers.items) }
{
    keys_of(alloc, concentrator.tables())
}

/// The counts of a link, or none yet if it has no counts.
fn counts_of(counters: &IndexMap<u16, LinkCounters>, link: u16) -> LinkCounters
    ensures { (s : LinkSetting) → KeepsCounts (get nat_eq counters.now link) (Some s) (Some result) }
{
    match counters.get(&link) {
        Some(counts) => counts.copied(),
        None => LinkCounters::new(),
    }
}

/// Counts for the links in a file: those that a link has, or none yet.
pub(crate) fn counters_for(
    alloc: Global,
    counters: &IndexMap<u16, LinkCounters>,
    settings: &[LinkSetting],
) -> Result<IndexMap<u16, LinkCounters>, AllocError>
    ensures { IfOk result (λ renewed. (l : ℕ) →
        KeepsCounts (get nat_eq counters.now l) (entry_of l settings.now) (get nat_eq renewed l)) }
{
    let mut renewed = IndexMap::new(alloc);
    for setting in settings {
        renewed.insert(setting.link, counts_of(counters, setting.link))?;
    }
    Ok(renewed)
}

/// Judges the settings as a whole.
pub(crate) fn judge(alloc: Global, settings: &[LinkSetting]) -> Result<(), ReloadFault>
    ensures fine { OnOk result (AreFine settings.now) }
    ensures fault { IfErr result (IsReloadFault settings.now) }
{
    match Concentrator::new(alloc, settings) {
        Ok(_) => Ok(()),
        Err(SetupFault::NoMemory) => Err(ReloadFault::NoMemory),
        Err(fault) => Err(ReloadFault::Settings(fault)),
    }
}

impl From<AllocError> for ReloadFault {
    ghost use Rattle.std.specs.Prelude.{◌≡◌};
    ghost use Rattle.rohc_station.specs.declared.reload.ReloadFault.TheVariants.{NoMemory};

    ghost from_gives = { λ _ e. e ≡ NoMemory };

    fn from(_e: AllocError) -> ReloadFault {
        ReloadFault::NoMemory
    }
}

impl Station {
    ghost use Rattle.std.specs.Prelude.{List, OnOk, IfOk, IfErr};
    ghost use Rattle.rohc_concentrator.specs.Setup.{AreFine};
    ghost use Rattle.rohc_concentrator.specs.RunsCall.{Turn};
    ghost use Rattle.rohc_station.specs.Reload.{Reloads, IsReloadFault, ReloadStays};

    /// Takes the links of a file that was read anew: removes the links that the file leaves out, changes the settings
    /// that differ, and then adds new links. A link that stays with the same setting keeps exactly its records and its
    /// counts; one that is changed keeps its counts, and of its records what `change_link` of rohc_concentrator keeps.
    /// Returns how many links and contexts there were of each kind.
    ///
    /// All settings are judged first: at the error `Settings` all is as it was. `NoMemory` comes only if a
    /// request for memory was refused. Then each link is as it was or as the file has it.
    pub fn reload(&mut self, alloc: Global, links: Links) -> Result<ReloadReport, ReloadFault>
        ensures reloads { IfOk result (λ report. (calls : List Turn) × Reloads self.old links report calls self.new) }
        ensures fine { OnOk result (AreFine links.settings) }
        ensures fault { IfErr result (IsReloadFault links.settings) }
        ensures stays { IfErr result (λ fault. (calls : List Turn) × ReloadStays self.old links fault calls self.new) }
    {
        judge(alloc, links.settings())?;
        let numbers = numbers_of(alloc, &self.concentrator)?;
        let counters = counters_for(alloc, &self.counters, links.settings())?;
        let told = bring(
            alloc,
            &mut self.concentrator,
            links.settings(),
            numbers.as_slice(),
        );
        self.links = links;
        self.counters = counters;
        keep_standing(&mut self.by_call, &self.concentrator);
        Ok(told?)
    }
}
