//! Making a concentrator from the settings of its links.

ghost use Rattle.std.specs.Prelude.{◌≡◌, ℕ, ◌⊎◌, None, IfOk, OnOk, IfErr};

use crate::concentrator::Concentrator;
use crate::place::Hints;
use crate::records::LinkRecords;
use crate::setting::LinkSetting;
use indexmap::IndexMap;
use std::alloc::{AllocError, Global};
use thiserror::Error;

/// Why no concentrator is made. A place counts the entries from 1.
#[derive(Clone, Copy, Debug, PartialEq, Eq, Error)]
pub enum SetupFault {
    /// There are no entries.
    #[error("NoLinks")]
    NoLinks,
    /// There are more than 256 entries.
    #[error("TooManyLinks")]
    TooManyLinks,
    /// An entry's settings or ranges are outside their limits.
    #[error("BadSetting")]
    BadSetting { place: usize },
    /// An entry has the link number of an earlier entry.
    #[error("DuplicateLink")]
    DuplicateLink { place: usize },
    /// There is no memory.
    #[error("NoMemory")]
    NoMemory,
}

impl SetupFault {
    ghost use Rattle.rohc_concentrator.specs.Setup.{fault_name};

    /// The name of the fault.
    pub fn name(&self) -> &'static str
        ensures { result.now ≡ fault_name self.now }
    {
        match self {
            SetupFault::NoLinks => "NoLinks",
            SetupFault::TooManyLinks => "TooManyLinks",
            SetupFault::BadSetting { .. } => "BadSetting",
            SetupFault::DuplicateLink { .. } => "DuplicateLink",
            SetupFault::NoMemory => "NoMemory",
        }
    }
}

ghost use Rattle.rohc_concentrator.specs.Tables.{settings_in_order, setting_at, record_at};
ghost use Rattle.rohc_concentrator.specs.Setup.{IsFault, AreSound, AreFine, names_link, entry_of};

/// Finds the first fault of the settings: first their number, then entry by entry.
fn judge(settings: &[LinkSetting]) -> Result<(), SetupFault>
    ensures sound { OnOk result (AreFine settings.now) }
    ensures fault { IfErr result (λ e. IsFault settings.now e) }
{
    if settings.is_empty() {
        return Err(SetupFault::NoLinks);
    }
    if settings.len() > 256 {
        return Err(SetupFault::TooManyLinks);
    }
    for (index, setting) in settings.iter().enumerate() {
        if !setting.is_good() {
            return Err(SetupFault::BadSetting { place: index + 1 });
        }
        if names_link(&settings[..index], setting.link) {
            return Err(SetupFault::DuplicateLink { place: index + 1 });
        }
    }
    Ok(())
}

/// Whether one of the settings has this link number.
fn names_link(settings: &[LinkSetting], link: u16) -> bool
    ensures { result ≡ names_link link settings.now }
{
    settings.iter().any(|setting| setting.link == link)
}

impl Concentrator {
    /// Makes a concentrator with these links, in this order, and without a record.
    ///
    /// The error is the first fault in this order: `NoLinks`, `TooManyLinks`, then entry by entry
    /// `BadSetting` before `DuplicateLink`. `NoMemory` comes last, only for settings without a fault.
    pub fn new(alloc: Global, settings: &[LinkSetting]) -> Result<Concentrator, SetupFault>
        ensures fine { IfOk result (λ k. AreFine settings.now) }
        ensures in_order { IfOk result (λ k. settings_in_order k ≡ settings.now) }
        ensures each { IfOk result (λ k. (link : ℕ) → setting_at k link ≡ entry_of link settings.now) }
        ensures empty { IfOk result (λ k. (link cid : ℕ) → record_at k link cid ≡ None) }
        ensures fault { IfErr result (λ e. IsFault settings.now e ⊎ (e ≡ SetupFault.NoMemory)) }
        ensures poor { result ≡ Err SetupFault.NoMemory → AreFine settings.now }
    {
        judge(settings)?;
        build(alloc, settings).map_err(|_| SetupFault::NoMemory)
    }
}

/// Makes the concentrator of sound settings, without a record.
fn build(alloc: Global, settings: &[LinkSetting]) -> Result<Concentrator, AllocError>
    requires { AreSound settings.now }
    ensures in_order { IfOk result (λ k. settings_in_order k ≡ settings.now) }
    ensures each { IfOk result (λ k. (link : ℕ) → setting_at k link ≡ entry_of link settings.now) }
    ensures empty { IfOk result (λ k. (link cid : ℕ) → record_at k link cid ≡ None) }
{
    let mut links = IndexMap::new(alloc);
    let mut hints = Hints::new(alloc);
    for setting in settings {
        let place = links.len();
        let records = LinkRecords {
            setting: setting.clone()?,
            contexts: IndexMap::new(alloc),
        };
        links.insert(setting.link, records)?;
        hints.keep_link(setting.link, place);
    }
    Ok(Concentrator { links, hints })
}
