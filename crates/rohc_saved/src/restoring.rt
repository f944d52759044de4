//! A concentrator from its octets (docs/FORMATS.md).

ghost use Rattle.std.specs.Prelude.{◌≡◌, [], ◌∷◌, Some, Ok, length, option_map, OnOk, IfOk, IfErr};
ghost use Rattle.rohc_context.specs.Record.{record_of};
ghost use Rattle.rohc_concentrator.specs.Tables.{setting_at};
ghost use Rattle.rohc_concentrator.specs.RunsCall.{Runs};
ghost use Rattle.rohc_saved.specs.Form.{Form, contexts_in};
ghost use Rattle.rohc_saved.specs.Fallen.{fallen_form, form_as, put_as, contexts_as, link_as, links_as};
ghost use Rattle.rohc_saved.specs.Read.{link_in, form_in};
ghost use Rattle.rohc_saved.specs.Restoring.{is_same, limit_of, up_to, taken_of, puts_of, puts_in, StopsAt, TellsOne, AddsUp, IsToldOfForm, Restores, IsRefusal};
ghost use Rattle.rohc_saved.specs.Reading.{restored};
ghost use Rattle.rohc_saved.specs.Output.{counted};
ghost use Rattle.rohc_concentrator.specs.Setup.{entry_of, AreFine};

use crate::fault::SavedFault;
use crate::form::{SavedForm, SavedLink};
use crate::reading::read;
use crate::restored::Restored;
use indexmap::IndexMap;
use rohc_concentrator::{Concentrator, LinkSetting, PutFault, SetupFault};
use rohc_context::Context;
use rohc_frame::CidKind;
use std::alloc::Global;

/// Whether two CID kinds are the same.
pub fn is_same(a: CidKind, b: CidKind) -> bool
    ensures { result ≡ is_same a b }
{
    match (a, b) {
        (CidKind::Small, CidKind::Small) => true,
        (CidKind::Small, CidKind::Large) => false,
        (CidKind::Large, CidKind::Small) => false,
        (CidKind::Large, CidKind::Large) => true,
    }
}

/// The greatest CID up to which contexts of a link are taken under its setting, or `None` if the link is left out.
pub(crate) fn limit_under(setting: &LinkSetting, link: &SavedLink) -> Option<u16>
    ensures { result ≡ limit_of (Some setting.now) (link_in link.now) }
{
    if is_same(setting.settings.size, link.size) {
        Some(setting.settings.max_cid)
    } else {
        None
    }
}

/// The greatest CID up to which contexts of a link are taken, or `None` if the link is left out.
fn limit(concentrator: &Concentrator, number: u16, link: &SavedLink) -> Option<u16>
    ensures { result ≡ limit_of (setting_at concentrator.now number) (link_in link.now) }
{
    match concentrator.tables().get(&number) {
        Some(records) => limit_under(&records.setting, link),
        None => None,
    }
}

/// Puts a context of a link into a concentrator, if its CID is at most the greatest.
fn put_context(
    concentrator: &mut Concentrator,
    number: u16,
    greatest: u16,
    cid: u16,
    context: Context,
) -> Result<(), PutFault>
    ensures puts { OnOk result (Runs concentrator.old
        (puts_of number (up_to (Some greatest) ((cid, record_of context) ∷ []))) concentrator.new) }
    ensures stops { IfErr result (λ e. StopsAt concentrator.old number
        (up_to (Some greatest) ((cid, record_of context) ∷ [])) e [] concentrator.new) }
{
    if cid > greatest {
        return Ok(());
    }
    concentrator.put(number, cid, context)
}

/// A context as it is put: fallen, or as it was saved.
fn put_as(context: &Context, falls: bool) -> Context
    ensures { record_of result ≡ put_as falls (record_of context.now) }
{
    if falls { context.fallen() } else { *context }
}

/// Puts contexts of a link into a concentrator, up to the greatest CID.
pub(crate) fn put_contexts(
    concentrator: &mut Concentrator,
    number: u16,
    greatest: u16,
    contexts: &IndexMap<u16, Context>,
    falls: bool,
) -> Result<(), PutFault>
    ensures puts { OnOk result (Runs concentrator.old
        (puts_of number (up_to (Some greatest) (contexts_as falls contexts.now))) concentrator.new) }
    ensures stops { IfErr result (λ e. StopsAt concentrator.old number
        (up_to (Some greatest) (contexts_as falls contexts.now)) e [] concentrator.new) }
{
    for (cid, context) in contexts {
        let context = put_as(context, falls);
        put_context(concentrator, number, greatest, *cid, context)?;
    }
    Ok(())
}

/// Puts the contexts of a link into a concentrator, as far as its settings have them.
fn take_link(
    concentrator: &mut Concentrator,
    number: u16,
    link: &SavedLink,
    falls: bool,
) -> Result<(), PutFault>
    ensures puts { OnOk result (Runs concentrator.old
        (puts_of number (taken_of (setting_at concentrator.old number) (link_as falls link.now))) concentrator.new) }
{
    match limit(concentrator, number, link) {
        Some(greatest) => put_contexts(concentrator, number, greatest, &link.contexts, falls),
        None => Ok(()),
    }
}

/// Puts the contexts of all links into a concentrator, as far as its settings have them.
fn take_links(
    concentrator: &mut Concentrator,
    links: &IndexMap<u16, SavedLink>,
    falls: bool,
) -> Result<(), PutFault>
    ensures puts { OnOk result (Runs concentrator.old
        (puts_in (setting_at concentrator.old) (links_as falls links.now)) concentrator.new) }
{
    for (number, link) in links {
        take_link(concentrator, *number, link, falls)?;
    }
    Ok(())
}

/// How many of these contexts have a CID up to the greatest.
fn count_up_to(contexts: &IndexMap<u16, Context>, greatest: u16) -> u64
    ensures { result ≡ counted (length (up_to (Some greatest) (contexts_in contexts.now))) }
{
    let mut count = 0u64;
    for (cid, _) in contexts {
        count = count.saturating_add(u64::from(*cid <= greatest));
    }
    count
}

/// What is told of one link.
fn tally(setting: Option<&LinkSetting>, link: &SavedLink) -> Restored
    ensures { TellsOne (option_map (λ s. s.now) setting.entry) (link_in link.now) result }
{
    let none = Restored::default();
    let all = link.contexts.len() as u64;
    let Some(setting) = setting else {
        return Restored {
            unknown_links: 1,
            left_contexts: all,
            ..none
        };
    };
    let Some(greatest) = limit_under(setting, link) else {
        return Restored {
            other_links: 1,
            left_contexts: all,
            ..none
        };
    };
    let taken = count_up_to(&link.contexts, greatest);
    Restored {
        links: 1,
        contexts: taken,
        high_contexts: all.saturating_sub(taken),
        ..none
    }
}

/// Adds what is told of one more link.
fn add(told: &mut Restored, more: &Restored)
    ensures { AddsUp told.old more.now told.new }
{
    *told = Restored {
        moment: told.moment,
        links: told.links.saturating_add(more.links),
        unknown_links: told.unknown_links.saturating_add(more.unknown_links),
        other_links: told.other_links.saturating_add(more.other_links),
        contexts: told.contexts.saturating_add(more.contexts),
        left_contexts: told.left_contexts.saturating_add(more.left_contexts),
        high_contexts: told.high_contexts.saturating_add(more.high_contexts),
    };
}

/// What is told of one link of this number.
fn tally_at(concentrator: &Concentrator, number: u16, link: &SavedLink) -> Restored
    ensures { TellsOne (setting_at concentrator.now number) (link_in link.now) result }
{
    match concentrator.tables().get(&number) {
        Some(records) => tally(Some(&records.setting), link),
        None => tally(None, link),
    }
}

/// Tells what is taken of a form, and what is left out.
pub(crate) fn tell(concentrator: &Concentrator, form: &SavedForm) -> Restored
    ensures { IsToldOfForm (setting_at concentrator.now) (form_in form.now) result }
{
    let mut told = Restored {
        moment: form.moment,
        ..Restored::default()
    };
    for (number, link) in &form.links {
        add(&mut told, &tally_at(concentrator, *number, link));
    }
    told
}

/// A concentrator with these links, into which each context is put fallen, or as it was saved.
fn restore_as(
    alloc: Global,
    settings: &[LinkSetting],
    octets: &[u8],
    falls: bool,
) -> Result<(Concentrator, Restored), SavedFault>
    ensures fine { IfOk result (λ x. AreFine settings.now) }
    ensures restored { IfOk result (λ x. (form : Form) × (restored octets.now ≡ Ok form)
        × Restores settings.now (form_as falls form) x.0 × IsToldOfForm (λ link. entry_of link settings.now) form x.1) }
    ensures fault { IfErr result (IsRefusal settings.now octets.now) }
{
    let mut concentrator = match Concentrator::new(alloc, settings) {
        Ok(concentrator) => concentrator,
        Err(SetupFault::NoMemory) => return Err(SavedFault::NoMemory),
        Err(fault) => return Err(SavedFault::Settings(fault)),
    };
    let form = read(alloc, octets)?;
    // The CIDs of a link are apart and within its greatest, so a put is refused only for lack of memory.
    let Ok(()) = take_links(&mut concentrator, &form.links, falls) else {
        return Err(SavedFault::NoMemory);
    };
    let told = tell(&concentrator, &form);
    Ok((concentrator, told))
}

/// A concentrator with these links, which goes on from what these octets spell (docs/FORMATS.md). The contexts of a
/// link that isn't in the settings, or is of another CID kind there, are left out, and those above the greatest CID of
/// the settings. What is left out is judged as well.
///
/// The error is a fault of the settings, or else the first fault of the octets from the left. `NoMemory` comes only if
/// a request for memory was refused. Then nothing is restored.
pub fn restore(
    alloc: Global,
    settings: &[LinkSetting],
    octets: &[u8],
) -> Result<(Concentrator, Restored), SavedFault>
    ensures fine { IfOk result (λ x. AreFine settings.now) }
    ensures restored { IfOk result (λ x. (form : Form) × (restored octets.now ≡ Ok form)
        × Restores settings.now form x.0 × IsToldOfForm (λ link. entry_of link settings.now) form x.1) }
    ensures fault { IfErr result (IsRefusal settings.now octets.now) }
{
    restore_as(alloc, settings, octets, false)
}

/// As `restore`, from what was saved too long ago to be trusted: each context falls, as `Context::fallen` does. It then
/// takes only packets with a check of seven or more bits.
pub fn restore_fallen(
    alloc: Global,
    settings: &[LinkSetting],
    octets: &[u8],
) -> Result<(Concentrator, Restored), SavedFault>
    ensures fine { IfOk result (λ x. AreFine settings.now) }
    ensures restored { IfOk result (λ x. (form : Form) × (restored octets.now ≡ Ok form)
        × Restores settings.now (fallen_form form) x.0 × IsToldOfForm (λ link. entry_of link settings.now) form x.1) }
    ensures fault { IfErr result (IsRefusal settings.now octets.now) }
{
    restore_as(alloc, settings, octets, true)
}
