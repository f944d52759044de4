//! One link of a running concentrator, from its octets (docs/FORMATS.md).

ghost use Rattle.std.specs.Prelude.{◌≡◌, ◌≢◌, ◌⊎◌, ℕ, List, [], ◌∷◌, None, Some, Result, Ok, Err, OnOk, IfOk, IfErr, IfSome, MatchResult};
ghost use Rattle.rohc_concentrator.specs.Tables.{KeepsAll};
ghost use Rattle.rohc_concentrator.specs.declared.answer.NoLink.{NoLink};
ghost use Rattle.rohc_concentrator.specs.Calls.{plain_answer};
ghost use Rattle.rohc_concentrator.specs.RunsCall.{Runs};
ghost use Rattle.rohc_concentrator.specs.declared.putting.PutFault.{PutFault};
ghost use Rattle.rohc_saved.specs.Form.{Link, contexts_in};
ghost use Rattle.rohc_saved.specs.Read.{link_in, links_in, form_in};
ghost use Rattle.rohc_saved.specs.Reading.{restored};
ghost use Rattle.rohc_saved.specs.Restoring.{up_to, puts_of, StopsAt};
ghost use Rattle.rohc_saved.specs.LinkRestoring.{IsReady, RestoresLink, reset_turn, MayRunOut, LinkFaultIn};

use crate::fault::{LinkFault, SavedFault};
use crate::form::{SavedForm, SavedLink};
use crate::reading::read;
use crate::restored::Restored;
use crate::restoring::{limit_under, put_contexts, tell};
use indexmap::IndexMap;
use rohc_concentrator::{Concentrator, LinkSetting};
use rohc_context::Context;
use std::alloc::Global;

/// The setting of a link that is there and holds no context.
fn ready(concentrator: &Concentrator, number: u16) -> Result<&LinkSetting, LinkFault>
    ensures ready { IfOk result (λ s. IsReady concentrator.now number s.now) }
    ensures fault { IfErr result (λ e. (octets : List ℕ) → LinkFaultIn concentrator.now number octets concentrator.now e) }
{
    let Some(records) = concentrator.tables().get(&number) else {
        return Err(LinkFault::NoLink);
    };
    if !records.contexts.is_empty() {
        return Err(LinkFault::HasContexts);
    }
    Ok(&records.setting)
}

/// What was saved of a link, if it is the only one.
fn alone(form: &SavedForm, number: u16) -> Option<&SavedLink>
    ensures alone { IfSome result (λ l. links_in form.now.links ≡ (number, link_in l.now) ∷ []) }
    ensures other { result ≡ None → (saved : Link) → links_in form.now.links ≢ (number, saved) ∷ [] }
{
    let saved = form.links.get(&number)?;
    if form.links.len() == 1 {
        Some(saved)
    } else {
        None
    }
}

/// Puts contexts into a link that holds none, up to the greatest CID; if one is refused, the link is reset.
fn fill(
    concentrator: &mut Concentrator,
    number: u16,
    greatest: u16,
    contexts: &IndexMap<u16, Context>,
) -> Result<(), LinkFault>
    ensures puts { OnOk result (Runs concentrator.old
        (puts_of number (up_to (Some greatest) (contexts_in contexts.now))) concentrator.new) }
    ensures stops { IfErr result (λ e. (e ≡ LinkFault.NoMemory) × (fault : PutFault) × (answer : Result Unit NoLink)
        × StopsAt concentrator.old number (up_to (Some greatest) (contexts_in contexts.now)) fault
        (reset_turn (plain_answer answer) number ∷ []) concentrator.new) }
{
    match put_contexts(concentrator, number, greatest, contexts, false) {
        Ok(()) => Ok(()),
        Err(_) => {
            // The link is there, so this has no error.
            let _ = concentrator.reset(number);
            Err(LinkFault::NoMemory)
        }
    }
}

/// What octets spell; the error is their first fault, or `NoMemory`.
fn read_whole(alloc: Global, octets: &[u8]) -> Result<SavedForm, LinkFault>
    ensures reads { MatchResult result (λ form. restored octets.now ≡ Ok (form_in form))
        (λ e. ((e ≡ LinkFault.NoMemory) × MayRunOut octets.now) ⊎ ((fault : SavedFault) × (e ≡ LinkFault.Octets fault) × (restored octets.now ≡ Err fault))) }
{
    match read(alloc, octets) {
        Ok(form) => Ok(form),
        Err(SavedFault::NoMemory) => Err(LinkFault::NoMemory),
        Err(fault) => Err(LinkFault::Octets(fault)),
    }
}

/// Puts the contexts of one link into a concentrator that runs, from what `save_link` wrote, or `save` of a concentrator
/// of this link alone. The link is there, and holds no context: add it, or reset it, before. Contexts above its
/// greatest CID are left out, as `restore` does. All else stays as it was.
///
/// The error is the first of `LinkFault`. Then nothing changes.
pub fn restore_link(
    alloc: Global,
    concentrator: &mut Concentrator,
    link: u16,
    octets: &[u8],
) -> Result<Restored, LinkFault>
    ensures restores { IfOk result (λ told. RestoresLink concentrator.old link octets.now told concentrator.new) }
    ensures stays { IfErr result (λ e. KeepsAll concentrator.old concentrator.new) }
    ensures fault { IfErr result (LinkFaultIn concentrator.old link octets.now concentrator.new) }
{
    let setting = ready(concentrator, link)?;
    let form = read_whole(alloc, octets)?;
    let Some(saved) = alone(&form, link) else {
        return Err(LinkFault::OtherLink);
    };
    let Some(greatest) = limit_under(setting, saved) else {
        return Err(LinkFault::OtherKind);
    };
    let told = tell(concentrator, &form);
    fill(concentrator, link, greatest, &saved.contexts)?;
    Ok(told)
}
