//! What octets spell, read from left to right up to the first fault (docs/FORMATS.md).
//!
//! Each reader takes the length of the whole text, which tells places.

ghost use Rattle.std.specs.Prelude.{◌≡◌, ◌⊎◌, ◌-◌, ◌≤◌, [], length, nat_eq, None, Ok, Err, IfOk, MatchResult};
ghost use Rattle.indexmap.specs.IndexMap.{get};
ghost use Rattle.rohc_bits.specs.Reading.{Reads, ReadsAs};
ghost use Rattle.rohc_saved.specs.Form.{contexts_in};
ghost use Rattle.rohc_saved.specs.Read.{link_in, links_in, form_in};
ghost use Rattle.rohc_saved.specs.Reading.{Gives, IsValue, AddsNext, Passes, part_at, magic_at, octet_at, word_at, quad_at, long_at, version_at, cid_at, context_at, contexts_at, number_at, size_at, reserved_at, greatest_at, link_at, links_at, moment_at, form_at, HasLinks, digest_at, restored};

use crate::context_reading::context;
use crate::fault::SavedFault;
use crate::form::{SavedForm, SavedLink};
use crate::saving::{MAGIC, VERSION};
use indexmap::IndexMap;
use rohc_bits::{Cursor, reading};
use rohc_context::Context;
use rohc_frame::CidKind;
use sha2::{Digest, Sha256};
use std::alloc::Global;

/// The place where a cursor stands in a text of this length.
fn place(total: usize, cursor: &Cursor<'_>) -> usize
    ensures { result ≡ total - length cursor.now }
{
    total.saturating_sub(cursor.rest().len())
}

/// Takes `count` octets, or returns the error `short` if fewer are left.
#[tactic(auto, unfolding(crate::specs::Reading::part_at), using(crate::proofs::ReadingLemmas::part_is))]
fn part<'a>(
    cursor: &mut Cursor<'a>,
    count: usize,
    short: SavedFault,
) -> Result<&'a [u8], SavedFault>
    ensures reads { ReadsAs (λ part. part.now) result cursor.new (part_at count short cursor.old) }
{
    cursor.take(count).ok_or(short)
}

/// Takes the name that each saved concentrator begins with.
#[tactic(auto, unfolding(crate::specs::Reading::magic_at))]
fn magic(cursor: &mut Cursor<'_>) -> Result<(), SavedFault>
    ensures reads { Passes result cursor.new (magic_at cursor.old) }
{
    let name = part(cursor, 9, SavedFault::NotSaved)?;
    if name != MAGIC.as_slice() {
        return Err(SavedFault::NotSaved);
    }
    Ok(())
}

/// Reads a number of 8 bits.
fn octet(total: usize, cursor: &mut Cursor<'_>) -> Result<u8, SavedFault>
    ensures reads { Reads result cursor.new (octet_at total cursor.old) }
{
    reading::octet(cursor, SavedFault::Short { place: total })
}

/// Reads a number of 16 bits.
fn word(total: usize, cursor: &mut Cursor<'_>) -> Result<u16, SavedFault>
    ensures reads { Reads result cursor.new (word_at total cursor.old) }
{
    reading::word(cursor, SavedFault::Short { place: total })
}

/// Reads a number of 32 bits.
#[tactic(auto, unfolding(crate::specs::Reading::quad_at))]
fn quad(total: usize, cursor: &mut Cursor<'_>) -> Result<u32, SavedFault>
    ensures reads { Reads result cursor.new (quad_at total cursor.old) }
{
    let high = word(total, cursor)?;
    let low = word(total, cursor)?;
    Ok((u32::from(high) << 16) | u32::from(low))
}

/// Reads a number of 64 bits.
#[tactic(auto, unfolding(crate::specs::Reading::long_at))]
fn long(total: usize, cursor: &mut Cursor<'_>) -> Result<u64, SavedFault>
    ensures reads { Reads result cursor.new (long_at total cursor.old) }
{
    let high = quad(total, cursor)?;
    let low = quad(total, cursor)?;
    Ok((u64::from(high) << 32) | u64::from(low))
}

/// Reads the version.
#[tactic(auto, unfolding(crate::specs::Reading::version_at))]
fn version(total: usize, cursor: &mut Cursor<'_>) -> Result<(), SavedFault>
    ensures reads { Passes result cursor.new (version_at total cursor.old) }
{
    let here = place(total, cursor);
    if word(total, cursor)? != VERSION {
        return Err(SavedFault::Version { place: here });
    }
    Ok(())
}

/// Reads the CID of a context, behind those before it.
#[tactic(auto, unfolding(crate::specs::Reading::cid_at), using(crate::proofs::MapLemmas::has_context))]
fn cid(
    total: usize,
    cursor: &mut Cursor<'_>,
    greatest: u16,
    before: &IndexMap<u16, Context>,
) -> Result<u16, SavedFault>
    ensures reads { Reads result cursor.new (cid_at total greatest (contexts_in before.now) cursor.old) }
    ensures fresh { IfOk result (λ cid. get nat_eq before.now cid ≡ None) }
{
    let here = place(total, cursor);
    let cid = word(total, cursor)?;
    if cid > greatest {
        return Err(SavedFault::BadOrder { place: here });
    }
    if before.contains_key(&cid) {
        return Err(SavedFault::BadOrder { place: here });
    }
    Ok(cid)
}

/// Reads one more context of a link, and keeps it behind those before it.
#[tactic(auto, unfolding(crate::specs::Reading::context_at), using(crate::proofs::MapLemmas::context_last))]
fn next_context(
    total: usize,
    cursor: &mut Cursor<'_>,
    greatest: u16,
    contexts: &mut IndexMap<u16, Context>,
) -> Result<(), SavedFault>
    ensures reads { AddsNext result (contexts_in contexts.old) (contexts_in contexts.new) cursor.new
        (context_at total greatest (contexts_in contexts.old) cursor.old) }
{
    let cid = cid(total, cursor, greatest, contexts)?;
    let context = context(total, cursor)?;
    match contexts.insert(cid, context) {
        Ok(_) => Ok(()),
        Err(_) => Err(SavedFault::NoMemory),
    }
}

/// Reads so many contexts of a link.
fn contexts(
    alloc: Global,
    total: usize,
    cursor: &mut Cursor<'_>,
    greatest: u16,
    count: u16,
) -> Result<IndexMap<u16, Context>, SavedFault>
    ensures reads { Gives contexts_in (1 ≤ count) result cursor.new (contexts_at total greatest count [] cursor.old) }
{
    let mut contexts = IndexMap::new(alloc);
    for _ in 0..count {
        next_context(total, cursor, greatest, &mut contexts)?;
    }
    Ok(contexts)
}

/// Reads the number of a link, behind those before it.
#[tactic(auto, unfolding(crate::specs::Reading::number_at), using(crate::proofs::MapLemmas::has_link))]
fn number(
    total: usize,
    cursor: &mut Cursor<'_>,
    before: &IndexMap<u16, SavedLink>,
) -> Result<u16, SavedFault>
    ensures reads { Reads result cursor.new (number_at total (links_in before.now) cursor.old) }
    ensures fresh { IfOk result (λ number. get nat_eq before.now number ≡ None) }
{
    let here = place(total, cursor);
    let number = word(total, cursor)?;
    if before.contains_key(&number) {
        return Err(SavedFault::BadOrder { place: here });
    }
    Ok(number)
}

/// Reads a CID kind.
#[tactic(auto, unfolding(crate::specs::Reading::size_at))]
fn size(total: usize, cursor: &mut Cursor<'_>) -> Result<CidKind, SavedFault>
    ensures reads { Reads result cursor.new (size_at total cursor.old) }
{
    let here = place(total, cursor);
    match octet(total, cursor)? {
        0 => Ok(CidKind::Small),
        1 => Ok(CidKind::Large),
        _ => Err(SavedFault::BadLink { place: here }),
    }
}

/// Reads the reserved octet.
#[tactic(auto, unfolding(crate::specs::Reading::reserved_at))]
fn reserved(total: usize, cursor: &mut Cursor<'_>) -> Result<(), SavedFault>
    ensures reads { Passes result cursor.new (reserved_at total cursor.old) }
{
    let here = place(total, cursor);
    if octet(total, cursor)? != 0 {
        return Err(SavedFault::BadLink { place: here });
    }
    Ok(())
}

/// Reads the greatest CID of a link.
#[tactic(auto, unfolding(crate::specs::Reading::greatest_at))]
fn greatest(total: usize, cursor: &mut Cursor<'_>, size: CidKind) -> Result<u16, SavedFault>
    ensures reads { Reads result cursor.new (greatest_at total size cursor.old) }
{
    let here = place(total, cursor);
    let greatest = word(total, cursor)?;
    if greatest > size.greatest_cid() {
        return Err(SavedFault::BadLink { place: here });
    }
    Ok(greatest)
}

/// Reads one more link, and keeps it behind those before it.
#[tactic(auto, unfolding(crate::specs::Reading::link_at), using(crate::proofs::MapLemmas::link_last))]
fn next_link(
    alloc: Global,
    total: usize,
    cursor: &mut Cursor<'_>,
    links: &mut IndexMap<u16, SavedLink>,
) -> Result<(), SavedFault>
    ensures reads { AddsNext result (links_in links.old) (links_in links.new) cursor.new
        (link_at total (links_in links.old) cursor.old) }
{
    let number = number(total, cursor, links)?;
    let size = size(total, cursor)?;
    reserved(total, cursor)?;
    let greatest = greatest(total, cursor, size)?;
    let count = word(total, cursor)?;
    let contexts = contexts(alloc, total, cursor, greatest, count)?;
    let link = SavedLink {
        size,
        greatest,
        contexts,
    };
    match links.insert(number, link) {
        Ok(_) => Ok(()),
        Err(_) => Err(SavedFault::NoMemory),
    }
}

/// Reads so many links.
fn links(
    alloc: Global,
    total: usize,
    cursor: &mut Cursor<'_>,
    count: u16,
) -> Result<IndexMap<u16, SavedLink>, SavedFault>
    ensures reads { Gives links_in (1 ≤ count) result cursor.new (links_at total count [] cursor.old) }
{
    let mut links = IndexMap::new(alloc);
    for _ in 0..count {
        next_link(alloc, total, cursor, &mut links)?;
    }
    Ok(links)
}

/// The moment of saving. It is read without what follows it, so the octets may be damaged behind it.
#[tactic(auto, unfolding(crate::specs::Reading::moment_at))]
pub fn saved_moment(octets: &[u8]) -> Result<u64, SavedFault>
    ensures reads { IsValue result (moment_at (length octets.now) octets.now) }
{
    let total = octets.len();
    let mut cursor = reading::cursor_over(octets);
    magic(&mut cursor)?;
    version(total, &mut cursor)?;
    long(total, &mut cursor)
}

/// Reads all before the digest.
#[tactic(auto, unfolding(crate::specs::Reading::form_at, crate::specs::Reading::count_at))]
fn form(alloc: Global, total: usize, cursor: &mut Cursor<'_>) -> Result<SavedForm, SavedFault>
    ensures reads { Gives form_in (HasLinks total cursor.old) result cursor.new (form_at total cursor.old) }
{
    magic(cursor)?;
    version(total, cursor)?;
    let moment = long(total, cursor)?;
    let count = word(total, cursor)?;
    let links = links(alloc, total, cursor, count)?;
    Ok(SavedForm { moment, links })
}

/// Reads the digest, and compares it with that of the octets before it.
#[tactic(auto, unfolding(crate::specs::Reading::digest_at))]
fn digest(octets: &[u8], cursor: &mut Cursor<'_>) -> Result<(), SavedFault>
    ensures reads { Passes result cursor.new (digest_at octets.now cursor.old) }
{
    let total = octets.len();
    let here = place(total, cursor);
    let digest = part(cursor, 32, SavedFault::Short { place: total })?;
    if digest != Sha256::digest(&octets[..here]).as_slice() {
        return Err(SavedFault::Digest { place: here });
    }
    Ok(())
}

/// Reads what octets spell, and nothing behind it.
#[tactic(auto, unfolding(crate::specs::Reading::restored))]
pub(crate) fn read(alloc: Global, octets: &[u8]) -> Result<SavedForm, SavedFault>
    ensures reads { MatchResult result (λ form. restored octets.now ≡ Ok (form_in form))
        (λ e. ((e ≡ SavedFault.NoMemory) × HasLinks (length octets.now) octets.now) ⊎ (restored octets.now ≡ Err e)) }
{
    let total = octets.len();
    let mut cursor = reading::cursor_over(octets);
    let form = form(alloc, total, &mut cursor)?;
    digest(octets, &mut cursor)?;
    if !cursor.rest().is_empty() {
        return Err(SavedFault::Long {
            place: place(total, &cursor),
        });
    }
    Ok(form)
}
