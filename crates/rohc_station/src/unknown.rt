//! What packets named that isn't there: CIDs of a link without a context, and links.

ghost use Rattle.std.specs.Prelude.{◌≡◌, ◌<◌, option_map};
ghost use Rattle.rohc_station.specs.Unknown.{is_no_context, entry_of, packets_in, without, with_last, named_again, unknown_after, links_after};

use arrayvec::ArrayVec;
use rohc_context::Refusal;
use rohc_links::Ports;

/// How many CIDs of a link are kept.
pub const MOST_UNKNOWN: usize = 64;

/// A CID without a context, or a link that isn't there.
#[derive(Clone, Copy, Default, PartialEq, Eq)]
pub struct Unknown {
    pub number: u16,
    /// How many of its packets came while it was in the list. Of a CID, those that were refused as `NoContext`.
    pub packets: u64,
}

/// A copy of a list.
pub(crate) fn copied(list: &ArrayVec<Unknown, 64>) -> ArrayVec<Unknown, 64>
    ensures { result ≡ list.now }
{
    let mut copy = ArrayVec::new();
    let _ = copy.try_extend_from_slice(list.as_slice());
    copy
}

/// Whether a packet was refused since its CID has no context.
pub(crate) fn is_no_context(refusal: Option<Refusal>) -> bool
    ensures { result ≡ is_no_context refusal }
{
    refusal == Some(Refusal::NoContext)
}

/// The entry of a number in the list.
fn entry_of(list: &[Unknown], number: u16) -> Option<&Unknown>
    ensures { option_map (λ u. u.now) result ≡ entry_of number list.now }
{
    list.iter().find(|unknown| unknown.number == number)
}

/// How many packets of a number are counted in the list.
fn packets_of(list: &[Unknown], number: u16) -> u64
    ensures { result ≡ packets_in (entry_of number list.now) }
{
    match entry_of(list, number) {
        Some(unknown) => unknown.packets,
        None => 0,
    }
}

/// Removes a number from the list.
fn remove<const N: usize>(list: &mut ArrayVec<Unknown, N>, number: u16)
    ensures { list.new.items ≡ without number list.old.items }
{
    list.retain(|unknown| unknown.number != number);
}

/// Puts a number last, without which the list is; the first gives way if the list is full.
fn put_last<const N: usize>(list: &mut ArrayVec<Unknown, N>, unknown: Unknown)
    requires { 0 < N }
    ensures { list.new.items ≡ with_last N unknown list.old.items }
{
    if list.is_full() {
        let _ = list.remove(0);
    }
    list.push(unknown);
}

/// Puts a number last that a packet names, and counts the packet.
fn name_again<const N: usize>(list: &mut ArrayVec<Unknown, N>, number: u16)
    requires { 0 < N }
    ensures { list.new.items ≡ named_again N number list.old.items }
{
    let packets = packets_of(list.as_slice(), number).saturating_add(1);
    remove(list, number);
    put_last(list, Unknown { number, packets });
}

/// Takes notice of the answer to a packet of a CID, which may have a context by now.
pub(crate) fn notice(
    list: &mut ArrayVec<Unknown, 64>,
    cid: u16,
    has_context: bool,
    refusal: Option<Refusal>,
)
    ensures { list.new.items ≡ unknown_after has_context cid refusal list.old.items }
{
    if has_context {
        remove(list, cid);
    } else if is_no_context(refusal) {
        name_again(list, cid);
    }
}

/// Takes notice of a datagram of a link with these ports; a link without ports isn't there.
pub(crate) fn notice_link(list: &mut ArrayVec<Unknown, 16>, ports: Option<Ports>, link: u16)
    ensures { list.new.items ≡ links_after ports link list.old.items }
{
    if ports.is_none() {
        name_again(list, link);
    }
}
