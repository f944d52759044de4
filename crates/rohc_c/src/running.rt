//! The functions that C calls to change links, to restore one, and to forget contexts while a gateway runs.

ghost use Rattle.std.specs.Prelude.{◌≡◌, ◌≢◌, ◌<◌, ◌↔◌, ◌⊎◌, length, None, IfSome, IsSome};
ghost use Rattle.rohc_concentrator.specs.Tables.{identifiers_at};
ghost use Rattle.rohc_concentrator.specs.Leaving.{HaveGone};
ghost use Rattle.rohc_concentrator.specs.Calls.{Forget, ForgetExpired, AddLink, RemoveLink, ChangeLink};
ghost use Rattle.rohc_c.specs.Settings.{setting_of};
ghost use Rattle.rohc_c.specs.Calls.{concentrator_in, Changes, HasCalled};
ghost use Rattle.rohc_c.specs.Saved.{IsLinkBack, IsNotLinkBack};

use crate::changing::{add_number, change_number};
use crate::gateway::Gateway;
use crate::link::{RohcLink, setting_of};
use crate::saved::{RohcRestored, link_back_number, link_back_place, tell};
use rohc_saved::restore_link;
use std::alloc::Global;

/// Adds a link behind the others, without a context.
///
/// Returns 0 if that is done, 1 if there is no concentrator, or else the first fault: 3 if the link counts more than eight
/// ranges, 2 if there are 256 links, 4 for settings outside their limits, 5 if the link is there, 6 for lack of memory. At
/// all but 0 nothing changes.
#[unsafe(no_mangle)]
pub extern "C" fn polorowan_add_link(alloc: Global, gateway: &mut Gateway, link: &RohcLink) -> u8
    ensures event { result ≢ 1 → result ≢ 3 → Changes (concentrator_in gateway.old) (concentrator_in gateway.new)
        (HasCalled link.now.link (AddLink (setting_of link.now)) result) }
    ensures absent { (result ≡ 1) ↔ (concentrator_in gateway.old ≡ None) }
    ensures ranges { IsSome (concentrator_in gateway.old) → ((result ≡ 3) ↔ (8 < link.now.range_count)) }
    ensures kept { (result ≡ 1) ⊎ (result ≡ 3) → gateway.new ≡ gateway.old }
{
    if !gateway.live {
        return 1;
    }
    if link.range_count > 8 {
        return 3;
    }
    match gateway.handle.lend().add_link(alloc, setting_of(link)) {
        Ok(()) => 0,
        Err(fault) => add_number(fault),
    }
}

/// Removes a link with its contexts. Returns 0 if that is done, 1 if there is no concentrator, and 2 if it has no such
/// link. If it returns 0, it sets `count` to the number of contexts removed.
#[unsafe(no_mangle)]
pub extern "C" fn polorowan_remove_link(gateway: &mut Gateway, link: u16, count: &mut usize) -> u8
    ensures event { result ≢ 1 → Changes (concentrator_in gateway.old) (concentrator_in gateway.new) (HasCalled link RemoveLink result) }
    ensures gone { result ≡ 0 → IfSome (concentrator_in gateway.old) (λ k. count.new ≡ length (identifiers_at k link)) }
    ensures absent { (result ≡ 1) ↔ (concentrator_in gateway.old ≡ None) }
    ensures kept { result ≡ 1 → gateway.new ≡ gateway.old }
    ensures untold { result ≢ 0 → count.new ≡ count.old }
{
    if !gateway.live {
        return 1;
    }
    match gateway.handle.lend().remove_link(link) {
        Ok(gone) => {
            *count = gone;
            0
        }
        Err(_) => 2,
    }
}

/// Changes the setting of the link of this number. Its contexts stay, unless the CID kind changes or their CID is above
/// the new greatest; `count` is set to how many went, at 0 alone.
///
/// Returns 0 if that is done, 1 if there is no concentrator, or else the first fault: 3 if the link counts more than eight
/// ranges, 7 if there is no such link, 4 for settings outside their limits. At all but 0 nothing changes.
#[unsafe(no_mangle)]
pub extern "C" fn polorowan_change_link(
    gateway: &mut Gateway,
    link: &RohcLink,
    count: &mut usize,
) -> u8
    ensures event { result ≢ 1 → result ≢ 3 → Changes (concentrator_in gateway.old) (concentrator_in gateway.new)
        (λ k n. HasCalled link.now.link (ChangeLink (setting_of link.now)) result k n × (result ≡ 0 → HaveGone count.new k n link.now.link)) }
    ensures absent { (result ≡ 1) ↔ (concentrator_in gateway.old ≡ None) }
    ensures ranges { IsSome (concentrator_in gateway.old) → ((result ≡ 3) ↔ (8 < link.now.range_count)) }
    ensures kept { (result ≡ 1) ⊎ (result ≡ 3) → gateway.new ≡ gateway.old }
    ensures untold { result ≢ 0 → count.new ≡ count.old }
{
    if !gateway.live {
        return 1;
    }
    if link.range_count > 8 {
        return 3;
    }
    match gateway.handle.lend().change_link(setting_of(link)) {
        Ok(gone) => {
            *count = gone;
            0
        }
        Err(fault) => change_number(fault),
    }
}

/// Puts the contexts of a link that holds none back from what `polorowan_save_link` wrote, and changes nothing else.
/// Contexts above the link's greatest CID are left out; `restored` counts them.
///
/// Returns 0 if that is done, 1 if there is no concentrator, or else the first fault: 2 if there is no such link, 3 if it
/// holds a context, 7 to 14 as of `polorowan_restore`, 4 if the octets aren't those of this link alone, 5 if it was saved
/// with the other CID kind; or 6 for lack of memory. At all but 0 nothing changes. `place` is set to the place of the octet
/// at fault, counted from 0, or to 0; at 1 it stays.
#[unsafe(no_mangle)]
pub extern "C" fn polorowan_restore_link(
    alloc: Global,
    gateway: &mut Gateway,
    link: u16,
    octets: &[u8],
    restored: &mut RohcRestored,
    place: &mut usize,
) -> u8
    ensures back { result ≡ 0 → Changes (concentrator_in gateway.old) (concentrator_in gateway.new)
        (IsLinkBack link octets.now restored.new) × (place.new ≡ 0) }
    ensures fault { result ≢ 0 → result ≢ 1 → Changes (concentrator_in gateway.old) (concentrator_in gateway.new)
        (IsNotLinkBack link octets.now result place.new) }
    ensures absent { (result ≡ 1) ↔ (concentrator_in gateway.old ≡ None) }
    ensures kept { result ≡ 1 → (gateway.new ≡ gateway.old) × (place.new ≡ place.old) }
    ensures untold { result ≢ 0 → restored.new ≡ restored.old }
{
    if !gateway.live {
        return 1;
    }
    match restore_link(alloc, gateway.handle.lend(), link, octets) {
        Ok(told) => {
            *restored = tell(told);
            *place = 0;
            0
        }
        Err(fault) => {
            *place = link_back_place(fault);
            link_back_number(fault)
        }
    }
}

/// Forgets the context of one CID of a link, and no other. Returns 0 if that is done, 1 if there is no concentrator, and 2
/// if it has no such link. If it returns 0, it sets `count` to the number of contexts removed, 0 or 1.
#[unsafe(no_mangle)]
pub extern "C" fn polorowan_forget(
    gateway: &mut Gateway,
    link: u16,
    cid: u16,
    count: &mut usize,
) -> u8
    ensures event { result ≢ 1 → Changes (concentrator_in gateway.old) (concentrator_in gateway.new)
        (λ k n. HasCalled link (Forget cid) result k n × (result ≡ 0 → HaveGone count.new k n link)) }
    ensures absent { (result ≡ 1) ↔ (concentrator_in gateway.old ≡ None) }
    ensures kept { result ≡ 1 → gateway.new ≡ gateway.old }
    ensures untold { result ≢ 0 → count.new ≡ count.old }
{
    if !gateway.live {
        return 1;
    }
    match gateway.handle.lend().forget(link, cid) {
        Ok(gone) => {
            *count = gone;
            0
        }
        Err(_) => 2,
    }
}

/// Forgets the contexts of a link that have expired at a moment, in milliseconds of the clock of the arrivals, and gives
/// their memory back. Returns 0 if that is done, 1 if there is no concentrator, and 2 if it has no such link. If it returns
/// 0, it sets `count` to the number of contexts removed.
#[unsafe(no_mangle)]
pub extern "C" fn polorowan_forget_expired(
    gateway: &mut Gateway,
    link: u16,
    moment: u64,
    count: &mut usize,
) -> u8
    ensures event { result ≢ 1 → Changes (concentrator_in gateway.old) (concentrator_in gateway.new)
        (λ k n. HasCalled link (ForgetExpired moment) result k n × (result ≡ 0 → HaveGone count.new k n link)) }
    ensures absent { (result ≡ 1) ↔ (concentrator_in gateway.old ≡ None) }
    ensures kept { result ≡ 1 → gateway.new ≡ gateway.old }
    ensures untold { result ≢ 0 → count.new ≡ count.old }
{
    if !gateway.live {
        return 1;
    }
    match gateway.handle.lend().forget_expired(link, moment) {
        Ok(gone) => {
            *count = gone;
            0
        }
        Err(_) => 2,
    }
}
