//! The functions that C calls.

ghost use Rattle.std.specs.Prelude.{◌≡◌, ◌≢◌, ◌≤◌, ◌⊎◌, ◌↔◌, length, IsTrue, Some, None, true, false, IfSome, IsSome};
ghost use Rattle.rohc_concentrator.specs.declared.setting.LinkSetting.{LinkSetting};
ghost use Rattle.rohc_concentrator.specs.Tables.{setting_at};
ghost use Rattle.rohc_c.specs.Calls.{concentrator_in, Changes};
ghost use Rattle.rohc_c.specs.Setup.{IsNew, IsNewFault, fault_number, fault_place};
ghost use Rattle.rohc_c.specs.declared.setup.NewFault.{NewFault};

use crate::arrival::RohcArrival;
use crate::gateway::Gateway;
use crate::link::RohcLink;
use crate::many::RohcPacket;
use crate::names::put_name;
use crate::room::has_room;
use crate::saved::{RohcRestored, SavedLink, put_octets, rebuild, saved_link, saved_octets};
use crate::setup::build;
use crate::standing::{RohcContextInfo, context_at, has_expired};
use crate::taking::take_packet;
use crate::taking_many::{has_room_for_many, take_many};
use rohc_context::Refusal;
use std::alloc::Global;

/// Makes a concentrator with these links, in this order and without a record, in place of what the gateway had.
///
/// Returns 0, or why none is made: 1 for no links; 2 for more than 256; 3 for the first link that counts more than
/// eight ranges; then, link by link, 4 for settings outside their limits and 5 for the number of an earlier link; 6
/// for lack of memory. `place` is set to the place of that link, counted from 1, or to 0 if the fault is of no single
/// link. After a fault the gateway stays as it was.
#[unsafe(no_mangle)]
pub extern "C" fn polorowan_new(
    alloc: Global,
    gateway: &mut Gateway,
    links: &[RohcLink],
    place: &mut usize,
) -> u8
    ensures made { result ≡ 0 → IsSome (concentrator_in gateway.new) × IfSome (concentrator_in gateway.new) (IsNew links.now)
        × (place.new ≡ 0) }
    ensures fault { result ≢ 0 → (e : NewFault) × IsNewFault links.now e × (result ≡ fault_number e) × (place.new ≡ fault_place e) }
    ensures kept { result ≢ 0 → gateway.new ≡ gateway.old }
{
    match build(alloc, links) {
        Ok(concentrator) => {
            polorowan_free(alloc, gateway);
            gateway.put(concentrator);
            *place = 0;
            0
        }
        Err(fault) => {
            *place = fault.place();
            fault.number()
        }
    }
}

/// Frees the concentrator, if there is one, and leaves none.
#[unsafe(no_mangle)]
pub extern "C" fn polorowan_free(alloc: Global, gateway: &mut Gateway)
    ensures { concentrator_in gateway.new ≡ None }
{
    if gateway.live {
        drop(gateway.take(alloc));
    }
}

ghost use Rattle.rohc_c.specs.Calls.{HasRoom, HasArrived};

/// Takes one packet of a link, and writes the answer into the struct and the buffers. `moment` is its arrival time in
/// milliseconds.
///
/// Returns 0 if that is done, 1 if there is no concentrator, and 2 if a buffer is too short for what this packet may
/// need: 40 octets more than the packet for the rebuilt packet, 8 octets for feedback, and as many octets as the
/// packet for relayed feedback. At 1 and 2 nothing is changed.
#[unsafe(no_mangle)]
pub extern "C" fn polorowan_arrive(
    gateway: &mut Gateway,
    link: u16,
    moment: u64,
    octets: &[u8],
    packet: &mut [u8],
    feedback: &mut [u8],
    relayed: &mut [u8],
    arrival: &mut RohcArrival,
) -> u8
    ensures event { result ≡ 0 → Changes (concentrator_in gateway.old) (concentrator_in gateway.new)
        (HasArrived link moment octets.now (record { packet = packet.new; feedback = feedback.new; relayed = relayed.new }) arrival.new) }
    ensures absent { (result ≡ 1) ↔ (concentrator_in gateway.old ≡ None) }
    ensures tight { IsSome (concentrator_in gateway.old) → ((result ≡ 2) ↔
        (¬ HasRoom octets.now (record { packet = packet.old; feedback = feedback.old; relayed = relayed.old }))) }
    ensures there { IsSome (concentrator_in gateway.old) →
        HasRoom octets.now (record { packet = packet.old; feedback = feedback.old; relayed = relayed.old }) → result ≡ 0 }
    ensures kept { (result ≡ 1) ⊎ (result ≡ 2) → (gateway.new ≡ gateway.old) × (packet.new ≡ packet.old)
        × (feedback.new ≡ feedback.old) × (relayed.new ≡ relayed.old) × (arrival.new ≡ arrival.old) }
{
    if !gateway.live {
        return 1;
    }
    if !has_room(octets, packet, feedback, relayed) {
        return 2;
    }
    take_packet(
        gateway.handle.lend(),
        link,
        moment,
        octets,
        packet,
        feedback,
        relayed,
        arrival,
    );
    0
}

ghost use Rattle.rohc_c.specs.Many.{HasRoomForMany, HaveArrived};

/// Takes packets one after the other, as so many single calls do, and writes the answers: the structs in their order, and
/// into the room, for each packet in turn, its rebuilt packet (40 octets more than the packet), its feedback (8 octets) and
/// its relayed feedback (as many octets as the packet).
///
/// Returns 0 if that is done, 1 if there is no concentrator, and 2 if there are more than 1,024 packets or fewer structs, a
/// packet lies outside the octets, or the room is too short. At 1 and 2 nothing is changed.
#[unsafe(no_mangle)]
pub extern "C" fn polorowan_arrive_many(
    gateway: &mut Gateway,
    packets: &[RohcPacket],
    octets: &[u8],
    room: &mut [u8],
    answers: &mut [RohcArrival],
) -> u8
    ensures event { result ≡ 0 → Changes (concentrator_in gateway.old) (concentrator_in gateway.new)
        (HaveArrived packets.now octets.now room.new answers.new) }
    ensures absent { (result ≡ 1) ↔ (concentrator_in gateway.old ≡ None) }
    ensures tight { IsSome (concentrator_in gateway.old) → ((result ≡ 2) ↔ (¬ HasRoomForMany packets.now octets.now room.old answers.old)) }
    ensures kept { (result ≡ 1) ⊎ (result ≡ 2) → (gateway.new ≡ gateway.old) × (room.new ≡ room.old) × (answers.new ≡ answers.old) }
    ensures within { result ≤ 2 }
{
    if !gateway.live {
        return 1;
    }
    if !has_room_for_many(packets, octets, room, answers) {
        return 2;
    }
    take_many(gateway.handle.lend(), packets, octets, room, answers);
    0
}

ghost use Rattle.rohc_concentrator.specs.Calls.{Reset};
ghost use Rattle.rohc_c.specs.Calls.{HasCalled, has_record};

/// Forgets every record of a link, and no other record. Returns 0 if that is done, 1 if there is no concentrator, and
/// 2 if it has no such link.
#[unsafe(no_mangle)]
pub extern "C" fn polorowan_reset(gateway: &mut Gateway, link: u16) -> u8
    ensures event { result ≢ 1 → Changes (concentrator_in gateway.old) (concentrator_in gateway.new) (HasCalled link Reset result) }
    ensures absent { (result ≡ 1) ↔ (concentrator_in gateway.old ≡ None) }
    ensures kept { result ≡ 1 → gateway.new ≡ gateway.old }
{
    if !gateway.live {
        return 1;
    }
    match gateway.handle.lend().reset(link) {
        Ok(()) => 0,
        Err(_) => 2,
    }
}

/// Whether a CID of a link has a record, even one that counts as none because it was idle too long; false if there is
/// no concentrator.
#[unsafe(no_mangle)]
pub extern "C" fn polorowan_has_context(gateway: &mut Gateway, link: u16, cid: u16) -> bool
    ensures answer { result ≡ has_record (concentrator_in gateway.old) link cid }
    ensures kept { gateway.new ≡ gateway.old }
{
    if !gateway.live {
        return false;
    }
    gateway.handle.lend().has_context(link, cid)
}

/// Whether the context of a CID of a link has expired at a moment, in milliseconds of the clock of the arrivals, and so is
/// answered as none is; false if there is no such context or no concentrator.
#[unsafe(no_mangle)]
pub extern "C" fn polorowan_has_expired(
    gateway: &mut Gateway,
    link: u16,
    cid: u16,
    moment: u64,
) -> bool
    ensures answer { result ≡ has_expired (concentrator_in gateway.old) link cid moment }
    ensures kept { gateway.new ≡ gateway.old }
{
    if !gateway.live {
        return false;
    }
    has_expired(gateway.handle.lend(), link, cid, moment)
}

ghost use Rattle.rohc_c.specs.Standing.{link_at, identifier_at, IsContextAt, has_expired};

/// Gives the number of the link at a place, counted from 0 in the order of the settings. Returns whether there is one.
///
/// After the last link, and without a concentrator, `link` stays as it was.
#[unsafe(no_mangle)]
pub extern "C" fn polorowan_link_at(gateway: &mut Gateway, place: usize, link: &mut u16) -> bool
    ensures shown { result ≡ true → link_at (concentrator_in gateway.old) place ≡ Some link.new }
    ensures behind { result ≡ false → (link_at (concentrator_in gateway.old) place ≡ None) × (link.new ≡ link.old) }
    ensures kept { gateway.new ≡ gateway.old }
{
    if !gateway.live {
        return false;
    }
    let Some(number) = gateway.handle.lend().link_at(place) else {
        return false;
    };
    *link = number;
    true
}

/// Gives the context at a place among those of a link, counted from 0 in the order of their first IR. Returns whether
/// there is one.
///
/// After the last one, without such a link, and without a concentrator, `context` stays as it was.
#[unsafe(no_mangle)]
pub extern "C" fn polorowan_context_at(
    gateway: &mut Gateway,
    link: u16,
    place: usize,
    context: &mut RohcContextInfo,
) -> bool
    ensures shown { result ≡ true → IsContextAt (concentrator_in gateway.old) link place context.new }
    ensures behind { result ≡ false → (identifier_at (concentrator_in gateway.old) link place ≡ None) × (context.new ≡ context.old) }
    ensures kept { gateway.new ≡ gateway.old }
{
    if !gateway.live {
        return false;
    }
    let Some(shown) = context_at(gateway.handle.lend(), link, place) else {
        return false;
    };
    *context = shown;
    true
}

ghost use Rattle.rohc_c.specs.Names.{IsNamed, IsUnnamed};

/// Writes the name of the refusal with this number into a buffer, followed by an octet 0, and returns its length
/// without that octet.
///
/// Returns 0 if no refusal has the number, or if there is no room; then the buffer stays as it was. 16 octets are enough
/// for each name.
#[unsafe(no_mangle)]
pub extern "C" fn polorowan_refusal_name(number: u8, name: &mut [u8]) -> usize
    ensures named { result ≢ 0 → IsNamed number result name.new }
    ensures unnamed { result ≡ 0 → IsUnnamed number name.old }
    ensures kept { result ≡ 0 → name.new ≡ name.old }
{
    let Some(refusal) = Refusal::of_number(number) else {
        return 0;
    };
    let text = refusal.name().as_bytes();
    if name.len() <= text.len() {
        return 0;
    }
    put_name(text, name);
    text.len()
}

ghost use Rattle.rohc_c.specs.Saved.{IsStored, TooShort, IsBack, IsNotBack, not_back_number, not_back_place};
ghost use Rattle.rohc_c.specs.declared.saved.BackFault.{BackFault};

/// Writes all that the concentrator keeps into a buffer (docs/FORMATS.md), as it is saved at this moment, in milliseconds of
/// the clock of the arrivals.
///
/// Returns 0 if that is done, 1 if there is no concentrator, 2 if the buffer is too short, and 3 for lack of memory.
/// `length` is set to the number of octets that are needed, at 0 and 2. Nothing else is changed at 1, 2 and 3.
#[unsafe(no_mangle)]
pub extern "C" fn polorowan_save(
    alloc: Global,
    gateway: &mut Gateway,
    moment: u64,
    octets: &mut [u8],
    length: &mut usize,
) -> u8
    ensures saved { result ≡ 0 → IfSome (concentrator_in gateway.old) (λ k. IsStored k moment octets.new length.new) }
    ensures short { result ≡ 2 → IfSome (concentrator_in gateway.old) (λ k. TooShort k moment octets.old length.new) }
    ensures absent { (result ≡ 1) ↔ (concentrator_in gateway.old ≡ None) }
    ensures kept { gateway.new ≡ gateway.old }
    ensures untouched { result ≢ 0 → octets.new ≡ octets.old }
    ensures unknown { (result ≡ 1) ⊎ (result ≡ 3) → length.new ≡ length.old }
    ensures within { result ≤ 3 }
{
    if !gateway.live {
        return 1;
    }
    let Some(saved) = saved_octets(alloc, gateway.handle.lend(), moment) else {
        return 3;
    };
    *length = saved.len();
    if put_octets(saved.as_slice(), octets) {
        0
    } else {
        2
    }
}

ghost use Rattle.rohc_c.specs.Saved.{IsLinkStored, IsLinkTooLong};

/// Writes one link of the concentrator into a buffer, in the same form, as it is saved at this moment.
///
/// Returns 0 to 3 as `polorowan_save` does, and 4 if there is no such link. `length` is set as it is there.
#[unsafe(no_mangle)]
pub extern "C" fn polorowan_save_link(
    alloc: Global,
    gateway: &mut Gateway,
    link: u16,
    moment: u64,
    octets: &mut [u8],
    length: &mut usize,
) -> u8
    ensures saved { result ≡ 0 → IfSome (concentrator_in gateway.old) (λ k. IsLinkStored k link moment octets.new length.new) }
    ensures short { result ≡ 2 → IfSome (concentrator_in gateway.old) (λ k. IsLinkTooLong k link moment octets.old length.new) }
    ensures absent { (result ≡ 1) ↔ (concentrator_in gateway.old ≡ None) }
    ensures unknown_link { result ≡ 4 → IfSome (concentrator_in gateway.old) (λ k. setting_at k link ≡ None) }
    ensures poor { result ≡ 3 → IfSome (concentrator_in gateway.old) (λ k. (s : LinkSetting) × (setting_at k link ≡ Some s)) }
    ensures kept { gateway.new ≡ gateway.old }
    ensures untouched { result ≢ 0 → octets.new ≡ octets.old }
    ensures unknown { (result ≡ 1) ⊎ (result ≡ 3) ⊎ (result ≡ 4) → length.new ≡ length.old }
    ensures within { result ≤ 4 }
{
    if !gateway.live {
        return 1;
    }
    let saved = match saved_link(alloc, gateway.handle.lend(), link, moment) {
        SavedLink::Saved(saved) => saved,
        SavedLink::NoLink => return 4,
        SavedLink::NoMemory => return 3,
    };
    *length = saved.len();
    if put_octets(saved.as_slice(), octets) {
        0
    } else {
        2
    }
}

/// Makes a concentrator with these links that goes on from what these octets spell, in place of what the gateway had.
///
/// Links that aren't among these, or are of another CID kind, are left out, and contexts above the greatest CID; `restored`
/// counts them. Returns 0, or why none is made: 1 to 6 as of `polorowan_new`; then the first fault of the octets: 7 if they are
/// no saved concentrator, 8 for another version, 9 if they end too soon, 10 for a bad value of a link, 11 for one of a
/// context, 12 for a link or a CID for the second time, or a CID above the greatest of its link, 13 for another digest, 14
/// for octets behind the end. `place` is set to the place of the link at fault, counted from 1, or of the octet, counted
/// from 0; else to 0. After a fault the gateway and `restored` stay as they were.
#[unsafe(no_mangle)]
pub extern "C" fn polorowan_restore(
    alloc: Global,
    gateway: &mut Gateway,
    links: &[RohcLink],
    octets: &[u8],
    restored: &mut RohcRestored,
    place: &mut usize,
) -> u8
    ensures back { result ≡ 0 → IsSome (concentrator_in gateway.new) × IfSome (concentrator_in gateway.new)
        (λ k. IsBack links.now octets.now k restored.new) × (place.new ≡ 0) }
    ensures fault { result ≢ 0 → (e : BackFault) × IsNotBack links.now octets.now e × (result ≡ not_back_number e) × (place.new ≡ not_back_place e) }
    ensures kept { result ≢ 0 → (gateway.new ≡ gateway.old) × (restored.new ≡ restored.old) }
{
    let (concentrator, told) = match rebuild(alloc, links, octets) {
        Ok(back) => back,
        Err(fault) => {
            *place = fault.place();
            return fault.number();
        }
    };
    polorowan_free(alloc, gateway);
    gateway.put(concentrator);
    *restored = told;
    *place = 0;
    0
}
