//! One arrival on one link.

ghost use Rattle.std.specs.Prelude.{◌≡◌, ◌≢◌, ◌≤◌, ℕ, [], Bool, true, false, Option, None, length, IfSome, IfNone};
ghost use Rattle.indexmap.specs.IndexMap.{keys};
ghost use Rattle.rohc_frame.specs.Reading.{header_of, elements_of};
ghost use Rattle.rohc_context.specs.Record.{Record};
ghost use Rattle.rohc_context.specs.Response.{Response, response_of, delivered};
ghost use Rattle.rohc_context.specs.Step.{HasMissed};
ghost use Rattle.rohc_context.specs.Repaired.{Repairs};
ghost use Rattle.rohc_concentrator.specs.Setting.{settings_of};
ghost use Rattle.rohc_concentrator.specs.Tables.{record_in, KeepsPlace};
ghost use Rattle.rohc_concentrator.specs.Report.{Report, Arrived, OwnStep, IsAnswered};
ghost use Rattle.rohc_concentrator.specs.Repaired.{IsRepaired};
ghost use Rattle.rohc_concentrator.specs.Taken.{TakesOnLink, Stays, MissedOn};

use crate::place::{Places, place_of};
use crate::records::LinkRecords;
use crate::sink::Sink;
use rohc_context::{Context, Delivered, Refusal, Reply};
use rohc_frame::{Elements, Forward, cut, plain_header};

/// Takes a packet with nothing before its header that its context takes first, as nearly every packet is, and returns its
/// CID and what it was rebuilt to. `hints` says where each record was put. For any other packet the records stay.
#[inline(always)]
pub(crate) fn take_first<'a>(
    records: &mut LinkRecords,
    hints: Option<&Places>,
    moment: u64,
    octets: &'a [u8],
) -> Option<(u16, Delivered<'a>)>
    ensures taken { IfSome result (λ p. TakesOnLink records.old moment octets.entry.now (Arrived p.0 (delivered p.1.head.items p.1.payload.now None) []) records.new) }
    ensures first { IfSome result (λ p. IsRepaired (Some records.old.setting) (record_in records.old) moment octets.entry.now
        (Arrived p.0 (delivered p.1.head.items p.1.payload.now None) []) false) }
    ensures long { IfSome result (λ p. length p.1.head.items ≡ 40) }
    ensures missed { IfNone result (MissedOn records.old.setting (record_in records.old) moment octets.entry.now) }
    ensures stays { IfNone result (Stays records.old records.new) }
{
    let settings = &records.setting.settings;
    let Some(forward) = plain_header(settings.size, settings.max_cid, octets) else {
        return None;
    };
    let hint = match hints {
        Some(hints) => hints.hint(forward.cid),
        None => 0,
    };
    let Some(place) = place_of(&records.contexts, hint, forward.cid) else {
        return None;
    };
    let idle_ms = settings.idle_ms;
    let (_, context) = records.contexts.pair_mut(place);
    let Some(packet) = context.take_first(idle_ms, moment, &forward) else {
        return None;
    };
    Some((forward.cid, packet))
}

/// A packet with a header, which `take_first` left.
#[derive(Clone, Copy)]
struct Left<'a> {
    forward: Forward<'a>,
    relayed: Elements<'a>,
    /// Whether the header is of kind Other and begins the packet: there is no padding, feedback or Add-CID before it.
    is_plain: bool,
}

/// Takes a packet that `take_first` left, and puts the answer into the sink. The first of `hints` says where each record
/// was put.
#[cold]
#[inline(never)]
pub(crate) fn take_later<'a, S: Sink<'a>>(
    records: &mut LinkRecords,
    hints: &mut [Places],
    moment: u64,
    octets: &'a [u8],
    sink: &mut S,
)
    requires missed { MissedOn records.old.setting (record_in records.old) moment octets.now }
    requires room { (report : Report) (after : ℕ → Option Record) → IsAnswered (Some records.old.setting) (record_in records.old) moment octets.now report after
        → S.has_room sink.old report }
    ensures { (report : Report) × (repaired : Bool) × TakesOnLink records.old moment octets.entry.now report records.new
        × IsRepaired (Some records.old.setting) (record_in records.old) moment octets.entry.now report repaired
        × S.takes sink.old report repaired sink.new }
{
    let settings = &records.setting.settings;
    if let Some(forward) = plain_header(settings.size, settings.max_cid, octets) {
        let packet = Left {
            forward,
            relayed: Elements::none(),
            is_plain: true,
        };
        return take_left(records, hints, moment, &packet, sink);
    }
    let framed = match cut(settings.size, settings.max_cid, octets) {
        Ok(framed) => framed,
        Err(refusal) => return sink.refused(Refusal::from(refusal)),
    };
    let relayed = framed.feedback();
    let Some(forward) = framed.forward else {
        return sink.only_front(relayed);
    };
    let packet = Left {
        forward,
        relayed,
        is_plain: false,
    };
    take_left(records, hints, moment, &packet, sink);
}

/// Takes a packet for a CID, and puts the answer into the sink.
fn take_left<'a, S: Sink<'a>>(
    records: &mut LinkRecords,
    hints: &mut [Places],
    moment: u64,
    packet: &Left<'a>,
    sink: &mut S,
)
    requires sized { packet.now.forward.size ≡ records.old.setting.settings.size }
    requires within { packet.now.forward.cid ≤ records.old.setting.settings.max_cid }
    requires missed { packet.now.is_plain ≡ true → IfSome (record_in records.old packet.now.forward.cid)
        (λ r. HasMissed records.old.setting.settings.idle_ms moment r (header_of packet.now.forward)) }
    requires room { (response : Response) (after : Option Record) → OwnStep (settings_of records.old.setting packet.now.forward.cid) moment (header_of packet.now.forward)
        (record_in records.old packet.now.forward.cid) response after → S.has_room sink.old (Arrived packet.now.forward.cid response (elements_of packet.now.relayed)) }
    ensures answer { (response : Response) × (repaired : Bool) × OwnStep (settings_of records.old.setting packet.now.forward.cid) moment (header_of packet.now.forward)
        (record_in records.old packet.now.forward.cid) response (record_in records.new packet.now.forward.cid)
        × Repairs (record_in records.old packet.now.forward.cid) (settings_of records.old.setting packet.now.forward.cid) moment (header_of packet.now.forward) response repaired
        × S.takes sink.old (Arrived packet.now.forward.cid response (elements_of packet.now.relayed)) repaired sink.new }
    ensures others { (cid : ℕ) → cid ≢ packet.now.forward.cid → record_in records.new cid ≡ record_in records.old cid }
    ensures setting { records.new.setting ≡ records.old.setting }
    ensures order { KeepsPlace (keys records.old.contexts) (keys records.new.contexts) packet.now.forward.cid (record_in records.old packet.now.forward.cid) }
{
    let mut reply = Reply::refused(Refusal::NoContext);
    let repaired = step_at(records, hints, moment, packet, &mut reply);
    sink.arrived(packet.forward.cid, reply, repaired, packet.relayed);
}

/// Takes a packet for a CID: its record takes one step, or a first IR makes it. The answer overwrites what `reply` held.
/// Returns whether the packet was repaired.
fn step_at<'a>(
    records: &mut LinkRecords,
    hints: &mut [Places],
    moment: u64,
    packet: &Left<'a>,
    reply: &mut Reply<'a>,
) -> bool
    requires sized { packet.now.forward.size ≡ records.old.setting.settings.size }
    requires within { packet.now.forward.cid ≤ records.old.setting.settings.max_cid }
    requires missed { packet.now.is_plain ≡ true → IfSome (record_in records.old packet.now.forward.cid)
        (λ r. HasMissed records.old.setting.settings.idle_ms moment r (header_of packet.now.forward)) }
    ensures own { OwnStep (settings_of records.old.setting packet.now.forward.cid) moment (header_of packet.now.forward)
        (record_in records.old packet.now.forward.cid) (response_of reply.new) (record_in records.new packet.now.forward.cid) }
    ensures repaired { Repairs (record_in records.old packet.now.forward.cid) (settings_of records.old.setting packet.now.forward.cid) moment (header_of packet.now.forward)
        (response_of reply.new) result }
    ensures others { (cid : ℕ) → cid ≢ packet.now.forward.cid → record_in records.new cid ≡ record_in records.old cid }
    ensures setting { records.new.setting ≡ records.old.setting }
    ensures order { KeepsPlace (keys records.old.contexts) (keys records.new.contexts) packet.now.forward.cid (record_in records.old packet.now.forward.cid) }
{
    let forward = &packet.forward;
    let hint = match hints.first() {
        Some(hints) => hints.hint(forward.cid),
        None => 0,
    };
    let Some(place) = place_of(&records.contexts, hint, forward.cid) else {
        first_at(records, hints, moment, forward, reply);
        return false;
    };
    let settings = records.setting.settings_of(forward.cid);
    let (_, context) = records.contexts.pair_mut(place);
    context.step(&settings, moment, forward, packet.is_plain, reply)
}

/// Takes an arrival for a CID without a record, which a first IR makes. The answer overwrites what `reply` held.
fn first_at<'a>(
    records: &mut LinkRecords,
    hints: &mut [Places],
    moment: u64,
    forward: &Forward<'a>,
    reply: &mut Reply<'a>,
)
    requires none { record_in records.old forward.now.cid ≡ None }
    requires sized { forward.now.size ≡ records.old.setting.settings.size }
    requires within { forward.now.cid ≤ records.old.setting.settings.max_cid }
    ensures own { OwnStep (settings_of records.old.setting forward.now.cid) moment (header_of forward.now)
        None (response_of reply.new) (record_in records.new forward.now.cid) }
    ensures unrepaired { Repairs None (settings_of records.old.setting forward.now.cid) moment (header_of forward.now) (response_of reply.new) false }
    ensures others { (cid : ℕ) → cid ≢ forward.now.cid → record_in records.new cid ≡ record_in records.old cid }
    ensures setting { records.new.setting ≡ records.old.setting }
    ensures order { KeepsPlace (keys records.old.contexts) (keys records.new.contexts) forward.now.cid None }
{
    let settings = records.setting.settings_of(forward.cid);
    let (context, made) = match Context::first(&settings, moment, forward) {
        Ok(made) => made,
        Err(refusal) => {
            *reply = Reply::refused(refusal);
            return;
        }
    };
    let place = records.contexts.len();
    if records.contexts.insert(forward.cid, context).is_err() {
        *reply = Reply::refused(Refusal::NoMemory);
        return;
    }
    if let Some(hints) = hints.first_mut() {
        hints.keep(forward.cid, place);
    }
    *reply = made;
}
