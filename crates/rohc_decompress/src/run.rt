//! A run over a capture.

ghost use Rattle.std.specs.Prelude.{◌≡◌, ◌/◌, List, [], ◌∷◌, ◌++◌, Some, None, Ok, OnOk, IfErr, IfSome, length, true, false};
ghost use Rattle.std.specs.Option.{option_map};
ghost use Rattle.std.specs.Io.KnownBytes.{append_known, Appends, Keeps};
ghost use Rattle.rohc_context.specs.Response.{response_of};
ghost use Rattle.rohc_feedback.specs.Element.{octets_of};
ghost use Rattle.rohc_concentrator.specs.Report.{report_of};
ghost use Rattle.rohc_concentrator.specs.Taken.{MissedBy};
ghost use Rattle.rohc_capture.specs.Framing.{usual};
ghost use Rattle.rohc_capture.specs.Written.{head_of};
ghost use Rattle.rohc_capture.specs.Records.{Entry, standing};
ghost use Rattle.rohc_capture.specs.Standing.{entry_of, frame_of, rest_of, place_of, ReadsOn};
ghost use Rattle.rohc_decompress.specs.Cut.{shown};
ghost use Rattle.rohc_decompress.specs.Written.{packet_text, packet_of, feedback_of, feedback_text, delivered_packet, work, TakesPacket};
ghost use Rattle.rohc_decompress.specs.Run.{how, Runs, OfReading, IsLed, Decompresses, Stops};

use crate::ahead::Look;
use crate::cut::without_padding;
use crate::fault::BulkFault;
use crate::tally::{Tally, more};
use rohc_capture::{
    Batch, Capture, CaptureFault, FaultKind, Format, Framing, Record, Rule, WriteFault,
    packet_at_once, packet_in, put_record, write_head, write_record,
};
use rohc_concentrator::{Answer, Concentrator};
use rohc_context::{Delivered, Outcome, Reply};
use rohc_feedback::Element;
use rohc_frame::Elements;
use std::io::{Read, Write};

/// The link type of raw IP packets.
const RAW_IP: u16 = 101;

/// The link type of Ethernet frames.
const ETHERNET: u16 = 1;

/// The octets of the head of a capture of pcap.
const HEAD_OF_CAPTURE: usize = 24;

/// The octets of the head of nearly every packet.
const HEAD: usize = 40;

/// How a capture is run.
#[derive(Clone, Copy)]
pub struct Bulk<'a> {
    /// Which link a frame belongs to: the first rule that speaks of it says so.
    pub rules: &'a [Rule],
    /// How packets lie in frames.
    pub framing: Framing,
    /// Whether a rebuilt packet ends at its IPv4 total length.
    pub padded: bool,
    /// The form of the captures that are written.
    pub format: Format,
}

/// Writes the heads of both captures: of raw IP packets, and of feedback in Ethernet frames.
pub fn begin<W: Write, V: Write>(
    format: Format,
    packets: &mut W,
    feedback: &mut V,
) -> Result<(), BulkFault>
    ensures packets { OnOk result (Appends (W.contents packets.old) (W.contents packets.new) (head_of format RAW_IP)) }
    ensures feedback { OnOk result (Appends (V.contents feedback.old) (V.contents feedback.new) (head_of format ETHERNET)) }
{
    let first = write_head(packets, format, RAW_IP);
    let second = write_head(feedback, format, ETHERNET);
    if first.is_err() || second.is_err() {
        return Err(BulkFault::Write);
    }
    if flush(packets).is_err() || flush(feedback).is_err() {
        return Err(BulkFault::Write);
    }
    Ok(())
}

/// Runs a capture to its end: each packet arrives on its link, at its time in milliseconds since 1970.
///
/// A packet that is delivered goes to `packets`, and feedback that is due to `feedback`, each with the time of its frame.
/// The addresses of a feedback's Ethernet frame are 02:00:00:00:00:00 and 02:00:00:00 with the link's number behind.
/// Counts are added to `tally`. Both writers are flushed before a read that may wait: one behind a read that gave less
/// than was asked for. After a fault of the capture all before it was written.
pub fn decompress<R: Read, W: Write, V: Write>(
    concentrator: &mut Concentrator,
    bulk: &Bulk<'_>,
    capture: &mut Capture<R>,
    packets: &mut W,
    feedback: &mut V,
    tally: &mut Tally,
) -> Result<(), BulkFault>
    ensures whole { OnOk result (Decompresses (how bulk.now)
        (option_map (standing capture.old.kind (place_of capture.old)) (rest_of R.remaining capture.old)) (Ok tt)
        (work concentrator.old (W.contents packets.old) (V.contents feedback.old))
        (work concentrator.new (W.contents packets.new) (V.contents feedback.new))) }
    ensures fault { IfErr result (λ fault. Stops (how bulk.now)
        (option_map (standing capture.old.kind (place_of capture.old)) (rest_of R.remaining capture.old)) fault
        (work concentrator.old (W.contents packets.old) (V.contents feedback.old))
        (work concentrator.new (W.contents packets.new) (V.contents feedback.new))) }
{
    let mut batch = Batch::new(HEAD_OF_CAPTURE);
    let ran = take_records(
        concentrator,
        bulk,
        capture,
        &mut batch,
        packets,
        feedback,
        tally,
    );
    if let Err(BulkFault::Write) = ran {
        return ran;
    }
    let Ok(()) = batch.pour(packets) else {
        return Err(BulkFault::Write);
    };
    ran
}

/// Takes the records of a capture to its end. What stands in the batch afterwards is still to be written.
fn take_records<R: Read, W: Write, V: Write>(
    concentrator: &mut Concentrator,
    bulk: &Bulk<'_>,
    capture: &mut Capture<R>,
    batch: &mut Batch,
    packets: &mut W,
    feedback: &mut V,
    tally: &mut Tally,
) -> Result<(), BulkFault>
    ensures whole { OnOk result (Decompresses (how bulk.now)
        (option_map (standing capture.old.kind (place_of capture.old)) (rest_of R.remaining capture.old)) (Ok tt)
        (work concentrator.old (append_known (W.contents packets.old) batch.old) (V.contents feedback.old))
        (work concentrator.new (append_known (W.contents packets.new) batch.new) (V.contents feedback.new))) }
    ensures fault { IfErr result (λ fault. Stops (how bulk.now)
        (option_map (standing capture.old.kind (place_of capture.old)) (rest_of R.remaining capture.old)) fault
        (work concentrator.old (append_known (W.contents packets.old) batch.old) (V.contents feedback.old))
        (work concentrator.new (append_known (W.contents packets.new) batch.new) (V.contents feedback.new))) }
{
    let mut look = Look::new();
    for _ in 0..u64::MAX {
        let record = match read_on(capture, batch, packets, feedback) {
            Ok(Some(record)) => record,
            Ok(None) => return Ok(()),
            Err(fault) => return Err(fault),
        };
        let frame = capture.frame();
        let Ok(()) = take_any_frame(
            concentrator,
            bulk,
            record,
            frame,
            batch,
            packets,
            feedback,
            tally,
        ) else {
            return Err(BulkFault::Write);
        };
        look.ahead(concentrator, bulk, capture);
        let Ok(()) = take_ahead(concentrator, bulk, capture, batch, packets, feedback, tally) else {
            return Err(BulkFault::Write);
        };
    }
    Err(BulkFault::Capture(CaptureFault {
        kind: FaultKind::Read,
        place: u64::MAX,
    }))
}

/// Takes the records that lie ahead, as nearly all do. Under another framing than the usual one it takes none.
fn take_ahead<R: Read, W: Write, V: Write>(
    concentrator: &mut Concentrator,
    bulk: &Bulk<'_>,
    capture: &mut Capture<R>,
    batch: &mut Batch,
    packets: &mut W,
    feedback: &mut V,
    tally: &mut Tally,
) -> Result<(), WriteFault>
    ensures { OnOk result ((es : List Entry)
        × IsLed (option_map (standing capture.old.kind (place_of capture.old)) (rest_of R.remaining capture.old)) es
        capture.new.kind (place_of capture.new) (rest_of R.remaining capture.new)
        × Runs (how bulk.now) es
        (work concentrator.old (append_known (W.contents packets.old) batch.old) (V.contents feedback.old))
        (work concentrator.new (append_known (W.contents packets.new) batch.new) (V.contents feedback.new))) }
{
    if !bulk.framing.is_usual() {
        return Ok(());
    }
    for _ in 0..u64::MAX {
        let Some(record) = capture.next_ahead() else {
            return Ok(());
        };
        let frame = capture.frame();
        let Ok(()) = take_frame(
            concentrator,
            bulk,
            &record,
            frame,
            batch,
            packets,
            feedback,
            tally,
        ) else {
            return Err(WriteFault::Failed);
        };
        let Ok(()) = batch.pour_piece(packets) else {
            return Err(WriteFault::Failed);
        };
    }
    Ok(())
}

/// Reads a record that doesn't lie ahead, or `None` at the end. Where the read may wait, all before it is written first.
#[inline(never)]
fn read_on<R: Read, W: Write, V: Write>(
    capture: &mut Capture<R>,
    batch: &mut Batch,
    packets: &mut W,
    feedback: &mut V,
) -> Result<Option<Record>, BulkFault>
    ensures reads { OfReading (λ r. IfSome (rest_of R.remaining capture.old) (λ text.
        ReadsOn (standing capture.old.kind (place_of capture.old) text) r
        (frame_of capture.new) capture.new.kind (place_of capture.new) (rest_of R.remaining capture.new))) result }
    ensures packets { OfReading (λ r. Keeps (append_known (W.contents packets.old) batch.old) (append_known (W.contents packets.new) batch.new)) result }
    ensures feedback { OfReading (λ r. Keeps (V.contents feedback.old) (V.contents feedback.new)) result }
{
    let Ok(()) = settle(
        capture.is_ahead() || capture.was_full(),
        batch,
        packets,
        feedback,
    ) else {
        return Err(BulkFault::Write);
    };
    match capture.next() {
        Ok(found) => Ok(found),
        Err(fault) => Err(BulkFault::Capture(fault)),
    }
}

/// Flushes a writer.
fn flush<W: Write>(writer: &mut W) -> Result<(), WriteFault>
    ensures { OnOk result (Keeps (W.contents writer.old) (W.contents writer.new)) }
{
    match writer.flush() {
        Ok(()) => Ok(()),
        Err(_) => Err(WriteFault::Failed),
    }
}

/// Writes the batch and flushes both writers, unless the next read doesn't wait.
fn settle<W: Write, V: Write>(
    is_at_hand: bool,
    batch: &mut Batch,
    packets: &mut W,
    feedback: &mut V,
) -> Result<(), WriteFault>
    ensures packets { OnOk result (Keeps (append_known (W.contents packets.old) batch.old) (append_known (W.contents packets.new) batch.new)) }
    ensures feedback { OnOk result (Keeps (V.contents feedback.old) (V.contents feedback.new)) }
{
    if is_at_hand {
        return Ok(());
    }
    batch.pour(packets)?;
    flush(packets)?;
    flush(feedback)
}

/// Takes one frame. What nearly every frame carries is found without a call.
#[inline(always)]
fn take_frame<W: Write, V: Write>(
    concentrator: &mut Concentrator,
    bulk: &Bulk<'_>,
    record: &Record,
    frame: &[u8],
    batch: &mut Batch,
    packets: &mut W,
    feedback: &mut V,
    tally: &mut Tally,
) -> Result<(), WriteFault>
    requires { bulk.now.framing ≡ usual }
    ensures { OnOk result (Runs (how bulk.now) (entry_of «record».now frame.now ∷ [])
        (work concentrator.old (append_known (W.contents packets.old) batch.old) (V.contents feedback.old))
        (work concentrator.new (append_known (W.contents packets.new) batch.new) (V.contents feedback.new))) }
{
    match packet_at_once(bulk.rules, record.link_type, record.original, frame) {
        Some((link, packet)) => {
            let nanos = record.nanos;
            take_packet::<false, W, V>(
                concentrator,
                bulk,
                link,
                nanos,
                packet,
                batch,
                packets,
                feedback,
                tally,
            )
        }
        None => {
            // Copied field by field, so that it stays in registers on the likely way.
            let Record {
                nanos,
                original,
                interface,
                place,
                link_type,
            } = *record;
            let copy = Record {
                nanos,
                original,
                interface,
                place,
                link_type,
            };
            take_any_frame(
                concentrator,
                bulk,
                copy,
                frame,
                batch,
                packets,
                feedback,
                tally,
            )
        }
    }
}

/// Takes any frame. Nothing is written of a frame that carries nothing, or of which no rule speaks.
#[inline(never)]
fn take_any_frame<W: Write, V: Write>(
    concentrator: &mut Concentrator,
    bulk: &Bulk<'_>,
    record: Record,
    frame: &[u8],
    batch: &mut Batch,
    packets: &mut W,
    feedback: &mut V,
    tally: &mut Tally,
) -> Result<(), WriteFault>
    ensures { OnOk result (Runs (how bulk.now) (entry_of «record» frame.now ∷ [])
        (work concentrator.old (append_known (W.contents packets.old) batch.old) (V.contents feedback.old))
        (work concentrator.new (append_known (W.contents packets.new) batch.new) (V.contents feedback.new))) }
{
    match packet_in(
        bulk.rules,
        &bulk.framing,
        record.link_type,
        record.original,
        frame,
    ) {
        Ok(Some((link, packet))) => {
            take_packet::<true, W, V>(
                concentrator,
                bulk,
                link,
                record.nanos,
                packet,
                batch,
                packets,
                feedback,
                tally,
            )
        }
        Ok(None) => {
            more(&mut tally.no_rule);
            Ok(())
        }
        Err(fault) => {
            tally.add_fault(fault);
            Ok(())
        }
    }
}

/// Takes a packet of a link that was captured at this time: it arrives, and what is delivered is put into the batch, or is
/// written behind it.
///
/// Nearly every packet is taken first, and its record put into the batch. Then the compiler writes its header of 40 octets
/// to where it goes, part by part.
///
/// Each of two callers has a function of its own, by `APART`, which the compiler inlines there.
///
/// The error is a failed write. Then the packet has arrived, and a part of what it delivers may have been written.
#[inline(always)]
pub fn take_packet<const APART: bool, W: Write, V: Write>(
    concentrator: &mut Concentrator,
    bulk: &Bulk<'_>,
    link: u16,
    nanos: u64,
    packet: &[u8],
    batch: &mut Batch,
    packets: &mut W,
    feedback: &mut V,
    tally: &mut Tally,
) -> Result<(), WriteFault>
    ensures { OnOk result (TakesPacket bulk.now.format bulk.now.padded link nanos packet.now
        (work concentrator.old (append_known (W.contents packets.old) batch.old) (V.contents feedback.old))
        (work concentrator.new (append_known (W.contents packets.new) batch.new) (V.contents feedback.new))) }
{
    match concentrator.take_first(link, nanos / 1_000_000, packet) {
        Some((_, long)) => {
            more(&mut tally.delivered);
            put_at_once(bulk, nanos, &long, batch, packets)
        }
        None => take_later(
            concentrator,
            bulk,
            link,
            nanos,
            packet,
            batch,
            packets,
            feedback,
            tally,
        ),
    }
}

/// Takes a packet that wasn't taken first.
#[cold]
#[inline(never)]
fn take_later<W: Write, V: Write>(
    concentrator: &mut Concentrator,
    bulk: &Bulk<'_>,
    link: u16,
    nanos: u64,
    packet: &[u8],
    batch: &mut Batch,
    packets: &mut W,
    feedback: &mut V,
    tally: &mut Tally,
) -> Result<(), WriteFault>
    requires { MissedBy concentrator.old link (nanos / 1000000) packet.now }
    ensures { OnOk result (TakesPacket bulk.now.format bulk.now.padded link nanos packet.now
        (work concentrator.old (append_known (W.contents packets.old) batch.old) (V.contents feedback.old))
        (work concentrator.new (append_known (W.contents packets.new) batch.new) (V.contents feedback.new))) }
{
    let mut answer = Answer::blank();
    concentrator.take_later(link, nanos / 1_000_000, packet, &mut answer);
    take_answer(bulk, link, nanos, &answer, batch, packets, feedback, tally)
}

/// Puts the record of a packet whose head has 40 octets into the batch, or writes it behind the batch. For the latter the
/// head is copied, so that on the likely way it stays in registers.
#[inline(always)]
fn put_at_once<W: Write>(
    bulk: &Bulk<'_>,
    nanos: u64,
    long: &Delivered<'_>,
    batch: &mut Batch,
    packets: &mut W,
) -> Result<(), WriteFault>
    requires { length long.now.head.items ≡ 40 }
    ensures { OnOk result (Appends (append_known (W.contents packets.old) batch.old) (append_known (W.contents packets.new) batch.new)
        (packet_text bulk.now.format bulk.now.padded nanos (Some (delivered_packet long.now)))) }
{
    if put_long(bulk, nanos, long, batch) {
        return Ok(());
    }
    let mut head = [0u8; HEAD];
    head.copy_from_slice(long.head.as_slice());
    put_behind_batch(bulk, nanos, head, long.payload, batch, packets)
}

/// Writes the batch, and behind it the record of a packet whose head has 40 octets.
#[cold]
#[inline(never)]
fn put_behind_batch<W: Write>(
    bulk: &Bulk<'_>,
    nanos: u64,
    head: [u8; HEAD],
    payload: &[u8],
    batch: &mut Batch,
    packets: &mut W,
) -> Result<(), WriteFault>
    ensures { OnOk result (Appends (append_known (W.contents packets.old) batch.old) (append_known (W.contents packets.new) batch.new)
        (packet_text bulk.now.format bulk.now.padded nanos (Some (record { head = head; payload = payload.now })))) }
{
    batch.pour(packets)?;
    let payload = shown(bulk.padded, &head, payload);
    match write_record(packets, bulk.format, nanos, &head, payload) {
        Ok(()) => Ok(()),
        Err(_) => Err(WriteFault::Failed),
    }
}

/// Puts the record of a packet whose head has 40 octets into the batch, and returns true, if there is room. The compiler
/// makes no call of a copy whose length it knows.
#[inline(always)]
fn put_long(bulk: &Bulk<'_>, nanos: u64, long: &Delivered<'_>, batch: &mut Batch) -> bool
    requires { length long.now.head.items ≡ 40 }
    ensures put { result ≡ true → batch.new ≡ batch.old
        ++ packet_text bulk.now.format bulk.now.padded nanos (Some (delivered_packet long.now)) }
    ensures kept { result ≡ false → batch.new ≡ batch.old }
{
    let head = &long.head.as_slice()[..HEAD];
    let payload = shown(bulk.padded, head, long.payload);
    put_record(batch, bulk.format, nanos, head, payload)
}

/// Counts the feedback in a packet.
fn count_relayed(relayed: Elements<'_>, tally: &mut Tally) {
    for _ in relayed {
        more(&mut tally.relayed);
    }
}

/// Writes what an answer delivers, and counts it.
fn take_answer<W: Write, V: Write>(
    bulk: &Bulk<'_>,
    link: u16,
    nanos: u64,
    answer: &Answer<'_>,
    batch: &mut Batch,
    packets: &mut W,
    feedback: &mut V,
    tally: &mut Tally,
) -> Result<(), WriteFault>
    ensures packets { OnOk result (Appends (append_known (W.contents packets.old) batch.old)
        (append_known (W.contents packets.new) batch.new)
        (packet_text bulk.now.format bulk.now.padded nanos (packet_of (report_of answer.now)))) }
    ensures feedback { OnOk result (Appends (V.contents feedback.old) (V.contents feedback.new)
        (feedback_text bulk.now.format link nanos (feedback_of (report_of answer.now)))) }
{
    match answer {
        Answer::Arrived { reply, relayed, .. } => {
            count_relayed(*relayed, tally);
            take_reply(bulk, link, nanos, reply, batch, packets, feedback, tally)
        }
        Answer::OnlyFront { relayed } => {
            more(&mut tally.silent);
            count_relayed(*relayed, tally);
            Ok(())
        }
        Answer::Refused(_) => {
            more(&mut tally.refused);
            Ok(())
        }
    }
}

/// Writes the feedback that is due, if there is some, and counts it.
fn take_feedback<V: Write>(
    format: Format,
    link: u16,
    nanos: u64,
    due: &Option<Element>,
    feedback: &mut V,
    tally: &mut Tally,
) -> Result<(), WriteFault>
    ensures { OnOk result (Appends (V.contents feedback.old) (V.contents feedback.new)
        (feedback_text format link nanos (octets_of due.now))) }
{
    match due {
        Some(element) => {
            more(&mut tally.feedback);
            put_feedback(format, link, nanos, element.as_slice(), feedback)
        }
        None => Ok(()),
    }
}

/// Writes a context's packet and its feedback.
fn take_reply<W: Write, V: Write>(
    bulk: &Bulk<'_>,
    link: u16,
    nanos: u64,
    reply: &Reply<'_>,
    batch: &mut Batch,
    packets: &mut W,
    feedback: &mut V,
    tally: &mut Tally,
) -> Result<(), WriteFault>
    ensures packets { OnOk result (Appends (append_known (W.contents packets.old) batch.old)
        (append_known (W.contents packets.new) batch.new)
        (packet_text bulk.now.format bulk.now.padded nanos (response_of reply.now).packet)) }
    ensures feedback { OnOk result (Appends (V.contents feedback.old) (V.contents feedback.new)
        (feedback_text bulk.now.format link nanos (response_of reply.now).feedback)) }
{
    tally.add_outcome(reply.outcome);
    take_feedback(bulk.format, link, nanos, &reply.feedback, feedback, tally)?;
    match &reply.packet {
        Some(packet) => put_packet(bulk, nanos, packet, batch, packets),
        None => Ok(()),
    }
}

/// The part of a payload that is written: all of it, unless padding is cut.
#[inline(always)]
pub fn shown<'a>(padded: bool, head: &[u8], payload: &'a [u8]) -> &'a [u8]
    ensures { result.now ≡ shown padded head.now payload.entry.now }
{
    if padded {
        without_padding(head, payload)
    } else {
        payload
    }
}

/// Puts the record of a delivered packet into the batch, or writes it behind the batch.
fn put_packet<W: Write>(
    bulk: &Bulk<'_>,
    nanos: u64,
    packet: &Delivered<'_>,
    batch: &mut Batch,
    packets: &mut W,
) -> Result<(), WriteFault>
    ensures { OnOk result (Appends (append_known (W.contents packets.old) batch.old) (append_known (W.contents packets.new) batch.new)
        (packet_text bulk.now.format bulk.now.padded nanos (Some (delivered_packet packet.now)))) }
{
    let head = packet.head.as_slice();
    let payload = shown(bulk.padded, head, packet.payload);
    if put_record(batch, bulk.format, nanos, head, payload) {
        return Ok(());
    }
    batch.pour(packets)?;
    match write_record(packets, bulk.format, nanos, head, payload) {
        Ok(()) => Ok(()),
        Err(_) => Err(WriteFault::Failed),
    }
}

/// Writes a feedback element in an Ethernet frame from 02:00:00:00 with the link's number behind.
pub fn put_feedback<V: Write>(
    format: Format,
    link: u16,
    nanos: u64,
    element: &[u8],
    feedback: &mut V,
) -> Result<(), WriteFault>
    ensures { OnOk result (Appends (V.contents feedback.old) (V.contents feedback.new)
        (feedback_text format link nanos (Some element.now))) }
{
    let high = (link / 256) as u8;
    let low = (link % 256) as u8;
    let head = [2, 0, 0, 0, 0, 0, 2, 0, 0, 0, high, low, 0x22, 0xf1];
    match write_record(feedback, format, nanos, &head, element) {
        Ok(()) => Ok(()),
        Err(_) => Err(WriteFault::Failed),
    }
}
