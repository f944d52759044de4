//! `decompress --pcapng`: each frame with what became of its packet and, directly behind it, the packet that was rebuilt.
//! And `decompress` of a part of a capture, in either form: in pcap the rebuilt packets alone.

use crate::narrow::{Narrow, Seen};
use crate::payloads::Payloads;
use rohc_capture::{
    Capture, CaptureFault, FaultKind, Format, Record, packet_in, write_commented, write_head,
    write_interface, write_record, write_section,
};
use rohc_concentrator::Concentrator;
use rohc_context::Outcome;
use rohc_decompress::{Bulk, BulkFault, Tally, begin, put_feedback, shown};
use std::alloc::{AllocError, Global};
use std::io::{Read, Write};

/// The link types of raw IP packets and of Ethernet frames.
const RAW_IP: u16 = 101;

const ETHERNET: u16 = 1;

/// The number of the interface of the rebuilt packets.
const REBUILT: u32 = 1;

/// What became of a packet.
#[derive(Drop)]
pub struct Arrival {
    pub outcome: Outcome,
    /// The CID, if it can be read.
    pub cid: Option<u16>,
    /// Whether the packet is an IR that was accepted.
    pub renews: bool,
    /// The packet that was delivered, or nothing.
    pub packet: Vec<u8>,
    /// The feedback that is due, or nothing.
    pub feedback: Vec<u8>,
    /// How many feedback elements the packet has for this side's compressor.
    pub relayed: u64,
    /// What the packet was and what became of it, in words.
    pub comment: Vec<u8>,
}

/// Who has packets arrive, and says what became of them.
pub trait Annotator {
    /// The memory that is used.
    fn alloc(&self) -> Global;

    /// How long the payloads of links are.
    fn payloads(&self) -> &Payloads;

    /// Has a packet arrive on its link.
    fn arrive(
        &self,
        concentrator: &mut Concentrator,
        link: u16,
        moment: u64,
        octets: &[u8],
    ) -> Result<Arrival, AllocError>;
}

/// The fault for lack of memory at the record that begins at this octet.
fn no_memory(place: u64) -> BulkFault {
    BulkFault::Capture(CaptureFault {
        kind: FaultKind::NoMemory,
        place,
    })
}

/// The interfaces of the capture that is written, by the link types of the frames so far. The rebuilt packets have the
/// second one.
#[derive(Drop)]
pub(crate) struct Interfaces {
    link_types: Vec<u16>,
}

/// The number of the interface of the link type at this place.
fn number_at(place: usize) -> u32 {
    match u32::try_from(place) {
        Ok(0) | Err(_) => 0,
        Ok(place) => place.saturating_add(REBUILT),
    }
}

impl Interfaces {
    /// No interface was written yet.
    pub(crate) fn new(link_types: Vec<u16>) -> Self {
        Interfaces { link_types }
    }

    /// Writes the interface of a link type, and behind the first one that of the rebuilt packets.
    fn write<W: Write>(&self, link_type: u16, packets: &mut W) -> Result<(), BulkFault> {
        write_interface(packets, link_type, b"ROHC").map_err(|_| BulkFault::Write)?;
        if self.link_types.is_empty() {
            write_interface(packets, RAW_IP, b"IP").map_err(|_| BulkFault::Write)?;
        }
        Ok(())
    }

    /// The number of the interface of a frame. A new one is written.
    fn number_of<W: Write>(&mut self, record: &Record, packets: &mut W) -> Result<u32, BulkFault> {
        let link_type = record.link_type;
        let known = self.link_types.iter().position(|other| *other == link_type);
        if let Some(place) = known {
            return Ok(number_at(place));
        }
        self.write(link_type, packets)?;
        let place = self.link_types.len();
        match self.link_types.push(link_type) {
            Ok(()) => Ok(number_at(place)),
            Err(_) => Err(no_memory(record.place)),
        }
    }
}

/// Counts a packet and its feedback.
fn count(tally: &mut Tally, arrival: &Arrival) {
    tally.add_outcome(arrival.outcome);
    tally.relayed = tally.relayed.saturating_add(arrival.relayed);
    if !arrival.feedback.is_empty() {
        tally.feedback = tally.feedback.saturating_add(1);
    }
}

/// Writes the packet that was delivered to a capture of pcap, if one was.
fn write_plain<W: Write>(
    record: &Record,
    arrival: &Arrival,
    padded: bool,
    packets: &mut W,
) -> Result<(), BulkFault> {
    if arrival.outcome != Outcome::Delivered {
        return Ok(());
    }
    let packet = shown(padded, &[], arrival.packet.as_slice());
    write_record(packets, Format::Pcap, record.nanos, &[], packet).map_err(|_| BulkFault::Write)
}

/// Writes a frame with its comment and, behind it, the packet that was delivered.
fn write_arrival<W: Write>(
    interface: u32,
    record: &Record,
    frame: &[u8],
    arrival: &Arrival,
    padded: bool,
    packets: &mut W,
) -> Result<(), BulkFault> {
    let comment = Some(arrival.comment.as_slice());
    write_commented(packets, interface, record.nanos, frame, comment).map_err(
        |_| BulkFault::Write,
    )?;
    if arrival.outcome != Outcome::Delivered {
        return Ok(());
    }
    let packet = shown(padded, &[], arrival.packet.as_slice());
    write_commented(packets, REBUILT, record.nanos, packet, None).map_err(|_| BulkFault::Write)
}

/// A run over a capture: who says what became of packets, how it is run, and what is counted.
#[derive(Drop)]
pub(crate) struct Annotated<'r, A> {
    pub(crate) annotator: &'r A,
    pub(crate) bulk: &'r Bulk<'r>,
    pub(crate) interfaces: Interfaces,
    /// Which packets are written.
    pub(crate) narrow: Narrow,
    pub(crate) tally: Tally,
}

impl<A: Annotator> Annotated<'_, A> {
    /// Writes what became of a packet, in the form that is asked for.
    fn write_packet<W: Write>(
        &mut self,
        record: &Record,
        frame: &[u8],
        arrival: &Arrival,
        packets: &mut W,
    ) -> Result<(), BulkFault> {
        let padded = self.bulk.padded;
        if self.bulk.format == Format::Pcap {
            return write_plain(record, arrival, padded, packets);
        }
        let interface = self.interfaces.number_of(record, packets)?;
        write_arrival(interface, record, frame, arrival, padded, packets)
    }

    /// Counts a packet that is shown, and writes what became of it, and the feedback that it made due.
    fn show<W: Write, V: Write>(
        &mut self,
        record: &Record,
        link: u16,
        frame: &[u8],
        arrival: &Arrival,
        outputs: (&mut W, &mut V),
    ) -> Result<(), BulkFault> {
        let (packets, feedback) = outputs;
        count(&mut self.tally, arrival);
        self.write_packet(record, frame, arrival, packets)?;
        if arrival.feedback.is_empty() {
            return Ok(());
        }
        let element = arrival.feedback.as_slice();
        put_feedback(self.bulk.format, link, record.nanos, element, feedback).map_err(
            |_| BulkFault::Write,
        )
    }

    /// Has the packet of a frame arrive, and writes what became of it if it is shown.
    fn take_packet<W: Write, V: Write>(
        &mut self,
        concentrator: &mut Concentrator,
        record: &Record,
        found: (u16, &[u8]),
        frame: (u64, &[u8]),
        outputs: (&mut W, &mut V),
    ) -> Result<(), BulkFault> {
        let (link, packet) = found;
        let (number, octets) = frame;
        let moment = record.nanos / 1_000_000;
        let packet = self
            .annotator
            .payloads()
            .trimmed(concentrator, link, packet);
        let Ok(arrival) = self.annotator.arrive(concentrator, link, moment, packet) else {
            return Err(no_memory(record.place));
        };
        let seen = Seen {
            number,
            link,
            cid: arrival.cid,
            moment,
        };
        if self.narrow.shows(&seen) {
            self.show(record, link, octets, &arrival, outputs)?;
        }
        Ok(())
    }

    /// Takes a frame: its packet, if it has one.
    fn take_frame<W: Write, V: Write>(
        &mut self,
        concentrator: &mut Concentrator,
        record: &Record,
        frame: (u64, &[u8]),
        outputs: (&mut W, &mut V),
    ) -> Result<(), BulkFault> {
        let (rules, framing) = (self.bulk.rules, self.bulk.framing);
        match packet_in(rules, &framing, record.link_type, record.original, frame.1) {
            Ok(Some(found)) => self.take_packet(concentrator, record, found, frame, outputs),
            Ok(None) => {
                self.tally.no_rule = self.tally.no_rule.saturating_add(1);
                Ok(())
            }
            Err(fault) => {
                self.tally.add_fault(fault);
                Ok(())
            }
        }
    }

    /// Writes the heads of both captures.
    fn begin<W: Write, V: Write>(
        &self,
        packets: &mut W,
        feedback: &mut V,
    ) -> Result<(), BulkFault> {
        if self.bulk.format == Format::Pcap {
            return begin(Format::Pcap, packets, feedback);
        }
        write_section(packets).map_err(|_| BulkFault::Write)?;
        write_head(feedback, Format::Pcapng, ETHERNET).map_err(|_| BulkFault::Write)
    }

    /// Runs a capture to its end. Both writers are flushed before a read that may wait.
    pub(crate) fn run<S: Read, W: Write, V: Write>(
        &mut self,
        concentrator: &mut Concentrator,
        capture: &mut Capture<S>,
        packets: &mut W,
        feedback: &mut V,
    ) -> Result<(), BulkFault> {
        self.begin(packets, feedback)?;
        for number in 1..u64::MAX {
            if !capture.is_ahead() && (packets.flush().is_err() || feedback.flush().is_err()) {
                return Err(BulkFault::Write);
            }
            let Some(record) = capture.next()? else {
                return Ok(());
            };
            let frame = (number, capture.frame());
            self.take_frame(concentrator, &record, frame, (packets, feedback))?;
        }
        Ok(())
    }
}
