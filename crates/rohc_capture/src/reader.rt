//! Reading a capture, record by record.

ghost use Rattle.std.specs.Prelude.{◌≡◌, ◌≢◌, ◌+◌, ◌≤◌, ℕ, List, [], length, drop, true, false, Some, None, Ok, Err, IfOk, IfErr, IfSome, IfNone, OnOk, OnErr};
ghost use Rattle.rohc_capture.specs.declared.reader.Kind.TheVariants as kinds;
ghost use Rattle.rohc_capture.specs.Window.{ahead_of, text_in, StaysKnown};
ghost use Rattle.std.specs.Option.{option_map};
ghost use Rattle.rohc_capture.specs.Records.{standing, is_section, record_at};
ghost use Rattle.rohc_capture.specs.Coming.{seen, first_of, IsComing};
ghost use Rattle.rohc_capture.specs.Standing.{frame_of, rest_of, place_of, at_place, is_whole, IsBegun, ReadsOn, BeginsAs};

use crate::block::{
    ENHANCED, INTERFACE, Interface, OBSOLETE, PacketHead, SECTION, SIMPLE, enhanced_in,
    interface_in, obsolete_in, order_of, simple_in,
};
use crate::fault::{CaptureFault, FaultKind};
use crate::number::{ByteOrder, long};
use crate::pcap::{PcapHead, file_in, record_in};
use crate::ticks::nanos_of;
use crate::window::{LONGEST, Window};
use std::alloc::Global;
use std::io::Read;

/// The most interfaces of a section.
const MOST_INTERFACES: usize = 65_536;

/// The octets of a record's head in a capture of pcap.
const RECORD_HEAD: usize = 16;

/// The octets of a file's head in a capture of pcap.
const FILE_HEAD: usize = 24;

/// The octets of a block without its body: its type and twice its length.
const BLOCK: usize = 12;

/// The octets before a packet's, in its block: the type, the length and the head.
const PACKET_HEAD: usize = 28;

/// The same in the block of a packet without a time.
const SIMPLE_HEAD: usize = 12;

/// What the first octets say of the capture.
#[derive(Clone, Copy)]
enum Kind {
    /// Nothing was read so far.
    Unknown,
    /// A capture of pcap.
    Pcap(PcapHead),
    /// A capture of pcapng, whose section has numbers in this order.
    Pcapng(ByteOrder),
}

/// Where a record's octets lie ahead.
#[derive(Clone, Copy)]
struct Span {
    /// The octets before the frame.
    skip: usize,
    /// The octets of the frame that were captured.
    captured: usize,
    /// All octets of the record.
    all: usize,
}

/// The span of no record.
const NOTHING: Span = Span {
    skip: 0,
    captured: 0,
    all: 0,
};

/// What a block was.
#[derive(Clone, Copy)]
enum Block {
    /// The capture ended before it.
    End,
    /// It has no packet.
    Other,
    /// It has a packet, whose record was set.
    Packet,
}

/// A frame of a capture.
#[derive(Clone, Copy, PartialEq, Eq)]
pub struct Record {
    /// When the frame was captured, in nanoseconds since 1970. A packet without a time has that of the record before.
    pub nanos: u64,
    /// How many octets the frame had.
    pub original: u32,
    /// The interface by its place in its section; 0 in a capture of pcap.
    pub interface: u32,
    /// Where the record begins: the octets of the capture before it.
    pub place: u64,
    /// The link type, as captures number them.
    pub link_type: u16,
}

/// A frame that lies ahead.
#[derive(Clone, Copy)]
pub struct Coming<'a> {
    /// The link type, as captures number them.
    pub link_type: u16,
    /// How many octets the frame had.
    pub original: u32,
    /// Its octets that were captured.
    pub frame: &'a [u8],
    /// All octets of its record.
    pub all: usize,
}

/// The record before the first.
const NO_RECORD: Record = Record {
    nanos: 0,
    original: 0,
    interface: 0,
    place: 0,
    link_type: 0,
};

/// A capture that is read from `R`.
#[derive(Drop)]
pub struct Capture<R> {
    window: Window<R>,
    kind: Kind,
    interfaces: Vec<Interface>,
    span: Span,
    /// The record that was read last. It stays here, so that no call passes it on.
    record: Record,
    /// Where the record or the block begins that is being read.
    place: u64,
    /// The moment of the last record.
    nanos: u64,
}

/// Whether a section's block begins here.
fn is_section(octets: &[u8]) -> bool
    ensures { result ≡ is_section octets.now }
{
    match long(ByteOrder::Big, octets) {
        Some((number, _)) => number == SECTION,
        None => false,
    }
}

/// The last four octets of a block as a number.
fn second_length(order: ByteOrder, block: &[u8]) -> Option<u32> {
    let (_, last) = block.split_last_chunk::<4>()?;
    let (length, _) = long(order, last.as_slice())?;
    Some(length)
}

/// The block at the front, if it is whole, of a packet with a time, and both its lengths agree.
fn block_in(order: ByteOrder, octets: &[u8]) -> Option<&[u8]> {
    let (kind, rest) = long(order, octets)?;
    let (length, _) = long(order, rest)?;
    if kind != ENHANCED || length % 4 != 0 || length as usize > LONGEST {
        return None;
    }
    let block = octets.get(..length as usize)?;
    if second_length(order, block) != Some(length) {
        return None;
    }
    Some(block)
}

/// A block's body: what stands between its first two numbers and its last.
fn body_of(block: &[u8]) -> &[u8] {
    match block.get(8..) {
        Some(rest) if rest.len() >= 4 => {
            let (body, _) = rest.split_at(rest.len() - 4);
            body
        }
        _ => &[],
    }
}

/// The frame of the record at the front of these octets of a capture of pcap, if the record is whole.
#[inline(always)]
fn coming_in(head: PcapHead, octets: &[u8]) -> Option<Coming<'_>>
    ensures { option_map seen result ≡ first_of (record_at head 0 octets.now) }
{
    let record = record_in(head, octets)?;
    let captured = record.captured as usize;
    let all = RECORD_HEAD + captured;
    if all > LONGEST || all > octets.len() {
        return None;
    }
    Some(Coming {
        link_type: head.link_type,
        original: record.original,
        frame: &octets[RECORD_HEAD..all],
        all,
    })
}

impl<R: Read> Capture<R> {
    /// A capture before its first octet. Buffers are made here, and later only the list of interfaces grows.
    pub fn new(alloc: Global, reader: R) -> Result<Capture<R>, CaptureFault>
    where
        R: Drop,
        ensures kind { IfOk result (λ c. c.kind ≡ kinds.Unknown) }
        ensures place { IfOk result (λ c. place_of c ≡ 0) }
        ensures rest { IfOk result (λ c. rest_of R.remaining c ≡ R.remaining reader) }
    {
        let Ok(window) = Window::new(alloc, reader) else {
            return Err(CaptureFault {
                kind: FaultKind::NoMemory,
                place: 0,
            });
        };
        Ok(Capture {
            window,
            kind: Kind::Unknown,
            interfaces: Vec::new(alloc),
            span: NOTHING,
            record: NO_RECORD,
            place: 0,
            nanos: 0,
        })
    }

    /// Reads the next record; `None` at the end. After a fault nothing is known of what follows.
    #[inline(always)]
    pub fn next(&mut self) -> Result<Option<Record>, CaptureFault>
        ensures { IfSome (rest_of R.remaining self.old) (λ text.
            ReadsOn (standing self.old.kind (place_of self.old) text) result
            (frame_of self.new) self.new.kind (place_of self.new) (rest_of R.remaining self.new)) }
    {
        let _ = self.window.pass(self.span.all);
        self.span = NOTHING;
        self.place = self.window.place();
        match self.next_of_kind() {
            Ok(true) => Ok(Some(self.record)),
            Ok(false) => Ok(None),
            Err(kind) => Err(CaptureFault {
                kind,
                place: self.place,
            }),
        }
    }

    /// Reads the next record if it lies ahead whole, and in a capture of pcapng in the next block; else nothing is changed.
    #[inline(always)]
    pub fn next_ahead(&mut self) -> Option<Record>
        ensures some { IfSome result (λ r. IfSome (rest_of R.remaining self.old) (λ text.
            ReadsOn (standing self.old.kind (place_of self.old) text) (Ok (Some r))
            (frame_of self.new) self.new.kind (place_of self.new) (rest_of R.remaining self.new))) }
        ensures none { IfNone result (self.new ≡ self.old) }
    {
        match self.kind {
            Kind::Pcap(head) => self.next_ahead_in_pcap(head),
            Kind::Pcapng(order) => self.next_ahead_in_blocks(order),
            Kind::Unknown => None,
        }
    }

    /// The captured octets of the record that was read last.
    pub fn frame(&self) -> &[u8]
        ensures { result.now ≡ frame_of self.now }
    {
        match self.window.ahead().get(self.span.skip..) {
            Some(rest) => match rest.get(..self.span.captured) {
                Some(frame) => frame,
                None => rest,
            },
            None => &[],
        }
    }

    /// The frame of the record that begins `passed` octets behind the record that was read last, if it lies ahead whole, and in a
    /// capture of pcapng in a block of a packet with a time. Nothing is passed.
    #[inline(always)]
    pub fn coming(&self, passed: usize) -> Option<Coming<'_>>
        ensures { IsComing self.now.kind (drop passed (drop self.now.span.all (ahead_of self.now.window))) (option_map seen result) }
    {
        let octets = self.window.ahead().get(self.span.all..)?.get(passed..)?;
        match self.kind {
            Kind::Unknown => None,
            Kind::Pcap(head) => coming_in(head, octets),
            Kind::Pcapng(order) => self.coming_in_blocks(order, octets),
        }
    }

    /// Whether the next record, or the next block, was read to its end already, so that `next` doesn't wait for it.
    pub fn is_ahead(&self) -> bool
        ensures { result ≡ is_whole self.now.kind (drop self.now.span.all (ahead_of self.now.window)) }
    {
        let Some(rest) = self.window.ahead().get(self.span.all..) else {
            return false;
        };
        match self.kind {
            Kind::Unknown => false,
            Kind::Pcap(head) => match record_in(head, rest) {
                Some(record) => rest.len() >= RECORD_HEAD + record.captured as usize,
                None => false,
            },
            Kind::Pcapng(order) => match rest.get(4..) {
                Some(behind) => match long(order, behind) {
                    Some((length, _)) => rest.len() >= length as usize,
                    None => false,
                },
                None => false,
            },
        }
    }

    /// Whether the last read gave as many octets as were asked for. A file does, up to its end. A pipe mostly gives less, and
    /// then the next read may have to wait.
    pub fn was_full(&self) -> bool
        ensures { result ≡ self.now.window.is_full }
    {
        self.window.is_full()
    }

    /// Reads the next record by the capture's kind, which the first octets say. Returns whether there is one.
    #[inline(always)]
    fn next_of_kind(&mut self) -> Result<bool, FaultKind>
        requires { self.old.place ≡ self.old.window.place }
        ensures { IfSome (text_in R.remaining self.old.window) (λ text.
            ReadsOn (standing self.old.kind self.old.place text) (at_place self.new.place self.new.record result)
            (frame_of self.new) self.new.kind (place_of self.new) (rest_of R.remaining self.new)) }
    {
        match self.kind {
            Kind::Unknown => self.first(),
            _ => self.next_begun(),
        }
    }

    /// Reads the first record of a capture.
    #[cold]
    #[inline(never)]
    fn first(&mut self) -> Result<bool, FaultKind>
        requires { self.old.place ≡ self.old.window.place }
        ensures { IfSome (text_in R.remaining self.old.window) (λ text.
            ReadsOn (standing kinds.Unknown self.old.place text) (at_place self.new.place self.new.record result)
            (frame_of self.new) self.new.kind (place_of self.new) (rest_of R.remaining self.new)) }
    {
        match self.begin() {
            Ok(()) => self.next_begun(),
            Err(kind) => Err(kind),
        }
    }

    /// Reads the next record of a capture whose kind is known.
    #[inline(always)]
    fn next_begun(&mut self) -> Result<bool, FaultKind>
        requires { self.old.place ≡ self.old.window.place }
        ensures next { IsBegun self.old.kind → IfSome (text_in R.remaining self.old.window) (λ text.
            ReadsOn (standing self.old.kind self.old.place text) (at_place self.new.place self.new.record result)
            (frame_of self.new) self.new.kind (place_of self.new) (rest_of R.remaining self.new)) }
    {
        match self.kind {
            Kind::Pcap(head) => self.next_in_pcap(head),
            Kind::Pcapng(order) => self.next_in_blocks(order),
            Kind::Unknown => Err(FaultKind::NotACapture),
        }
    }

    /// Finds out the kind of the capture.
    fn begin(&mut self) -> Result<(), FaultKind>
        requires { self.old.place ≡ self.old.window.place }
        ensures begins { IfSome (text_in R.remaining self.old.window) (λ text.
            BeginsAs self.old.place text result self.new.kind self.new.place (text_in R.remaining self.new.window)) }
        ensures place { OnOk result (self.new.place ≡ self.new.window.place) }
        ensures same_place { OnErr result (self.new.place ≡ self.old.place) }
    {
        let has_head = self.window.need(FILE_HEAD)?;
        if is_section(self.window.ahead()) {
            self.kind = Kind::Pcapng(ByteOrder::Big);
            return Ok(());
        }
        if !has_head {
            return Err(FaultKind::NotACapture);
        }
        let Some(head) = file_in(self.window.ahead()) else {
            return Err(FaultKind::NotACapture);
        };
        self.kind = Kind::Pcap(head);
        let _ = self.window.pass(FILE_HEAD);
        self.place = self.window.place();
        Ok(())
    }

    /// Reads the next record of a capture of pcap.
    #[inline(always)]
    fn next_in_pcap(&mut self, head: PcapHead) -> Result<bool, FaultKind>
        requires { self.old.place ≡ self.old.window.place }
        ensures next { IfSome (text_in R.remaining self.old.window) (λ text.
            ReadsOn (standing (kinds.Pcap head) self.old.place text) (at_place self.old.place self.new.record result)
            (frame_of self.new) (kinds.Pcap head) (place_of self.new) (rest_of R.remaining self.new)) }
        ensures kind { self.new.kind ≡ self.old.kind }
        ensures place { self.new.place ≡ self.old.place }
    {
        if !self.window.need(RECORD_HEAD)? {
            return match self.window.ahead() {
                [] => Ok(false),
                _ => Err(FaultKind::CutOff),
            };
        }
        let Some(record) = record_in(head, self.window.ahead()) else {
            return Err(FaultKind::CutOff);
        };
        let captured = record.captured as usize;
        if captured > LONGEST - RECORD_HEAD {
            return Err(FaultKind::TooLong);
        }
        let all = RECORD_HEAD + captured;
        if !self.window.need(all)? {
            return Err(FaultKind::CutOff);
        }
        self.span = Span {
            skip: RECORD_HEAD,
            captured,
            all,
        };
        self.record = Record {
            nanos: record.nanos,
            original: record.original,
            interface: 0,
            place: self.place,
            link_type: head.link_type,
        };
        Ok(true)
    }

    /// The same, of a capture of pcap.
    #[inline(always)]
    fn next_ahead_in_pcap(&mut self, head: PcapHead) -> Option<Record>
        ensures some { IfSome result (λ r. IfSome (rest_of R.remaining self.old) (λ text.
            ReadsOn (standing (kinds.Pcap head) (place_of self.old) text) (Ok (Some r))
            (frame_of self.new) (kinds.Pcap head) (place_of self.new) (rest_of R.remaining self.new))) }
        ensures none { IfNone result (self.new ≡ self.old) }
        ensures kind { self.new.kind ≡ self.old.kind }
    {
        let rest = self.window.ahead().get(self.span.all..)?;
        let next = record_in(head, rest)?;
        let captured = next.captured as usize;
        let all = RECORD_HEAD + captured;
        if all > LONGEST || all > rest.len() {
            return None;
        }
        let _ = self.window.pass(self.span.all);
        let skip = RECORD_HEAD;
        self.span = Span {
            skip,
            captured,
            all,
        };
        Some(Record {
            nanos: next.nanos,
            original: next.original,
            interface: 0,
            place: self.window.place(),
            link_type: head.link_type,
        })
    }

    /// The same, of a capture of pcapng: the next block is one of a packet with a time.
    #[inline(never)]
    fn next_ahead_in_blocks(&mut self, order: ByteOrder) -> Option<Record>
        ensures some { IfSome result (λ r. IfSome (rest_of R.remaining self.old) (λ text.
            ReadsOn (standing (kinds.Pcapng order) (place_of self.old) text) (Ok (Some r))
            (frame_of self.new) (kinds.Pcapng order) (place_of self.new) (rest_of R.remaining self.new))) }
        ensures none { IfNone result (self.new ≡ self.old) }
        ensures kind { self.new.kind ≡ self.old.kind }
    {
        let (record, span) = self.block_ahead(order)?;
        let _ = self.window.pass(self.span.all);
        self.span = span;
        self.nanos = record.nanos;
        Some(record)
    }

    /// The block at the front of these octets, if it is whole and one of a packet with a time, with its head and its interface.
    fn packet_block<'a>(
        &self,
        order: ByteOrder,
        octets: &'a [u8],
    ) -> Option<(&'a [u8], PacketHead, Interface)> {
        let block = block_in(order, octets)?;
        let head = enhanced_in(order, body_of(block))?;
        let interface = *self.interfaces.get(head.interface as usize)?;
        if head.captured as usize > block.len().saturating_sub(PACKET_HEAD + 4) {
            return None;
        }
        Some((block, head, interface))
    }

    /// The frame in such a block.
    fn coming_in_blocks<'a>(&self, order: ByteOrder, octets: &'a [u8]) -> Option<Coming<'a>> {
        let (block, head, interface) = self.packet_block(order, octets)?;
        let end = PACKET_HEAD + head.captured as usize;
        Some(Coming {
            link_type: interface.link_type,
            original: head.original,
            frame: block.get(PACKET_HEAD..end)?,
            all: block.len(),
        })
    }

    /// The record of the block that lies ahead, if it is whole and one of a packet with a time, and where its octets lie.
    fn block_ahead(&self, order: ByteOrder) -> Option<(Record, Span)> {
        let rest = self.window.ahead().get(self.span.all..)?;
        let (block, head, interface) = self.packet_block(order, rest)?;
        let captured = head.captured as usize;
        let record = Record {
            nanos: nanos_of(head.ticks?, interface.resolution),
            original: head.original,
            interface: head.interface,
            place: self.window.place().saturating_add(self.span.all as u64),
            link_type: interface.link_type,
        };
        let span = Span {
            skip: PACKET_HEAD,
            captured,
            all: block.len(),
        };
        Some((record, span))
    }

    /// Reads blocks up to the next with a packet.
    fn next_in_blocks(&mut self, order: ByteOrder) -> Result<bool, FaultKind>
        ensures known { StaysKnown (R.remaining self.old.window.reader) (R.remaining self.new.window.reader) }
    {
        let mut order = order;
        for _ in 0..u64::MAX {
            let block = self.next_block(order)?;
            match block {
                Block::End => return Ok(false),
                Block::Packet => return Ok(true),
                Block::Other => {}
            }
            let _ = self.window.pass(self.span.all);
            self.span = NOTHING;
            self.place = self.window.place();
            if let Kind::Pcapng(next) = self.kind {
                order = next;
            }
        }
        Err(FaultKind::Read)
    }

    /// Reads the next block.
    fn next_block(&mut self, order: ByteOrder) -> Result<Block, FaultKind>
        ensures known { StaysKnown (R.remaining self.old.window.reader) (R.remaining self.new.window.reader) }
    {
        if !self.window.need(BLOCK)? {
            return match self.window.ahead() {
                [] => Ok(Block::End),
                _ => Err(FaultKind::CutOff),
            };
        }
        let Some((kind, rest)) = long(order, self.window.ahead()) else {
            return Err(FaultKind::CutOff);
        };
        if kind == SECTION {
            return self.next_section();
        }
        let Some((length, _)) = long(order, rest) else {
            return Err(FaultKind::CutOff);
        };
        match kind {
            INTERFACE => self.next_interface(order, length),
            ENHANCED | OBSOLETE | SIMPLE => self.next_packet(order, kind, length),
            _ => self.skip_block(order, length),
        }
    }

    /// Reads a whole block of this length into the window.
    fn whole_block(&mut self, order: ByteOrder, length: u32) -> Result<(), FaultKind>
        ensures known { StaysKnown (R.remaining self.old.window.reader) (R.remaining self.new.window.reader) }
    {
        let all = length as usize;
        if length % 4 != 0 || all < BLOCK {
            return Err(FaultKind::BlockLength);
        }
        if all > LONGEST {
            return Err(FaultKind::TooLong);
        }
        if !self.window.need(all)? {
            return Err(FaultKind::CutOff);
        }
        let Some(block) = self.window.ahead().get(..all) else {
            return Err(FaultKind::CutOff);
        };
        if second_length(order, block) != Some(length) {
            return Err(FaultKind::BlockLength);
        }
        self.span = Span {
            skip: 0,
            captured: 0,
            all,
        };
        Ok(())
    }

    /// The body of the block that was read.
    fn body(&self) -> &[u8] {
        match self.window.ahead().get(..self.span.all) {
            Some(block) => body_of(block),
            None => &[],
        }
    }

    /// Reads the block that begins a section, by its own octet order.
    fn next_section(&mut self) -> Result<Block, FaultKind>
        ensures known { StaysKnown (R.remaining self.old.window.reader) (R.remaining self.new.window.reader) }
    {
        let Some((length_octets, magic)) = self
            .window
            .ahead()
            .get(4..8)
            .zip(self.window.ahead().get(8..12))
        else {
            return Err(FaultKind::CutOff);
        };
        let order = match long(ByteOrder::Big, magic) {
            Some((number, _)) => order_of(number).ok_or(FaultKind::ByteOrder)?,
            None => return Err(FaultKind::CutOff),
        };
        let Some((length, _)) = long(order, length_octets) else {
            return Err(FaultKind::CutOff);
        };
        self.whole_block(order, length)?;
        if self.body().len() < 16 {
            return Err(FaultKind::BlockLength);
        }
        self.interfaces.clear();
        self.kind = Kind::Pcapng(order);
        Ok(Block::Other)
    }

    /// Reads the block that describes an interface.
    fn next_interface(&mut self, order: ByteOrder, length: u32) -> Result<Block, FaultKind>
        ensures known { StaysKnown (R.remaining self.old.window.reader) (R.remaining self.new.window.reader) }
    {
        self.whole_block(order, length)?;
        let Some(interface) = interface_in(order, self.body()) else {
            return Err(FaultKind::BlockLength);
        };
        if self.interfaces.len() >= MOST_INTERFACES {
            return Err(FaultKind::TooManyInterfaces);
        }
        match self.interfaces.push(interface) {
            Ok(()) => Ok(Block::Other),
            Err(_) => Err(FaultKind::NoMemory),
        }
    }

    /// Passes a block of any length whose body says nothing of packets.
    fn skip_block(&mut self, order: ByteOrder, length: u32) -> Result<Block, FaultKind>
        ensures known { StaysKnown (R.remaining self.old.window.reader) (R.remaining self.new.window.reader) }
    {
        if length % 4 != 0 || length < 12 {
            return Err(FaultKind::BlockLength);
        }
        let mut left = length as usize - 4;
        for _ in 0..length {
            if left == 0 {
                break;
            }
            if !self.window.need(1)? {
                return Err(FaultKind::CutOff);
            }
            left -= self.window.pass(left);
        }
        if !self.window.need(4)? {
            return Err(FaultKind::CutOff);
        }
        match long(order, self.window.ahead()) {
            Some((second, _)) if second == length => {
                let _ = self.window.pass(4);
                Ok(Block::Other)
            }
            _ => Err(FaultKind::BlockLength),
        }
    }

    /// The interface of a packet, by its place in the section.
    fn interface(&self, place: u32) -> Result<Interface, FaultKind> {
        match self.interfaces.get(place as usize) {
            Some(interface) => Ok(*interface),
            None => Err(FaultKind::NoInterface),
        }
    }

    /// The head of a packet's block.
    fn packet_head(&self, order: ByteOrder, kind: u32) -> Result<PacketHead, FaultKind> {
        let head = match kind {
            ENHANCED => enhanced_in(order, self.body()),
            OBSOLETE => obsolete_in(order, self.body()),
            _ => simple_in(order, self.interface(0)?.longest, self.body()),
        };
        head.ok_or(FaultKind::BlockLength)
    }

    /// Reads the block of a packet.
    fn next_packet(&mut self, order: ByteOrder, kind: u32, length: u32) -> Result<Block, FaultKind>
        ensures known { StaysKnown (R.remaining self.old.window.reader) (R.remaining self.new.window.reader) }
    {
        self.whole_block(order, length)?;
        let head = self.packet_head(order, kind)?;
        let interface = self.interface(head.interface)?;
        let skip = if kind == SIMPLE {
            SIMPLE_HEAD
        } else {
            PACKET_HEAD
        };
        let captured = head.captured as usize;
        if captured > self.body().len().saturating_sub(skip - 8) {
            return Err(FaultKind::BlockLength);
        }
        self.span.skip = skip;
        self.span.captured = captured;
        if let Some(ticks) = head.ticks {
            self.nanos = nanos_of(ticks, interface.resolution);
        }
        self.record = Record {
            nanos: self.nanos,
            original: head.original,
            interface: head.interface,
            place: self.place,
            link_type: interface.link_type,
        };
        Ok(Block::Packet)
    }
}
