//! Writing a capture.

ghost use Rattle.std.specs.Prelude.{◌≡◌, ◌≤◌, ◌<◌, ◌+◌, ◌/◌, ◌%◌, ◌++◌, ◌^◌, ◌↔◌, ◌≢◌, length, take, [], ◌∷◌, OnOk, IfOk, IfErr, Err, IsTrue, true, false};
ghost use Rattle.std.specs.Io.KnownBytes.{Appends};
ghost use Rattle.rohc_capture.specs.Written.{quad, missing, pcap_head, section_head, interface_head, pcap_front, pcapng_front, pcapng_back, before_frame, after_frame, is_in_time, head_of, frame_record};

use crate::batch::{BATCH, Batch};
use crate::buffer::{Buffer, put_at, put_few};
use std::io::Write;

/// The form of a capture that is written.
#[derive(Clone, Copy, PartialEq, Eq)]
pub enum Format {
    /// pcap, with times in nanoseconds.
    Pcap,
    /// pcapng.
    Pcapng,
}

/// Why a capture isn't written on.
#[derive(Clone, Copy, PartialEq, Eq)]
pub enum WriteFault {
    /// The packet is longer than 262,144 octets. Nothing of it was written.
    TooLong,
    /// In pcap, its time lies after 2106. Nothing of it was written.
    TooLate,
    /// A write failed. A part may have been written.
    Failed,
}

/// The octets before a packet, or before the first record.
pub(crate) type Head = Buffer<32>;

/// The most octets before and behind a frame.
const AROUND: usize = 35;

/// The longest packet that is written, in octets.
pub(crate) const LONGEST_PACKET: usize = 262_144;

/// Appends a number.
pub(crate) fn append(head: &mut Head, number: u32)
    requires { length head.old + 4 ≤ 32 }
    ensures { head.new ≡ head.old ++ quad number }
{
    head.extend(&number.to_be_bytes());
}

/// Puts a number behind the first `used` octets, and returns how many there are then.
#[inline(always)]
fn put(cells: &mut [u8], used: usize, number: u32) -> usize
    requires { used + 4 ≤ length cells.old }
    ensures put { take result cells.new ≡ take used cells.old ++ quad number }
    ensures used { result ≡ used + 4 }
    ensures length { length cells.new ≡ length cells.old }
{
    put_at(cells, used, &number.to_be_bytes())
}

/// How many octets are missing from a length to a multiple of four.
pub(crate) fn missing(size: u32) -> u32
    ensures { result ≡ missing size }
{
    (4 - size % 4) % 4
}

/// The length of a packet in two parts. The error is a packet that is too long to be written.
fn size_of(front: &[u8], rest: &[u8]) -> Result<u32, WriteFault>
    ensures size { IfOk result (λ size. size ≡ length (front.now ++ rest.now)) }
    ensures room { IfOk result (λ size. size ≤ LONGEST_PACKET) }
    ensures long { IfErr result (λ e. (e ≡ WriteFault.TooLong) × (LONGEST_PACKET < length (front.now ++ rest.now))) }
{
    if front.len() > LONGEST_PACKET || rest.len() > LONGEST_PACKET - front.len() {
        return Err(WriteFault::TooLong);
    }
    Ok((front.len() + rest.len()) as u32)
}

/// Writes one part.
#[inline(always)]
pub(crate) fn write_one<W: Write>(writer: &mut W, part: &[u8]) -> Result<(), WriteFault>
    ensures written { OnOk result (Appends (W.contents writer.old) (W.contents writer.new) part.now) }
    ensures failed { IfErr result (λ e. e ≡ WriteFault.Failed) }
{
    match writer.write_all(part) {
        Ok(()) => Ok(()),
        Err(_) => Err(WriteFault::Failed),
    }
}

/// Writes two parts.
#[inline(always)]
pub(crate) fn write_two<W: Write>(
    writer: &mut W,
    first: &[u8],
    second: &[u8],
) -> Result<(), WriteFault>
    ensures written { OnOk result (Appends (W.contents writer.old) (W.contents writer.new) (first.now ++ second.now)) }
    ensures failed { IfErr result (λ e. e ≡ WriteFault.Failed) }
{
    write_one(writer, first)?;
    write_one(writer, second)
}

/// Puts what stands before a frame in a record of pcap.
#[inline(always)]
fn put_pcap_front(cells: &mut [u8], used: usize, nanos: u64, size: u32) -> usize
    requires room { used + 16 ≤ length cells.old }
    requires time { nanos / 1000000000 < 2 ^ 32 }
    ensures put { take result cells.new ≡ take used cells.old ++ pcap_front nanos size }
    ensures used { result ≡ used + 16 }
    ensures length { length cells.new ≡ length cells.old }
{
    let used = put(cells, used, (nanos / 1_000_000_000) as u32);
    let used = put(cells, used, (nanos % 1_000_000_000) as u32);
    let used = put(cells, used, size);
    put(cells, used, size)
}

/// Puts what stands before a frame in its block of pcapng.
#[inline(always)]
fn put_pcapng_front(cells: &mut [u8], used: usize, nanos: u64, size: u32) -> usize
    requires size { size ≤ LONGEST_PACKET }
    requires room { used + 28 ≤ length cells.old }
    ensures put { take result cells.new ≡ take used cells.old ++ pcapng_front nanos size }
    ensures used { result ≡ used + 28 }
    ensures length { length cells.new ≡ length cells.old }
{
    let used = put(cells, used, 6);
    let used = put(cells, used, 32 + size + missing(size));
    let used = put(cells, used, 0);
    let used = put(cells, used, (nanos / 4_294_967_296) as u32);
    let used = put(cells, used, (nanos % 4_294_967_296) as u32);
    let used = put(cells, used, size);
    put(cells, used, size)
}

/// Puts what stands behind a frame in its block of pcapng.
#[inline(always)]
fn put_pcapng_back(cells: &mut [u8], used: usize, size: u32) -> usize
    requires size { size ≤ LONGEST_PACKET }
    requires room { used + 7 ≤ length cells.old }
    ensures put { take result cells.new ≡ take used cells.old ++ pcapng_back size }
    ensures used { result ≤ used + 7 }
    ensures length { length cells.new ≡ length cells.old }
{
    let zeros = [0u8; 3];
    let padding = missing(size);
    let used = put_at(cells, used, &zeros[..padding as usize]);
    put(cells, used, 32 + size + padding)
}

/// Whether a capture of this form can hold a time: in pcap it lies before 2106.
#[inline(always)]
fn is_in_time(format: Format, nanos: u64) -> bool
    ensures { result ≡ is_in_time format nanos }
{
    match format {
        Format::Pcap => nanos / 1_000_000_000 < 4_294_967_296,
        Format::Pcapng => true,
    }
}

/// Puts what stands before a frame of this length.
#[inline(always)]
fn put_before(cells: &mut [u8], used: usize, format: Format, nanos: u64, size: u32) -> usize
    requires size { size ≤ LONGEST_PACKET }
    requires room { used + 28 ≤ length cells.old }
    requires time { is_in_time format nanos ≡ true }
    ensures put { take result cells.new ≡ take used cells.old ++ before_frame format nanos size }
    ensures used { result ≤ used + 28 }
    ensures length { length cells.new ≡ length cells.old }
{
    match format {
        Format::Pcap => put_pcap_front(cells, used, nanos, size),
        Format::Pcapng => put_pcapng_front(cells, used, nanos, size),
    }
}

/// Puts what stands behind a frame of this length.
#[inline(always)]
fn put_after(cells: &mut [u8], used: usize, format: Format, size: u32) -> usize
    requires size { size ≤ LONGEST_PACKET }
    requires room { used + 7 ≤ length cells.old }
    ensures put { take result cells.new ≡ take used cells.old ++ after_frame format size }
    ensures used { result ≤ used + 7 }
    ensures length { length cells.new ≡ length cells.old }
{
    match format {
        Format::Pcap => used,
        Format::Pcapng => put_pcapng_back(cells, used, size),
    }
}

/// The head of a file of pcap.
fn pcap_head(link_type: u16) -> Head
    ensures { result ≡ pcap_head link_type }
{
    let mut head = Head::new();
    append(&mut head, 0xa1b2_3c4d);
    append(&mut head, 0x0002_0004);
    append(&mut head, 0);
    append(&mut head, 0);
    append(&mut head, 262_144);
    append(&mut head, u32::from(link_type));
    head
}

#[tactic(auto, unfolding(crate::specs::Written::section_head))]
/// The head of a section of pcapng.
pub(crate) fn section_head() -> Head
    ensures { result ≡ section_head }
{
    let mut head = Head::new();
    append(&mut head, 0x0a0d_0d0a);
    append(&mut head, 28);
    append(&mut head, 0x1a2b_3c4d);
    append(&mut head, 0x0001_0000);
    append(&mut head, 0xffff_ffff);
    append(&mut head, 0xffff_ffff);
    append(&mut head, 28);
    head
}

#[tactic(auto, unfolding(crate::specs::Written::interface_head))]
/// The interface of a section of pcapng.
fn interface_head(link_type: u16) -> Head
    ensures { result ≡ interface_head link_type }
{
    let mut head = Head::new();
    append(&mut head, 1);
    append(&mut head, 32);
    append(&mut head, u32::from(link_type) * 65_536);
    append(&mut head, 262_144);
    append(&mut head, 0x0009_0001);
    append(&mut head, 0x0900_0000);
    append(&mut head, 0);
    append(&mut head, 32);
    head
}

/// Writes the head of a capture whose frames have this link type, as captures number them: 101 for raw IP. The error is
/// `Failed`.
pub fn write_head<W: Write>(
    writer: &mut W,
    format: Format,
    link_type: u16,
) -> Result<(), WriteFault>
    ensures written { OnOk result (Appends (W.contents writer.old) (W.contents writer.new) (head_of format link_type)) }
    ensures failed { IfErr result (λ e. e ≡ WriteFault.Failed) }
{
    match format {
        Format::Pcap => write_one(writer, pcap_head(link_type).as_slice()),
        Format::Pcapng => {
            let section = section_head();
            let interface = interface_head(link_type);
            write_two(writer, section.as_slice(), interface.as_slice())
        }
    }
}

/// Writes a frame in two parts, with its time in nanoseconds since 1970. The errors are those of `WriteFault`.
pub fn write_record<W: Write>(
    writer: &mut W,
    format: Format,
    nanos: u64,
    front: &[u8],
    rest: &[u8],
) -> Result<(), WriteFault>
    ensures written { OnOk result (Appends (W.contents writer.old) (W.contents writer.new) (frame_record format nanos (front.now ++ rest.now))) }
    ensures long { (result ≡ Err WriteFault.TooLong) ↔ (LONGEST_PACKET < length (front.now ++ rest.now)) }
    ensures late { (result ≡ Err WriteFault.TooLate)
        ↔ ((format ≡ Format.Pcap) × (length (front.now ++ rest.now) ≤ LONGEST_PACKET) × (2 ^ 32 ≤ nanos / 1000000000)) }
    ensures stays { IfErr result (λ e. e ≢ WriteFault.Failed → writer.new ≡ writer.old) }
{
    let size = size_of(front, rest)?;
    if !is_in_time(format, nanos) {
        return Err(WriteFault::TooLate);
    }
    let mut before = [0u8; 28];
    let head = put_before(&mut before, 0, format, nanos, size);
    let mut behind = [0u8; 7];
    let back = put_after(&mut behind, 0, format, size);
    write_two(writer, &before[..head], front)?;
    write_two(writer, rest, &behind[..back])
}

/// Puts a frame in two parts behind those of a batch, with its time in nanoseconds since 1970, and returns true, if there is
/// room for it and a capture of this form can hold the time. Else nothing is changed.
#[inline(always)]
pub fn put_record(batch: &mut Batch, format: Format, nanos: u64, front: &[u8], rest: &[u8]) -> bool
    ensures put { result ≡ true → batch.new ≡ batch.old ++ frame_record format nanos (front.now ++ rest.now) }
    ensures room { IsTrue result ↔ ((length batch.old + AROUND + length front.now + length rest.now ≤ BATCH)
        × (is_in_time format nanos ≡ true)) }
    ensures kept { result ≡ false → batch.new ≡ batch.old }
{
    put_frame(&mut batch.octets, format, nanos, front, rest)
}

/// The same, behind the octets of a buffer.
#[inline(always)]
fn put_frame(
    octets: &mut Buffer<BATCH>,
    format: Format,
    nanos: u64,
    front: &[u8],
    rest: &[u8],
) -> bool
    ensures put { result ≡ true → octets.new ≡ octets.old ++ frame_record format nanos (front.now ++ rest.now) }
    ensures room { IsTrue result ↔ ((length octets.old + AROUND + length front.now + length rest.now ≤ BATCH)
        × (is_in_time format nanos ≡ true)) }
    ensures kept { result ≡ false → octets.new ≡ octets.old }
{
    let room = octets.room();
    if room < AROUND + front.len() || room - AROUND - front.len() < rest.len() {
        return false;
    }
    if !is_in_time(format, nanos) {
        return false;
    }
    octets.used = put_all(&mut octets.cells, octets.used, format, nanos, front, rest);
    true
}

/// Puts a record behind the first `used` octets, and returns how many there are then.
#[inline(always)]
fn put_all(
    cells: &mut [u8],
    used: usize,
    format: Format,
    nanos: u64,
    front: &[u8],
    rest: &[u8],
) -> usize
    requires size { length front.now + length rest.now ≤ LONGEST_PACKET }
    requires room { used + AROUND + length front.now + length rest.now ≤ length cells.old }
    requires time { is_in_time format nanos ≡ true }
    ensures put { take result cells.new ≡ take used cells.old ++ frame_record format nanos (front.now ++ rest.now) }
    ensures used { result ≤ used + AROUND + length front.now + length rest.now }
    ensures length { length cells.new ≡ length cells.old }
{
    let size = (front.len() + rest.len()) as u32;
    let used = put_before(cells, used, format, nanos, size);
    let used = put_at(cells, used, front);
    let used = put_few(cells, used, rest);
    put_after(cells, used, format, size)
}
