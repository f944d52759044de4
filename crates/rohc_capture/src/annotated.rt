//! Writing a capture of pcapng with named interfaces, whose frames may have a comment.

ghost use Rattle.std.specs.Prelude.{◌≡◌, ◌≤◌, length, OnOk, IfSome, true};
ghost use Rattle.std.specs.Option.{option_map};
ghost use Rattle.std.specs.Io.KnownBytes.{Appends};
ghost use Rattle.rohc_capture.specs.Written.{quad, section_head};
ghost use Rattle.rohc_capture.specs.Annotated.{padded, padded_size, option_of, interface_front, interface_back, named_interface, comment_of, comment_size, frame_front, commented_frame};

use crate::writer::{
    Head, LONGEST_PACKET, WriteFault, append, missing, section_head, write_one, write_two,
};
use std::io::Write;

/// The longest value of an option, in octets.
const LONGEST_VALUE: usize = 65_535;

/// How many octets there are with those up to a multiple of four.
fn padded_size(size: u32) -> u32
    requires { size ≤ LONGEST_PACKET }
    ensures { result ≡ padded_size size }
{
    size + missing(size)
}

/// Writes a number.
fn write_quad<W: Write>(writer: &mut W, number: u32) -> Result<(), WriteFault>
    ensures { OnOk result (Appends (W.contents writer.old) (W.contents writer.new) (quad number)) }
{
    let mut head = Head::new();
    append(&mut head, number);
    write_one(writer, head.as_slice())
}

#[tactic(auto, unfolding(crate::specs::Annotated::padded))]
/// Writes octets, and zeros up to a multiple of four.
fn write_padded<W: Write>(writer: &mut W, octets: &[u8]) -> Result<(), WriteFault>
    requires { length octets.now ≤ LONGEST_PACKET }
    ensures { OnOk result (Appends (W.contents writer.old) (W.contents writer.new) (padded octets.now)) }
{
    let zeros = [0u8; 3];
    let padding = missing(octets.len() as u32);
    write_two(writer, octets, &zeros[..padding as usize])
}

#[tactic(auto, unfolding(crate::specs::Annotated::option_of))]
/// Writes an option of a block.
fn write_option<W: Write>(writer: &mut W, code: u16, value: &[u8]) -> Result<(), WriteFault>
    requires { length value.now ≤ LONGEST_VALUE }
    ensures { OnOk result (Appends (W.contents writer.old) (W.contents writer.new) (option_of code value.now)) }
{
    write_quad(writer, u32::from(code) * 65_536 + value.len() as u32)?;
    write_padded(writer, value)
}

#[tactic(auto, unfolding(crate::specs::Annotated::interface_front))]
/// What stands before the name of an interface.
fn interface_front(link_type: u16, size: u32) -> Head
    requires { size ≤ LONGEST_VALUE }
    ensures { result ≡ interface_front link_type size }
{
    let mut head = Head::new();
    append(&mut head, 1);
    append(&mut head, 36 + padded_size(size));
    append(&mut head, u32::from(link_type) * 65_536);
    append(&mut head, 262_144);
    head
}

#[tactic(auto, unfolding(crate::specs::Annotated::interface_back))]
/// What stands behind the name of an interface.
fn interface_back(size: u32) -> Head
    requires { size ≤ LONGEST_VALUE }
    ensures { result ≡ interface_back size }
{
    let mut head = Head::new();
    append(&mut head, 0x0009_0001);
    append(&mut head, 0x0900_0000);
    append(&mut head, 0);
    append(&mut head, 36 + padded_size(size));
    head
}

/// Writes the head of a section of pcapng, which interfaces follow. The error is `Failed`.
pub fn write_section<W: Write>(writer: &mut W) -> Result<(), WriteFault>
    ensures { OnOk result (Appends (W.contents writer.old) (W.contents writer.new) section_head) }
{
    write_one(writer, section_head().as_slice())
}

/// Writes an interface of pcapng, whose times are in nanoseconds. The first has the number 0. The errors are `TooLong`, for a
/// name above 65,535 octets, and `Failed`.
pub fn write_interface<W: Write>(
    writer: &mut W,
    link_type: u16,
    name: &[u8],
) -> Result<(), WriteFault>
    ensures { OnOk result (Appends (W.contents writer.old) (W.contents writer.new) (named_interface link_type name.now)) }
{
    if name.len() > LONGEST_VALUE {
        return Err(WriteFault::TooLong);
    }
    let size = name.len() as u32;
    write_one(writer, interface_front(link_type, size).as_slice())?;
    write_option(writer, 2, name)?;
    write_one(writer, interface_back(size).as_slice())
}

/// How many octets the options of a frame have.
fn comment_size(comment: Option<&[u8]>) -> u32
    requires { IfSome comment (λ text. length text.now ≤ LONGEST_VALUE) }
    ensures size { result ≡ comment_size (option_map (λ text. text.now) comment.entry) }
    ensures most { result ≤ 65546 }
{
    match comment {
        Some(text) => 8 + padded_size(text.len() as u32),
        None => 0,
    }
}

/// Writes the options of a frame.
fn write_comment<W: Write>(writer: &mut W, comment: Option<&[u8]>) -> Result<(), WriteFault>
    requires { IfSome comment (λ text. length text.now ≤ LONGEST_VALUE) }
    ensures { OnOk result (Appends (W.contents writer.old) (W.contents writer.new)
        (comment_of (option_map (λ text. text.now) comment.entry))) }
{
    let Some(text) = comment else {
        return Ok(());
    };
    write_option(writer, 1, text)?;
    write_quad(writer, 0)
}

#[tactic(auto, unfolding(crate::specs::Annotated::frame_front))]
/// What stands before a frame in its block.
fn frame_front(interface: u32, nanos: u64, size: u32, block: u32) -> Head
    ensures { result ≡ frame_front interface nanos size block }
{
    let mut head = Head::new();
    append(&mut head, 6);
    append(&mut head, block);
    append(&mut head, interface);
    append(&mut head, (nanos / 4_294_967_296) as u32);
    append(&mut head, (nanos % 4_294_967_296) as u32);
    append(&mut head, size);
    append(&mut head, size);
    head
}

/// Whether a comment can be written.
fn is_short(comment: Option<&[u8]>) -> bool
    ensures { result ≡ true → IfSome comment.entry (λ text. length text.now ≤ LONGEST_VALUE) }
{
    match comment {
        Some(text) => text.len() <= LONGEST_VALUE,
        None => true,
    }
}

/// Writes a frame of this interface with its time in nanoseconds since 1970, and with its comment if it has one. The errors
/// are `TooLong`, for a frame above 262,144 octets or a comment above 65,535, and `Failed`.
pub fn write_commented<W: Write>(
    writer: &mut W,
    interface: u32,
    nanos: u64,
    frame: &[u8],
    comment: Option<&[u8]>,
) -> Result<(), WriteFault>
    ensures { OnOk result (Appends (W.contents writer.old) (W.contents writer.new)
        (commented_frame interface nanos frame.now (option_map (λ text. text.now) comment.entry))) }
{
    if frame.len() > LONGEST_PACKET || !is_short(comment) {
        return Err(WriteFault::TooLong);
    }
    let size = frame.len() as u32;
    let block = 32 + padded_size(size) + comment_size(comment);
    write_one(
        writer,
        frame_front(interface, nanos, size, block).as_slice(),
    )?;
    write_padded(writer, frame)?;
    write_comment(writer, comment)?;
    write_quad(writer, block)
}
