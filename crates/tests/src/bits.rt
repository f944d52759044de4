//! Cursors, readers and bit strings.

ghost use Rattle.std.specs.Prelude.{◌<◌};

use rohc_bits::reading::{cursor_over, is_set, octet, value, word};
use rohc_bits::{Bits, Cursor, put_behind};
use std::process::Abort;

#[test]
fn bits_stand_behind_one_another(rt: HostRuntime) {
    let bits = Bits::new(0b101, 3).append(0b0011, 4);
    assert_eq!(rt; bits, Bits::new(0b101_0011, 7));
    let full = Bits::new(0xffff_ff12, 32).append(0x34, 8);
    assert_eq!(rt; full, Bits::new(0xffff_1234, 32));
}

#[test]
fn a_text_is_taken_in_order(rt: HostRuntime) {
    let mut cursor = Cursor::new(&[1, 2, 3, 4]);
    assert_eq!(rt; cursor.octet(), Some(1));
    assert_eq!(rt; cursor.take(2), Some([2, 3].as_slice()));
    assert_eq!(rt; cursor.take(2), None);
    assert_eq!(rt; cursor.rest(), [4].as_slice());
}

#[test]
fn parts_in_order(rt: HostRuntime) {
    let mut cursor = cursor_over(&[0x12, 0x34, 0x56, 0x80, 0x05, 0x07, 0xff]);
    assert_eq!(rt; octet(&mut cursor, ()), Ok(0x12));
    assert_eq!(rt; word(&mut cursor, ()), Ok(0x3456));
    assert_eq!(rt; value(&mut cursor, ()), Ok(Bits::new(5, 14)));
    assert_eq!(rt; value(&mut cursor, ()), Ok(Bits::new(7, 7)));
    assert_eq!(rt; value(&mut cursor, "cut off"), Err("cut off"));
    assert_eq!(rt; cursor.rest(), [0xff].as_slice());
}

#[test]
fn what_is_left_is_too_short(rt: HostRuntime) {
    let mut cursor = cursor_over(&[0x12]);
    assert_eq!(rt; word(&mut cursor, 9u8), Err(9));
    assert_eq!(rt; octet(&mut cursor, 9u8), Err(9));
}

#[test]
fn octets_behind_others(rt: HostRuntime) {
    let mut place = [1, 2, 3, 4, 5];
    put_behind(&mut place, 1, &[8, 9]);
    assert_eq!(rt; place, [1, 8, 9, 4, 5]);
}

// Compares whether the bit at a place of a word is set, from the lowest on.
fn compare_bit(rt: &impl Abort, word: u32, place: u8, expected: bool)
    requires { place < 32 }
{
    assert_eq!(rt; is_set(word, place), expected);
}

#[test]
fn bits_by_their_places(rt: HostRuntime) {
    compare_bit(&rt, 0b0100, 2, true);
    compare_bit(&rt, 0b0100, 1, false);
    compare_bit(&rt, 0x8000_0000, 31, true);
}
