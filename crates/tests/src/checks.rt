//! Each check of one octet by the division that defines it, and sums of totals.

use rohc_checks::{crc3, crc7, crc8, sum_of_exchanged, with_carries};

// A polynomial and the places of its check, each as a number. The highest power is the lowest bit.
type Division = (u16, u8);

// x^3 + x + 1.
const THREE: Division = (0b1101, 0x07);

// x^7 + x^6 + x^3 + x^2 + x + 1.
const SEVEN: Division = (0b1111_0011, 0x7f);

// x^8 + x^2 + x + 1.
const EIGHT: Division = (0b1_1100_0001, 0xff);

// Whether each check of an octet from a register is what the division leaves.
fn are_checks(reg: u8, octet: u8) -> bool {
    u16::from(crc3(reg, &[octet])) == by_division(THREE, reg, octet)
        && u16::from(crc7(reg, &[octet])) == by_division(SEVEN, reg, octet)
        && u16::from(crc8(reg, &[octet])) == by_division(EIGHT, reg, octet)
}

// Each octet alone, from each register.
#[test]
fn each_octet(rt: HostRuntime) {
    for octet in 0..=u8::MAX {
        for reg in 0..=u8::MAX {
            assert!(rt; are_checks(reg, octet));
        }
    }
}

// The check as it is defined: the octet is divided place by place. What is left is the check.
fn by_division((polynomial, places): Division, reg: u8, octet: u8) -> u16 {
    let mut left = u16::from(octet) ^ u16::from(reg & places);
    for _ in 0..8u8 {
        if left & 1 == 1 {
            left ^= polynomial;
        }
        left >>= 1;
    }
    left
}

// The words of the example of RFC 1071 3 have the sum 2ddf0, and 1f2dc with their octets exchanged. Of the others, carries
// come round once and twice: ffff0002 is ffff + 0002 = 10001, and 1 + 1 = 2.
#[test]
fn sums_of_exchanged_words(rt: HostRuntime) {
    assert_eq!(rt; sum_of_exchanged(0x0001_f2dc), 0x220d);
    assert_eq!(rt; sum_of_exchanged(0xffff), 0x0000);
    assert_eq!(rt; sum_of_exchanged(0x0001_0000), 0xfeff);
    assert_eq!(rt; sum_of_exchanged(0x0001_fffe), 0x0000);
    assert_eq!(rt; sum_of_exchanged(0xffff_0002), 0xfdff);
    assert_eq!(rt; with_carries(0x0002_ddf0), 0xddf2);
    assert_eq!(rt; with_carries(0x0001_f2dc), 0xf2dd);
}
