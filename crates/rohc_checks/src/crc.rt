//! The ROHC checks (CRCs), by polynomial division: one table look-up for each octet (RFC 3095 5.9).
//! The least significant bit of an octet, and of a register, stands for the highest power. A check
//! is the register that is left after the octets; nothing is inverted at the end.

ghost use Rattle.std.specs.Prelude.{◌≡◌, ◌^◌, ◌<◌, ◌≤◌, List, Bool};
ghost use Rattle.rohc_checks.specs.Division.{check, degree, poly3, poly7, poly8, table_of};

use crate::tables::{CRC3, CRC7, CRC8};

/// The 3-bit check of `octets`, by the polynomial 1 + x + x^3, starting from the low 3 bits of the
/// register `reg` (RFC 3095 5.9.2).
pub fn crc3(reg: u8, octets: &[u8]) -> u8
    ensures { result ≡ check poly3 reg octets.now }
{
    register_after(&CRC3, reg & 0x07, octets)
}

/// The 7-bit check of `octets`, by the polynomial 1 + x + x^2 + x^3 + x^6 + x^7, starting from the
/// low 7 bits of the register `reg` (RFC 3095 5.9.2).
pub fn crc7(reg: u8, octets: &[u8]) -> u8
    ensures { result ≡ check poly7 reg octets.now }
{
    register_after(&CRC7, reg & 0x7f, octets)
}

/// The 8-bit check of `octets`, by the polynomial 1 + x + x^2 + x^8, starting from the register
/// `reg` (RFC 3095 5.9.1).
pub fn crc8(reg: u8, octets: &[u8]) -> u8
    ensures { result ≡ check poly8 reg octets.now }
{
    register_after(&CRC8, reg, octets)
}

// The register after the octets, by the table of any polynomial of degree 8 or less.
fn register_after(table: &[u8; 256], reg: u8, octets: &[u8]) -> u8
    ensures { (poly : List Bool) → degree poly ≤ 8 → table.now ≡ table_of poly → reg < 2 ^ degree poly
        → result ≡ check poly reg octets.now }
{
    let mut register = reg;
    for octet in octets {
        register = table[usize::from(register ^ octet)];
    }
    register
}
