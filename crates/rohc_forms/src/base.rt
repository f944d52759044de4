//! The base octets of a packet, which precede its extension, and their formats (RFC 3095 5.7.1 to
//! 5.7.4).

ghost use Rattle.std.specs.Prelude.{◌≡◌, ◌≢◌, option_map};
ghost use Rattle.rohc_bits.specs.Reading.{Reads};
ghost use Rattle.rohc_bits.specs.LowBits.{low_bits};
ghost use Rattle.rohc_forms.specs.Slices.{slice};
ghost use Rattle.rohc_forms.specs.Octets.{read};
ghost use Rattle.rohc_forms.specs.Table.{base_said, uor2_said};
ghost use Rattle.rohc_forms.specs.Content.{form_kind};
ghost use Rattle.rohc_forms.specs.Packets.{said_by, base_at};

use crate::form::FormKind;
use crate::octets::{bits, octet, word};
use crate::parts::{Base, Fields};
use crate::place;
use crate::refusal::FormRefusal;
use rohc_bits::reading::is_set;
use rohc_bits::{Bits, Cursor};

/// Reads the base octets after the first one, which decides how many they are in all: one, two or
/// three.
#[inline(always)]
#[tactic(auto, unfolding(crate::specs::Packets::base_at))]
pub(crate) fn base(first: u8, cursor: &mut Cursor<'_>) -> Result<Base, FormRefusal>
    ensures { Reads result cursor.new (read (base_at first) cursor.old) }
{
    let number = if first < 0x80 {
        u32::from(first)
    } else if first < 0xc0 {
        u32::from(first) * 256 + u32::from(octet(cursor)?)
    } else {
        u32::from(first) * 65_536 + u32::from(word(cursor)?)
    };
    Ok(Base { first, number })
}

/// The format of a packet, by its base octets and the RND in force.
#[inline(always)]
pub(crate) fn kind(base: Base, rnd: bool) -> FormKind
    ensures { result ≡ form_kind base rnd }
{
    if base.first < 0x80 {
        return FormKind::Uo0;
    }
    if base.first < 0xc0 {
        return match (rnd, is_set(u32::from(base.first), place::UO1_T)) {
            (true, _) => FormKind::Uo1,
            (false, true) => FormKind::Uo1Ts,
            (false, false) => FormKind::Uo1Id,
        };
    }
    match (rnd, is_set(base.number, place::UOR2_T)) {
        (true, _) => FormKind::Uor2,
        (false, true) => FormKind::Uor2Ts,
        (false, false) => FormKind::Uor2Id,
    }
}

impl FormKind {
    ghost use Rattle.std.specs.Prelude.{◌≡◌, ◌<◌, ℕ};
    ghost use Rattle.rohc_forms.specs.Content.{form_kind, three_octets};

    /// The format of a packet with this first octet and this one behind its CID, under this RND in force. A packet that
    /// ends before its header does has one too. UO-0 and the UO-1 formats don't depend on the second octet.
    pub fn of(first: u8, second: u8, rnd: bool) -> FormKind
        ensures { (third : ℕ) → third < 256 → result ≡ form_kind (three_octets first second third) rnd }
    {
        let number = u32::from(first) * 65_536 + u32::from(second) * 256;
        kind(Base { first, number }, rnd)
    }
}

/// The 3-bit check: the three least significant bits of the base octets.
#[inline(always)]
fn check_3(number: u32) -> u8
    ensures { result ≡ (slice number 0 3).value }
{
    (number % 8) as u8
}

/// The 7-bit check: the seven least significant bits of the base octets.
#[inline(always)]
fn check_7(number: u32) -> u8
    ensures { result ≡ (slice number 0 7).value }
{
    (number % 128) as u8
}

/// The fields of a UO-0, whose one octet is this number.
#[inline(always)]
pub(crate) fn uo_0_fields(number: u32) -> Fields
    ensures { said_by result ≡ base_said FormKind.Uo0 number }
{
    Fields {
        sn: bits(number, place::UO_SN, 4),
        ts: None,
        id: None,
        marker: false,
        extended: false,
        check: check_3(number),
    }
}

/// The fields in the base octets, which are given as one number, under this format.
#[inline(always)]
pub(crate) fn base_fields(kind: FormKind, number: u32) -> Fields
    ensures { said_by result ≡ base_said kind number }
{
    match kind {
        FormKind::Uo0 => uo_0_fields(number),
        FormKind::Uo1 => Fields {
            sn: bits(number, place::UO_SN, 4),
            ts: Some(bits(number, place::UO1_TS, 6)),
            id: None,
            marker: is_set(number, place::UO1_M),
            extended: false,
            check: check_3(number),
        },
        FormKind::Uo1Id => Fields {
            sn: bits(number, place::UO_SN, 4),
            ts: None,
            id: Some(bits(number, place::UO1_ID, 5)),
            marker: false,
            extended: is_set(number, place::UO1_X),
            check: check_3(number),
        },
        FormKind::Uo1Ts => Fields {
            sn: bits(number, place::UO_SN, 4),
            ts: Some(bits(number, place::UO1_TS, 5)),
            id: None,
            marker: is_set(number, place::UO1_M),
            extended: false,
            check: check_3(number),
        },
        FormKind::Uor2 => uor2_fields(number, Some(bits(number, place::UOR2_TS, 6)), None),
        FormKind::Uor2Id => uor2_fields(number, None, Some(bits(number, place::UOR2_BEFORE_T, 5))),
        FormKind::Uor2Ts => uor2_fields(number, Some(bits(number, place::UOR2_BEFORE_T, 5)), None),
    }
}

/// The fields of any UOR-2, with these bits of the timestamp or of the Identification's offset.
#[inline(always)]
fn uor2_fields(number: u32, ts: Option<Bits>, id: Option<Bits>) -> Fields
    ensures { said_by result ≡ uor2_said number (option_map low_bits ts) (option_map low_bits id) }
{
    Fields {
        sn: bits(number, place::UOR2_SN, 6),
        ts,
        id,
        marker: is_set(number, place::UOR2_M),
        extended: is_set(number, place::UOR2_X),
        check: check_7(number),
    }
}
