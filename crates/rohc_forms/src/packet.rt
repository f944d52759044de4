//! Packets up to and including their extension (RFC 3095 5.7.1 to 5.7.5).

ghost use Rattle.std.specs.Prelude.{◌≡◌, ◌<◌, ℕ, List, Bool, None, Ok};
ghost use Rattle.rohc_bits.specs.Reading.{ReadsAs};
ghost use Rattle.rohc_forms.specs.Octets.{read};
ghost use Rattle.rohc_forms.specs.Table.{under, layout_0, base_said};
ghost use Rattle.rohc_forms.specs.Content.{form_kind, plain_head};
ghost use Rattle.rohc_forms.specs.Packets.{said_by, head_by, short_extension_at, extension_3_at, extension_at, head_at};

use crate::base::{base, base_fields, kind, uo_0_fields};
use crate::extension::{behind_ip, ip_octet, rnd_of};
use crate::flag;
use crate::form::FormKind;
use crate::octets::{bits, octet};
use crate::parts::{Base, Fields, Head};
use crate::refusal::FormRefusal;
use rohc_bits::reading::is_set;
use rohc_bits::{Bits, Cursor};

/// These fields with those of an extension 0, whose one octet is `first`, appended.
#[inline(always)]
fn extension_0(kind: FormKind, first: u8, fields: Fields) -> Fields
    ensures { said_by result ≡ under (layout_0 kind) first (said_by fields) }
{
    let number = u32::from(first);
    fields
        .and_sn(bits(number, 3, 3))
        .and_plus(kind, bits(number, 0, 3))
}

/// These fields with those of an extension 0, 1 or 2 appended: bits of SN and of +T in its first octet,
/// eight more bits of +T in an extension 2, and eight bits of -T in extensions 1 and 2.
#[tactic(auto, unfolding(crate::specs::Packets::short_extension_at))]
#[inline(always)]
pub(crate) fn short_extension(
    kind: FormKind,
    first: u8,
    fields: Fields,
    cursor: &mut Cursor<'_>,
) -> Result<Fields, FormRefusal>
    ensures { ReadsAs said_by result cursor.new (read (short_extension_at kind first (said_by fields)) cursor.old) }
{
    let fields = extension_0(kind, first, fields);
    if first < 0x40 {
        return Ok(fields);
    }
    let second = octet(cursor)?;
    if first < 0x80 {
        return Ok(fields.and_minus(kind, eight_bits(second)));
    }
    let third = octet(cursor)?;
    Ok(
        fields
            .and_plus(kind, eight_bits(second))
            .and_minus(kind, eight_bits(third)),
    )
}

/// An octet as eight bits.
fn eight_bits(octet: u8) -> Bits
    ensures value { result.value ≡ octet }
    ensures count { result.count ≡ 8 }
{
    Bits::new(u32::from(octet), 8)
}

/// Reads an extension 3 after its first octet. The RND in force then decides the format of the packet.
#[cold]
#[inline(never)]
#[tactic(auto, unfolding(crate::specs::Packets::extension_3_at))]
fn extension_3(
    base: Base,
    kept_rnd: bool,
    stride_known: bool,
    first: u8,
    cursor: &mut Cursor<'_>,
) -> Result<Head, FormRefusal>
    ensures { ReadsAs head_by result cursor.new (read (extension_3_at base kept_rnd stride_known first) cursor.old) }
{
    let flags = u32::from(first);
    let ip = ip_octet(is_set(flags, flag::IP), kind(base, kept_rnd), cursor)?;
    let in_force = rnd_of(kept_rnd, ip);
    if is_set(flags, flag::I) && in_force {
        return Err(FormRefusal::IpIdTwice);
    }
    let kind = kind(base, in_force);
    let fields = base_fields(kind, base.number);
    let extended = behind_ip(flags, stride_known, ip, fields, cursor)?;
    Ok(Head {
        kind,
        rnd: in_force,
        fields: extended.fields,
        tsc: Some(is_set(flags, flag::TSC)),
        marker: extended.marker,
        values: Some(extended.values),
    })
}

/// The content so far of a packet without an extension 3.
#[inline(always)]
fn plain(kind: FormKind, rnd: bool, fields: Fields) -> Head
    ensures content { head_by result ≡ plain_head kind rnd (said_by fields) }
    ensures values { result.values ≡ None }
{
    Head {
        kind,
        rnd,
        fields,
        tsc: None,
        marker: fields.marker,
        values: None,
    }
}

/// Reads an extension after its first octet. `fields` are those of the base octets by the context's RND.
#[tactic(auto, unfolding(crate::specs::Packets::extension_at))]
#[inline(always)]
fn extension(
    base: Base,
    rnd: bool,
    stride_known: bool,
    first: u8,
    fields: Fields,
    cursor: &mut Cursor<'_>,
) -> Result<Head, FormRefusal>
    requires { said_by fields ≡ base_said (form_kind base rnd) base.number }
    ensures { ReadsAs head_by result cursor.new (read (extension_at base rnd stride_known first) cursor.old) }
{
    if first >= 0xc0 {
        return extension_3(base, rnd, stride_known, first, cursor);
    }
    let kind = kind(base, rnd);
    let fields = short_extension(kind, first, fields, cursor)?;
    Ok(plain(kind, rnd, fields))
}

/// What a UO-0 says, which is its one octet before its payload.
#[inline(always)]
#[tactic(auto, unfolding(crate::specs::Packets::head_at, crate::specs::Packets::base_at))]
pub(crate) fn uo_0(first: u8, rnd: bool) -> Head
    requires { first < 0x80 }
    ensures reads { (stride_known : Bool) (rest : List ℕ) → read (head_at first rnd stride_known) rest ≡ Ok (head_by result, rest) }
    ensures values { result.values ≡ None }
{
    plain(FormKind::Uo0, rnd, uo_0_fields(u32::from(first)))
}

/// Reads a packet up to the end of its extension.
#[inline(always)]
#[tactic(auto, unfolding(crate::specs::Packets::head_at))]
pub(crate) fn head(
    first: u8,
    rnd: bool,
    stride_known: bool,
    cursor: &mut Cursor<'_>,
) -> Result<Head, FormRefusal>
    ensures { ReadsAs head_by result cursor.new (read (head_at first rnd stride_known) cursor.old) }
{
    let base = base(first, cursor)?;
    let kind = kind(base, rnd);
    let fields = base_fields(kind, base.number);
    if !fields.extended {
        return Ok(plain(kind, rnd, fields));
    }
    let first = octet(cursor)?;
    extension(base, rnd, stride_known, first, fields, cursor)
}
