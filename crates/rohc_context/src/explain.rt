//! Decompression of a packet of kind Other: the header that it means against a reference (RFC 3095 4.5, 5.7).

ghost use Rattle.std.specs.Prelude.{◌≡◌, ◌≤◌, length, option_map, IfSome};
ghost use Rattle.std.specs.Option.{ForSome};
ghost use Rattle.rohc_header.specs.Original.{longest_payload};
ghost use Rattle.rohc_bits.specs.LowBits.{low_bits};
ghost use Rattle.rohc_forms.specs.Kinds.{offset_in};
ghost use Rattle.rohc_forms.specs.Packets.{content, id_by, values_by};
ghost use Rattle.rohc_chain.specs.Good.{IsGoodStride, IsGoodStatic, IsGoodDynamic};
ghost use Rattle.rohc_context.specs.InForce.{in_force, given_stride};
ghost use Rattle.rohc_context.specs.Record.{reference_of};
ghost use Rattle.rohc_context.specs.Explains.{AgreesByBits, scale, AgreesInTs, AgreesInId, Means, Explains};
ghost use Rattle.rohc_context.specs.Saved.{AreRegisters, IsKept};
ghost use Rattle.rohc_context.specs.Read.{explained_of};

use crate::reference::Reference;
use rohc_bits::Bits;
use rohc_forms::{Form, IdBits, Values};
use rohc_header::{Dynamic, Header, Static};
use rohc_lsb::{inferred_ts, ip_id, scaled, sn_value, unscaled};

/// A header that a packet means against a reference.
#[derive(Clone, Copy)]
pub(crate) struct Explained {
    /// Its fields, with the RND, NBO and stride in force.
    pub moving: Dynamic,
    /// Its 40 octets.
    pub header: Header,
    /// The registers of the 3-bit and the 7-bit check after its static octets.
    pub saved: (u8, u8),
}

/// The stride in force: the one that is given, else the one that is kept, if any.
#[inline(always)]
fn stride_of(given: Option<u32>, kept: Option<u32>) -> Option<u32>
    ensures { result ≡ given_stride given kept }
{
    match given {
        Some(stride) => Some(stride),
        None => kept,
    }
}

/// The fields in force: those that an extension 3 gives, and the reference's for all others (RFC 3095 5.7.5).
#[inline(always)]
fn fields_in_force(kept: &Dynamic, values: Option<Values>) -> Dynamic
    requires { IsGoodDynamic kept.now }
    ensures fields { result ≡ in_force kept.now (option_map values_by values) }
    ensures good { IsGoodDynamic result }
{
    let Some(values) = values else {
        return *kept;
    };
    Dynamic {
        tos: values.tos.unwrap_or(kept.tos),
        ttl: values.ttl.unwrap_or(kept.ttl),
        df: values.df.unwrap_or(kept.df),
        rnd: values.rnd.unwrap_or(kept.rnd),
        nbo: values.nbo.unwrap_or(kept.nbo),
        padding: values.padding.unwrap_or(kept.padding),
        extension: values.extension.unwrap_or(kept.extension),
        payload_type: values.payload_type.unwrap_or(kept.payload_type),
        stride: stride_of(values.stride, kept.stride),
        ..*kept
    }
}

/// The timestamp that the bits mean. Without bits it follows from the steps of the sequence number (RFC 3095
/// 4.5.3).
#[inline(always)]
fn timestamp(
    reference: u32,
    stride: Option<u32>,
    steps: i32,
    tsc: Option<bool>,
    bits: Option<Bits>,
) -> u32
    requires stride { IsGoodStride stride }
    requires bits { ForSome bits (λ b. 2 ≤ b.count) }
    ensures { AgreesInTs reference stride steps tsc (option_map low_bits bits) result }
{
    let Some(bits) = bits else {
        return inferred_ts(reference, stride, steps);
    };
    timestamp_by_bits(reference, stride, tsc, bits)
}

/// The timestamp that these bits mean, scaled or not (RFC 3095 4.5.3). It isn't inlined, since nearly no packet has any.
#[inline(never)]
fn timestamp_by_bits(reference: u32, stride: Option<u32>, tsc: Option<bool>, bits: Bits) -> u32
    requires stride { IsGoodStride stride }
    requires bits { 2 ≤ bits.count }
    ensures { AgreesByBits reference (scale tsc stride) (low_bits bits) result }
{
    match (tsc, stride) {
        (None | Some(true), Some(stride)) => scaled(reference, stride, bits),
        _ => unscaled(reference, bits),
    }
}

/// The Identification that the packet carries, or that its bits mean against the reference (RFC 3095 4.5.5).
#[inline(always)]
fn identification(reference: &Dynamic, nbo: bool, said: IdBits, sn: u16) -> u16
    requires some { ForSome (offset_in said) (λ bits. 1 ≤ bits.count) }
    requires narrow { ForSome (offset_in said) (λ bits. bits.count ≤ 16) }
    ensures { AgreesInId nbo reference.now (id_by said) sn result }
{
    match said {
        IdBits::Whole(id) => id,
        IdBits::Same => ip_id(sn, reference.sn, reference.id, nbo, None),
        IdBits::Offset(bits) => ip_id(sn, reference.sn, reference.id, nbo, Some(bits)),
    }
}

/// The fields that the packet means against the reference, whose sequence number is moved on by `shift`.
#[inline(always)]
pub(crate) fn meant(reference: &Reference, shift: u32, form: &Form<'_>) -> Dynamic
    requires shift { shift ≤ 65536 }
    requires good { IsGoodDynamic reference.now.moving }
    ensures means { Means (reference_of reference.now) shift (content form.now) result }
    ensures good { IsGoodDynamic result }
{
    let kept = &reference.moving;
    let values = fields_in_force(kept, form.values);
    let (sn, steps) = sn_value(kept.sn, shift, form.sn);
    Dynamic {
        sn,
        ts: timestamp(kept.ts, values.stride, steps, form.tsc, form.ts),
        id: identification(kept, values.nbo, form.id, sn),
        udp_sum: form.udp_sum.unwrap_or(0),
        marker: form.marker,
        ..values
    }
}

/// Decodes a packet: the header that it means against the reference, whose sequence number is moved on by
/// `shift`.
///
/// The payload is at most 65,495 octets, so the rebuilt packet isn't too long. Without the values of an
/// extension 3 the registers are those of the reference.
pub(crate) fn explain(
    fixed: &Static,
    reference: &Reference,
    shift: u32,
    form: &Form<'_>,
) -> Explained
    requires fits { length form.now.payload.now ≤ longest_payload }
    requires shift { shift ≤ 65536 }
    requires good { IsGoodStatic fixed.now }
    requires kept { IsKept fixed.now reference.now.moving reference.now.saved }
    ensures explains { Explains fixed.now (reference_of reference.now) shift (content form.now) (explained_of result) }
    ensures good { IsGoodDynamic result.moving }
    ensures registers { AreRegisters fixed.now result.moving result.saved }
{
    let moving = meant(reference, shift, form);
    let header = Header::build(fixed, &moving, form.payload.len()).unwrap();
    let saved = match form.values {
        None => reference.saved,
        Some(_) => header.registers(),
    };
    Explained {
        moving,
        header,
        saved,
    }
}
