//! The reference after an accepted packet, and the previous reference.

ghost use Rattle.std.specs.Prelude.{◌≡◌, false, option_map};
ghost use Rattle.std.specs.Option.{ForSome};
ghost use Rattle.rohc_header.specs.declared.fields.Static.{Static};
ghost use Rattle.rohc_chain.specs.Good.{IsGoodDynamic};
ghost use Rattle.rohc_forms.specs.Packets.{content};
ghost use Rattle.rohc_context.specs.Record.{reference_of, previous_by};
ghost use Rattle.rohc_context.specs.Previous.{fields_by, SharesNumbering};
ghost use Rattle.rohc_context.specs.Saved.{AreRegisters, IsKept};
ghost use Rattle.rohc_context.specs.NextReference.{first_reference, counts_once, next_reference, kept_previous, same_numbering, same_stride};
ghost use Rattle.rohc_context.specs.Read.{acceptance_of, IsSound};

use crate::reference::{Previous, Reference};
use crate::tries::Accepted;
use rohc_forms::{Form, FormKind};
use rohc_header::Dynamic;

/// The reference after an IR or IR-DYN with these fields. Their UDP checksum says whether later packets carry
/// one.
pub(crate) fn first_reference(moving: &Dynamic, saved: (u8, u8)) -> Reference
    ensures reference { reference_of result ≡ first_reference moving.now }
    ensures kept { (fixed : Static) → IsGoodDynamic moving.now → AreRegisters fixed moving.now saved → IsKept fixed result.moving result.saved }
{
    Reference {
        moving: Dynamic {
            marker: false,
            ..*moving
        },
        carries_sum: moving.udp_sum != 0,
        saved,
    }
}

/// Whether the values of the packet's extension 3 count for this packet alone, as those of a UO-1-ID do.
fn is_for_one_packet(form: &Form<'_>) -> bool
    ensures { result ≡ counts_once (content form.now) }
{
    matches!(form.kind, FormKind::Uo1Id) && form.values.is_some()
}

/// The reference after an accepted packet of kind Other.
pub(crate) fn next_reference(form: &Form<'_>, accepted: &Accepted) -> Reference
    ensures reference { reference_of result ≡ next_reference (acceptance_of (content form.now) accepted.now) }
    ensures kept { (fixed : Static) → IsSound fixed accepted.now → IsKept fixed result.moving result.saved }
{
    let kept = &accepted.reference;
    let header = &accepted.header.moving;
    if is_for_one_packet(form) {
        let moving = Dynamic {
            sn: header.sn,
            ts: header.ts,
            id: header.id,
            udp_sum: header.udp_sum,
            ..kept.moving
        };
        return Reference { moving, ..*kept };
    }
    let moving = Dynamic {
        marker: false,
        ..*header
    };
    Reference {
        moving,
        carries_sum: kept.carries_sum,
        saved: accepted.header.saved,
    }
}

/// Whether RND, NBO and stride are equal.
fn is_same_numbering(a: &Dynamic, b: &Dynamic) -> bool
    ensures { result ≡ same_numbering a.now b.now }
{
    a.rnd == b.rnd && a.nbo == b.nbo && is_same_stride(a.stride, b.stride)
}

/// Whether two strides are equal, or both are absent.
fn is_same_stride(a: Option<u32>, b: Option<u32>) -> bool
    ensures { result ≡ same_stride a b }
{
    match (a, b) {
        (None, None) => true,
        (Some(a), Some(b)) => a == b,
        _ => false,
    }
}

/// What is kept of the previous reference after an accepted packet: of the one against which the packet was decoded,
/// if RND, NBO and stride stay as the held reference has them.
pub(crate) fn kept_previous(
    held: &Reference,
    next: &Reference,
    accepted: &Accepted,
) -> Option<Previous>
    requires near { SharesNumbering held.now.moving accepted.now.reference.moving }
    requires sum { next.now.carries_sum ≡ accepted.now.reference.carries_sum }
    requires marker { next.now.moving.marker ≡ accepted.now.reference.moving.marker }
    ensures apart { ForSome result (λ p. p.alike ≡ false) }
    ensures is { ForSome result (λ p. (fields_by next.now.moving p ≡ accepted.now.reference.moving) × (p.saved ≡ accepted.now.reference.saved)) }
    ensures reference { option_map (previous_by next.now) result ≡ kept_previous (reference_of held.now) next.now.moving (reference_of accepted.now.reference) }
{
    if is_same_numbering(&held.moving, &next.moving) {
        Some(Previous::of(&accepted.reference, false))
    } else {
        None
    }
}
