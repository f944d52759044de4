//! Whole packets of kind Other.

ghost use Rattle.std.specs.Prelude.{◌≡◌, ◌<◌, ◌||◌, All, Bool, true, is_some, Some, None, Ok, option_map, IfOk, IfErr};
ghost use Rattle.rohc_forms.specs.Octets.{read};
ghost use Rattle.std.specs.Result.{result_map_both};
ghost use Rattle.rohc_frame.specs.Reading.{header_of};
ghost use Rattle.rohc_frame.specs.Laws.{IsOctet};
ghost use Rattle.rohc_forms.specs.Content.{Content, id_said};
ghost use Rattle.rohc_forms.specs.Packets.{IsOther, id_by, head_by, content, stride_in, head_at, form_at};
ghost use Rattle.rohc_bits.specs.LowBits.{low_bits};
ghost use Rattle.rohc_forms.specs.Says.{IsForm, form_fault};

use crate::form::{Form, IdBits};
use crate::octets::optional_word;
use crate::packet::{head, uo_0};
use crate::parts::Head;
use crate::refusal::FormRefusal;
use rohc_bits::reading::cursor_over;
use rohc_bits::{Bits, Cursor};
use rohc_frame::Forward;

/// What is said of the Identification: the whole one, if it stands in the packet, else bits of its offset,
/// if any.
#[inline(always)]
pub(crate) fn id_bits(whole: Option<u16>, bits: Option<Bits>) -> IdBits
    ensures { id_by result ≡ id_said whole (option_map low_bits bits) }
{
    match (whole, bits) {
        (Some(id), _) => IdBits::Whole(id),
        (None, Some(bits)) => IdBits::Offset(bits),
        (None, None) => IdBits::Same,
    }
}

/// What a context says of its packets: the RND in force, whether they carry the UDP checksum, and whether a stride is in
/// force.
#[derive(Clone, Copy)]
struct Kept {
    rnd: bool,
    udp_sum: bool,
    stride_known: bool,
}

/// Reads what follows a packet's extension, whose end the cursor is at: the Identification and the UDP checksum, if they
/// are there, and the payload.
#[inline(always)]
#[tactic(auto, unfolding(crate::specs::Packets::form_at))]
fn behind_head<'a>(
    forward: &Forward<'a>,
    kept: Kept,
    head: Head,
    mut cursor: Cursor<'a>,
) -> Result<Form<'a>, FormRefusal>
    requires octets { All IsOctet forward.now.rest.now }
    requires head { read (head_at forward.now.first kept.rnd kept.stride_known) forward.now.rest.now ≡ Ok (head_by head, cursor) }
    ensures values { IfOk result (λ form. form.values ≡ head.values) }
    ensures reads { result_map_both content (λ e. e) result ≡ form_at (header_of forward.now) kept.rnd kept.udp_sum kept.stride_known }
{
    let whole = optional_word(head.rnd, &mut cursor)?;
    let udp_sum = optional_word(kept.udp_sum, &mut cursor)?;
    Ok(Form {
        kind: head.kind,
        sn: head.fields.sn,
        ts: head.fields.ts,
        tsc: head.tsc,
        id: id_bits(whole, head.fields.id),
        udp_sum,
        marker: head.marker,
        values: head.values,
        check: head.fields.check,
        payload: cursor.rest(),
    })
}

/// Decodes a packet whose first octet is below 0x80, which is a UO-0, as `read_form` does.
#[inline(always)]
pub fn read_uo_0<'a>(
    forward: &Forward<'a>,
    rnd: bool,
    udp_sum: bool,
    stride_known: bool,
) -> Result<Form<'a>, FormRefusal>
    requires { forward.now.first < 0x80 }
    ensures reads { result_map_both content (λ e. e) result ≡ form_at (header_of forward.now) rnd udp_sum stride_known }
    ensures plain { IfOk result (λ form. form.values ≡ None) }
{
    let kept = Kept {
        rnd,
        udp_sum,
        stride_known,
    };
    let cursor = cursor_over(forward.rest);
    behind_head(forward, kept, uo_0(forward.first, rnd), cursor)
}

/// Reads a packet from left to right.
#[inline(always)]
#[tactic(auto, unfolding(crate::specs::Packets::form_at))]
fn in_order<'a>(
    forward: &Forward<'a>,
    rnd: bool,
    udp_sum: bool,
    stride_known: bool,
) -> Result<Form<'a>, FormRefusal>
    ensures reads { result_map_both content (λ e. e) result ≡ form_at (header_of forward.now) rnd udp_sum stride_known }
    ensures octets { All IsOctet forward.now.rest.now }
{
    let mut cursor = cursor_over(forward.rest);
    let kept = Kept {
        rnd,
        udp_sum,
        stride_known,
    };
    let head = head(forward.first, rnd, stride_known, &mut cursor)?;
    behind_head(forward, kept, head, cursor)
}

/// Decodes a packet of kind Other: what it says of its header's fields (RFC 3095 5.7.1 to 5.7.5).
///
/// `rnd`, `udp_sum` and `stride_known` come from the context: whether the Identification is random,
/// whether packets carry the UDP checksum, and whether a stride is in force. The result has a UDP checksum
/// exactly if `udp_sum`. It has scaled bits only if the context or the packet has a stride. The error is
/// the first fault in the order of the octets.
#[inline(always)]
pub fn read_form<'a>(
    forward: &Forward<'a>,
    rnd: bool,
    udp_sum: bool,
    stride_known: bool,
) -> Result<Form<'a>, FormRefusal>
    requires kind { IsOther forward.now.kind }
    ensures says { IfOk result (λ form. IsForm (header_of forward.now) rnd udp_sum stride_known (content form)) }
    ensures only { (said : Content) → IsForm (header_of forward.now) rnd udp_sum stride_known said → result_map_both content (λ e. e) result ≡ Ok said }
    ensures carried { IfOk result (λ form. is_some form.udp_sum ≡ udp_sum) }
    ensures scaled { IfOk result (λ form. form.tsc ≡ Some true → (stride_known || is_some (stride_in form.values)) ≡ true) }
    ensures fault { IfErr result (λ e. form_fault (header_of forward.now) rnd udp_sum stride_known ≡ Some e) }
    ensures reads { result_map_both content (λ e. e) result ≡ form_at (header_of forward.now) rnd udp_sum stride_known }
{
    in_order(forward, rnd, udp_sum, stride_known)
}
