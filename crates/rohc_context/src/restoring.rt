//! A context from its octets (docs/FORMATS.md).

ghost use Rattle.std.specs.Prelude.{◌≡◌, ◌↔◌, ◌<◌, ◌≤◌, ◌^◌, false, IsTrue, All, Ok, Err, IsOk, IfOk, MatchResult, option_map};
ghost use Rattle.std.specs.Option.{ForSome};
ghost use Rattle.rohc_checks.specs.Division.{bits};
ghost use Rattle.rohc_bits.specs.Bits.{IsOctet};
ghost use Rattle.rohc_bits.specs.Reading.{Reads, ReadsAs};
ghost use Rattle.rohc_chain.specs.Good.{IsGoodStatic, IsGoodDynamic, IsGoodStride};
ghost use Rattle.rohc_context.specs.Window.{outcomes};
ghost use Rattle.rohc_context.specs.Record.{reference_of, previous_by as previous_of_kept, state_of, record_of};
ghost use Rattle.rohc_context.specs.Previous.{fields_by, SharesNumbering};
ghost use Rattle.rohc_context.specs.Saved.{AreRegisters, IsKept};
ghost use Rattle.rohc_context.specs.SavedReading.{octet_at, word_at, quad_at, long_at, flag_at, window_at, address_at, static_at, HasNumbers, numbers_at, payload_type_at, marks_at, fields_at, stride_by, stride_at, shared_at, reference_at, held_by, held_at, previous_by, previous_at, no_context_at, static_context_at, full_context_at, state_by, state_at, saved_at, restored};

use crate::context_fault::ContextFault;
use crate::record::Context;
use crate::reference::{Previous, Reference};
use crate::state::{FullContext, NoContext, State, StaticContext};
use crate::window::Window;
use rohc_bits::{Cursor, reading};
use rohc_header::{Dynamic, Header, Prepared, Static};

/// Reads a number of 8 bits.
fn octet(cursor: &mut Cursor<'_>) -> Result<u8, ContextFault>
    ensures reads { Reads result cursor.new (octet_at cursor.old) }
{
    reading::octet(cursor, ContextFault::Short)
}

/// Reads a number of 16 bits.
fn word(cursor: &mut Cursor<'_>) -> Result<u16, ContextFault>
    ensures reads { Reads result cursor.new (word_at cursor.old) }
{
    reading::word(cursor, ContextFault::Short)
}

/// Reads a number of 32 bits.
#[tactic(auto, unfolding(crate::specs::SavedReading::quad_at))]
fn quad(cursor: &mut Cursor<'_>) -> Result<u32, ContextFault>
    ensures reads { Reads result cursor.new (quad_at cursor.old) }
{
    let high = word(cursor)?;
    let low = word(cursor)?;
    Ok((u32::from(high) << 16) | u32::from(low))
}

/// Reads a number of 64 bits.
#[tactic(auto, unfolding(crate::specs::SavedReading::long_at))]
fn long(cursor: &mut Cursor<'_>) -> Result<u64, ContextFault>
    ensures reads { Reads result cursor.new (long_at cursor.old) }
{
    let high = quad(cursor)?;
    let low = quad(cursor)?;
    Ok((u64::from(high) << 32) | u64::from(low))
}

/// Reads a flag.
#[tactic(auto, unfolding(crate::specs::SavedReading::flag_at))]
fn flag(cursor: &mut Cursor<'_>) -> Result<bool, ContextFault>
    ensures reads { Reads result cursor.new (flag_at cursor.old) }
{
    let left = cursor.rest().len();
    let octet = octet(cursor)?;
    if octet >= 2 {
        return Err(ContextFault::Bad { left });
    }
    Ok(octet == 1)
}

/// Whether a number has at most so many bits.
fn has_bits(value: u64, count: u8) -> bool
    requires { count ≤ 64 }
    ensures { IsTrue result ↔ (value < 2 ^ count) }
{
    count == 64 || value < 1 << count
}

/// The window with these outcomes.
#[tactic(auto, unfolding(crate::specs::Window::outcomes))]
fn window_of(value: u64, count: u8) -> Window
    requires few { count ≤ 64 }
    requires fits { value < 2 ^ count }
    ensures { outcomes result ≡ bits count value }
{
    Window {
        word: value,
        length: count,
    }
}

/// Reads a window.
#[tactic(auto, unfolding(crate::specs::SavedReading::window_at))]
fn window(cursor: &mut Cursor<'_>) -> Result<Window, ContextFault>
    ensures reads { ReadsAs outcomes result cursor.new (window_at cursor.old) }
{
    let left = cursor.rest().len();
    let count = octet(cursor)?;
    if count > 64 {
        return Err(ContextFault::Bad { left });
    }
    let left = cursor.rest().len();
    let value = long(cursor)?;
    if !has_bits(value, count) {
        return Err(ContextFault::Bad { left });
    }
    Ok(window_of(value, count))
}

/// Reads an address.
#[tactic(auto, unfolding(crate::specs::SavedReading::address_at))]
fn address(cursor: &mut Cursor<'_>) -> Result<[u8; 4], ContextFault>
    ensures reads { Reads result cursor.new (address_at cursor.old) }
{
    let a = octet(cursor)?;
    let b = octet(cursor)?;
    let c = octet(cursor)?;
    let d = octet(cursor)?;
    Ok([a, b, c, d])
}

/// Reads the static part.
#[tactic(auto, unfolding(crate::specs::SavedReading::static_at))]
fn fixed(cursor: &mut Cursor<'_>) -> Result<Static, ContextFault>
    ensures reads { Reads result cursor.new (static_at cursor.old) }
    ensures good { IfOk result IsGoodStatic }
{
    let source = address(cursor)?;
    let destination = address(cursor)?;
    let source_port = word(cursor)?;
    let destination_port = word(cursor)?;
    let ssrc = quad(cursor)?;
    Ok(Static {
        source,
        destination,
        source_port,
        destination_port,
        ssrc,
    })
}

/// Reads the numbers in which a reference and the previous one may differ, beside other fields.
#[tactic(auto, unfolding(crate::specs::SavedReading::numbers_at))]
fn numbers(cursor: &mut Cursor<'_>, beside: &Dynamic) -> Result<Dynamic, ContextFault>
    ensures reads { Reads result cursor.new (numbers_at beside.now cursor.old) }
    ensures fits { IfOk result HasNumbers }
    ensures shares { IfOk result (SharesNumbering beside.now) }
    ensures marker { IfOk result (λ m. m.marker ≡ beside.now.marker) }
{
    let tos = octet(cursor)?;
    let ttl = octet(cursor)?;
    let id = word(cursor)?;
    let udp_sum = word(cursor)?;
    let sn = word(cursor)?;
    let ts = quad(cursor)?;
    Ok(Dynamic {
        tos,
        ttl,
        id,
        udp_sum,
        sn,
        ts,
        ..*beside
    })
}

/// Reads a payload type.
#[tactic(auto, unfolding(crate::specs::SavedReading::payload_type_at))]
fn payload_type(cursor: &mut Cursor<'_>) -> Result<u8, ContextFault>
    ensures reads { Reads result cursor.new (payload_type_at cursor.old) }
    ensures narrow { IfOk result (λ n. n < 128) }
{
    let left = cursor.rest().len();
    let payload_type = octet(cursor)?;
    if payload_type >= 128 {
        return Err(ContextFault::Bad { left });
    }
    Ok(payload_type)
}

/// Reads the payload type and the flags in which they may differ.
#[tactic(auto, unfolding(crate::specs::SavedReading::marks_at))]
fn marks(cursor: &mut Cursor<'_>, beside: &Dynamic) -> Result<Dynamic, ContextFault>
    requires fits { HasNumbers beside.now }
    ensures reads { Reads result cursor.new (marks_at beside.now cursor.old) }
    ensures fits { IfOk result HasNumbers }
    ensures shares { IfOk result (SharesNumbering beside.now) }
    ensures marker { IfOk result (λ m. m.marker ≡ beside.now.marker) }
    ensures narrow { IfOk result (λ m. m.payload_type < 128) }
{
    let payload_type = payload_type(cursor)?;
    let df = flag(cursor)?;
    let padding = flag(cursor)?;
    let extension = flag(cursor)?;
    Ok(Dynamic {
        payload_type,
        df,
        padding,
        extension,
        ..*beside
    })
}

/// Reads all fields in which a reference and the previous one may differ.
#[tactic(auto, unfolding(crate::specs::SavedReading::fields_at))]
fn fields(cursor: &mut Cursor<'_>, beside: &Dynamic) -> Result<Dynamic, ContextFault>
    ensures reads { Reads result cursor.new (fields_at beside.now cursor.old) }
    ensures fits { IfOk result HasNumbers }
    ensures shares { IfOk result (SharesNumbering beside.now) }
    ensures marker { IfOk result (λ m. m.marker ≡ beside.now.marker) }
    ensures narrow { IfOk result (λ m. m.payload_type < 128) }
{
    let numbers = numbers(cursor, beside)?;
    marks(cursor, &numbers)
}

/// Reads whether there is a stride, and the stride.
#[tactic(auto, unfolding(crate::specs::SavedReading::stride_at))]
fn stride(cursor: &mut Cursor<'_>) -> Result<Option<u32>, ContextFault>
    ensures reads { Reads result cursor.new (stride_at cursor.old) }
    ensures good { IfOk result IsGoodStride }
{
    let has = flag(cursor)?;
    let left = cursor.rest().len();
    let value = quad(cursor)?;
    if has {
        if !(1..=536_870_911).contains(&value) {
            return Err(ContextFault::Bad { left });
        }
        Ok(Some(value))
    } else {
        if value != 0 {
            return Err(ContextFault::Bad { left });
        }
        Ok(None)
    }
}

/// Fields in these ranges are good.
fn note_good(moving: &Dynamic)
    requires fits { HasNumbers moving.now }
    requires narrow { moving.now.payload_type < 128 }
    requires stride { IsGoodStride moving.now.stride }
    ensures { IsGoodDynamic moving.now }
{}

/// The registers after the static octets of headers with these fields.
fn registers(fixed: &Static, moving: &Dynamic) -> (u8, u8)
    requires good { IsGoodStatic fixed.now }
    requires narrow { moving.now.payload_type < 128 }
    ensures { AreRegisters fixed.now moving.now result }
{
    let header = Header::build(fixed, moving, 0).unwrap();
    header.registers()
}

/// No fields.
const BLANK: Dynamic = Dynamic {
    tos: 0,
    ttl: 0,
    id: 0,
    udp_sum: 0,
    sn: 0,
    ts: 0,
    payload_type: 0,
    df: false,
    padding: false,
    extension: false,
    marker: false,
    rnd: false,
    nbo: false,
    stride: None,
};

/// Reads what a previous reference shares with the reference, beside the reference's other fields.
#[tactic(auto, unfolding(crate::specs::SavedReading::shared_at))]
fn shared(
    cursor: &mut Cursor<'_>,
    fixed: &Static,
    fields: &Dynamic,
) -> Result<Reference, ContextFault>
    requires good { IsGoodStatic fixed.now }
    requires fits { HasNumbers fields.now }
    requires narrow { fields.now.payload_type < 128 }
    requires unmarked { fields.now.marker ≡ false }
    ensures reads { ReadsAs reference_of result cursor.new (shared_at fields.now cursor.old) }
    ensures kept { IfOk result (λ r. IsKept fixed.now r.moving r.saved) }
{
    let rnd = flag(cursor)?;
    let nbo = flag(cursor)?;
    let carries_sum = flag(cursor)?;
    let stride = stride(cursor)?;
    let moving = Dynamic {
        rnd,
        nbo,
        stride,
        ..*fields
    };
    note_good(&moving);
    let saved = registers(fixed, &moving);
    Ok(Reference {
        moving,
        carries_sum,
        saved,
    })
}

/// Reads a reference, and computes its registers.
#[tactic(auto, unfolding(crate::specs::SavedReading::reference_at))]
fn reference(cursor: &mut Cursor<'_>, fixed: &Static) -> Result<Reference, ContextFault>
    requires good { IsGoodStatic fixed.now }
    ensures reads { ReadsAs reference_of result cursor.new (reference_at cursor.old) }
    ensures kept { IfOk result (λ r. IsKept fixed.now r.moving r.saved) }
{
    let fields = fields(cursor, &BLANK)?;
    shared(cursor, fixed, &fields)
}

/// Reads a reference, if there is one.
#[tactic(auto, unfolding(crate::specs::SavedReading::held_by))]
fn held_if(
    has: bool,
    cursor: &mut Cursor<'_>,
    fixed: &Static,
) -> Result<Option<Reference>, ContextFault>
    requires good { IsGoodStatic fixed.now }
    ensures reads { ReadsAs (option_map reference_of) result cursor.new (held_by has cursor.old) }
    ensures kept { IfOk result (λ r. ForSome r (λ r. IsKept fixed.now r.moving r.saved)) }
{
    if has {
        Ok(Some(reference(cursor, fixed)?))
    } else {
        Ok(None)
    }
}

/// Reads whether there is a reference, and the reference.
#[tactic(auto, unfolding(crate::specs::SavedReading::held_at))]
fn held(cursor: &mut Cursor<'_>, fixed: &Static) -> Result<Option<Reference>, ContextFault>
    requires good { IsGoodStatic fixed.now }
    ensures reads { ReadsAs (option_map reference_of) result cursor.new (held_at cursor.old) }
    ensures kept { IfOk result (λ r. ForSome r (λ r. IsKept fixed.now r.moving r.saved)) }
{
    let has = flag(cursor)?;
    held_if(has, cursor, fixed)
}

/// What is kept of these fields, beside a reference of the same numbering.
fn kept_of(reference: &Reference, moving: Dynamic, saved: (u8, u8)) -> Previous
    requires shares { SharesNumbering reference.now.moving moving }
    requires marker { moving.marker ≡ reference.now.moving.marker }
    ensures fields { fields_by reference.now.moving result ≡ moving }
    ensures saved { result.saved ≡ saved }
    ensures apart { result.alike ≡ false }
{
    let whole = Reference {
        moving,
        saved,
        ..*reference
    };
    Previous::of(&whole, false)
}

/// Reads a previous reference, if there is one, and computes its registers.
#[tactic(auto, unfolding(crate::specs::SavedReading::previous_by))]
fn previous_if(
    has: bool,
    cursor: &mut Cursor<'_>,
    fixed: &Static,
    reference: &Reference,
) -> Result<Option<Previous>, ContextFault>
    requires good { IsGoodStatic fixed.now }
    requires kept { IsKept fixed.now reference.now.moving reference.now.saved }
    ensures reads { ReadsAs (option_map (previous_of_kept reference.now)) result cursor.new
        (previous_by has (reference_of reference.now) cursor.old) }
    ensures kept { IfOk result (λ p. ForSome p (λ p.
        IsKept fixed.now (fields_by reference.now.moving p) p.saved)) }
    ensures apart { IfOk result (λ p. ForSome p (λ p. p.alike ≡ false)) }
{
    if !has {
        return Ok(None);
    }
    let moving = fields(cursor, &reference.moving)?;
    note_good(&moving);
    let saved = registers(fixed, &moving);
    Ok(Some(kept_of(reference, moving, saved)))
}

/// Reads whether there is a previous reference, and that reference.
#[tactic(auto, unfolding(crate::specs::SavedReading::previous_at))]
fn previous(
    cursor: &mut Cursor<'_>,
    fixed: &Static,
    reference: &Reference,
) -> Result<Option<Previous>, ContextFault>
    requires good { IsGoodStatic fixed.now }
    requires kept { IsKept fixed.now reference.now.moving reference.now.saved }
    ensures reads { ReadsAs (option_map (previous_of_kept reference.now)) result cursor.new
        (previous_at (reference_of reference.now) cursor.old) }
    ensures kept { IfOk result (λ p. ForSome p (λ p.
        IsKept fixed.now (fields_by reference.now.moving p) p.saved)) }
    ensures apart { IfOk result (λ p. ForSome p (λ p. p.alike ≡ false)) }
{
    let has = flag(cursor)?;
    previous_if(has, cursor, fixed, reference)
}

/// Reads what No Context keeps.
#[tactic(auto, unfolding(crate::specs::SavedReading::no_context_at))]
fn no_context(cursor: &mut Cursor<'_>) -> Result<State, ContextFault>
    ensures reads { ReadsAs state_of result cursor.new (no_context_at cursor.old) }
{
    let nacked = long(cursor)?;
    Ok(State::NoContext(NoContext { nacked }))
}

/// Reads what Static Context keeps.
#[tactic(auto, unfolding(crate::specs::SavedReading::static_context_at))]
fn static_context(cursor: &mut Cursor<'_>) -> Result<State, ContextFault>
    ensures reads { ReadsAs state_of result cursor.new (static_context_at cursor.old) }
{
    let fixed = fixed(cursor)?;
    let reference = held(cursor, &fixed)?;
    let first = window(cursor)?;
    let second = window(cursor)?;
    Ok(State::Static(StaticContext {
        fixed,
        reference,
        windows: (first, second),
    }))
}

/// Reads what Full Context keeps.
#[tactic(auto, unfolding(crate::specs::SavedReading::full_context_at))]
fn full_context(cursor: &mut Cursor<'_>) -> Result<State, ContextFault>
    ensures reads { ReadsAs state_of result cursor.new (full_context_at cursor.old) }
{
    let fixed = fixed(cursor)?;
    let reference = reference(cursor, &fixed)?;
    let previous = previous(cursor, &fixed, &reference)?;
    let window = window(cursor)?;
    Ok(State::Full(FullContext {
        fixed,
        reference,
        prepared: Prepared::of(&fixed, &reference.moving),
        previous,
        windows: (window, Window::empty()),
    }))
}

/// Reads the number of a state, and what it keeps.
#[tactic(auto, unfolding(crate::specs::SavedReading::state_at))]
fn state(cursor: &mut Cursor<'_>) -> Result<State, ContextFault>
    ensures reads { ReadsAs state_of result cursor.new (state_at cursor.old) }
{
    let left = cursor.rest().len();
    let number = octet(cursor)?;
    if number == 0 {
        return Ok(State::Plain);
    }
    if number == 1 {
        return no_context(cursor);
    }
    if number == 2 {
        return static_context(cursor);
    }
    if number == 3 {
        return full_context(cursor);
    }
    Err(ContextFault::Bad { left })
}

/// The context that these octets spell. Its contract adds that each octet is below 256.
#[tactic(auto, unfolding(crate::specs::SavedReading::restored))]
fn whole_context(octets: &[u8]) -> Result<Context, ContextFault>
    ensures reads { MatchResult result (λ c. restored octets.now ≡ Ok (record_of c))
        (λ e. restored octets.now ≡ Err e) }
    ensures octets { All IsOctet octets.now }
{
    let mut cursor = reading::cursor_over(octets);
    let context = Context::take_saved(&mut cursor)?;
    let left = cursor.rest().len();
    if left > 0 {
        return Err(ContextFault::Long { left });
    }
    Ok(context)
}

impl Context {
    ghost use Rattle.rohc_context.specs.declared.record.Context.{Context};
    ghost use Rattle.rohc_context.specs.SavedText.{saved_text};

    /// Takes a saved context from the start of the octets that are left (docs/FORMATS.md). The registers of checks are
    /// computed.
    ///
    /// The error is the first fault from the left, `Short` or `Bad`. The cursor then stands anywhere within the octets.
    #[tactic(auto, unfolding(crate::specs::SavedReading::saved_at, crate::specs::Record::record_of))]
    pub fn take_saved(cursor: &mut Cursor<'_>) -> Result<Context, ContextFault>
        ensures reads { ReadsAs record_of result cursor.new (saved_at cursor.old) }
    {
        let accepted = long(cursor)?;
        let state = state(cursor)?;
        Ok(Context { accepted, state })
    }

    /// The context that these octets spell (docs/FORMATS.md). The registers of checks are computed.
    ///
    /// The error is the first fault from the left. Octets behind a context are `Long`.
    pub fn restore(octets: &[u8]) -> Result<Context, ContextFault>
        ensures reads { MatchResult result (λ c. restored octets.now ≡ Ok (record_of c))
            (λ e. restored octets.now ≡ Err e) }
        ensures spelled { IfOk result (λ c. octets.now ≡ saved_text (record_of c)) }
        ensures only { (c : Context) → octets.now ≡ saved_text (record_of c) →
            IsOk result × IfOk result (λ d. record_of d ≡ record_of c) }
    {
        whole_context(octets)
    }
}
