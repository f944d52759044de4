//! A context as octets (docs/FORMATS.md).

ghost use Rattle.std.specs.Prelude.{◌≡◌, ◌+◌, ◌≤◌, ◌++◌, length, option_map};
ghost use Rattle.rohc_header.specs.Original.{octet as octet_text, word as word_text, quad as quad_text};
ghost use Rattle.rohc_context.specs.Window.{outcomes};
ghost use Rattle.rohc_context.specs.Record.{reference_of, previous_of, state_of, record_of};
ghost use Rattle.rohc_context.specs.SavedText.{long_text, flag_text, window_text, static_text, numbers_text, marks_text, fields_text, stride_text, shared_text, reference_text, held_text, previous_text, state_text, saved_text};

use crate::record::Context;
use crate::reference::Reference;
use crate::state::{FullContext, State, StaticContext};
use crate::window::Window;
use arrayvec::ArrayVec;
use rohc_header::{Dynamic, Static};

/// The octets of a saved context, 9 to 75 of them.
pub type SavedContext = ArrayVec<u8, 75>;

/// Appends octets.
fn put(text: &mut SavedContext, more: &[u8])
    requires { length text.old.items + length more.now ≤ 75 }
    ensures { text.new.items ≡ text.old.items ++ more.now }
{
    text.try_extend_from_slice(more).unwrap();
}

/// Appends a number of 8 bits.
fn put_octet(text: &mut SavedContext, value: u8)
    requires { length text.old.items + 1 ≤ 75 }
    ensures { text.new.items ≡ text.old.items ++ octet_text value }
{
    put(text, &[value]);
}

/// Appends a number of 16 bits.
fn put_word(text: &mut SavedContext, value: u16)
    requires { length text.old.items + 2 ≤ 75 }
    ensures { text.new.items ≡ text.old.items ++ word_text value }
{
    put(text, &value.to_be_bytes());
}

/// Appends a number of 32 bits.
fn put_quad(text: &mut SavedContext, value: u32)
    requires { length text.old.items + 4 ≤ 75 }
    ensures { text.new.items ≡ text.old.items ++ quad_text value }
{
    put(text, &value.to_be_bytes());
}

/// Appends a number of 64 bits.
#[tactic(auto, unfolding(crate::specs::SavedText::long_text))]
fn put_long(text: &mut SavedContext, value: u64)
    requires { length text.old.items + 8 ≤ 75 }
    ensures text { text.new.items ≡ text.old.items ++ long_text value }
    ensures length { length text.new.items ≡ length text.old.items + 8 }
{
    put_quad(text, (value >> 32) as u32);
    put_quad(text, (value % (1 << 32)) as u32);
}

/// Appends a flag.
fn put_flag(text: &mut SavedContext, set: bool)
    requires { length text.old.items + 1 ≤ 75 }
    ensures { text.new.items ≡ text.old.items ++ flag_text set }
{
    put(text, &[if set { 1 } else { 0 }]);
}

/// Appends a window.
#[tactic(auto, unfolding(crate::specs::SavedText::window_text))]
fn put_window(text: &mut SavedContext, window: Window)
    requires { length text.old.items + 9 ≤ 75 }
    ensures text { text.new.items ≡ text.old.items ++ window_text (outcomes window) }
    ensures length { length text.new.items ≡ length text.old.items + 9 }
{
    put_octet(text, window.length);
    put_long(text, window.word);
}

/// Appends the static part.
#[tactic(auto, unfolding(crate::specs::SavedText::static_text))]
fn put_static(text: &mut SavedContext, fixed: &Static)
    requires { length text.old.items + 16 ≤ 75 }
    ensures text { text.new.items ≡ text.old.items ++ static_text fixed.now }
    ensures length { length text.new.items ≡ length text.old.items + 16 }
{
    put(text, &fixed.source);
    put(text, &fixed.destination);
    put_word(text, fixed.source_port);
    put_word(text, fixed.destination_port);
    put_quad(text, fixed.ssrc);
}

/// Appends the numbers in which a reference and the previous one may differ.
#[tactic(auto, unfolding(crate::specs::SavedText::numbers_text))]
fn put_numbers(text: &mut SavedContext, moving: &Dynamic)
    requires { length text.old.items + 12 ≤ 75 }
    ensures text { text.new.items ≡ text.old.items ++ numbers_text moving.now }
    ensures length { length text.new.items ≡ length text.old.items + 12 }
{
    put_octet(text, moving.tos);
    put_octet(text, moving.ttl);
    put_word(text, moving.id);
    put_word(text, moving.udp_sum);
    put_word(text, moving.sn);
    put_quad(text, moving.ts);
}

/// Appends the payload type and the flags in which they may differ.
#[tactic(auto, unfolding(crate::specs::SavedText::marks_text))]
fn put_marks(text: &mut SavedContext, moving: &Dynamic)
    requires { length text.old.items + 4 ≤ 75 }
    ensures text { text.new.items ≡ text.old.items ++ marks_text moving.now }
    ensures length { length text.new.items ≡ length text.old.items + 4 }
{
    put_octet(text, moving.payload_type);
    put_flag(text, moving.df);
    put_flag(text, moving.padding);
    put_flag(text, moving.extension);
}

/// Appends all fields in which a reference and the previous one may differ.
#[tactic(auto, unfolding(crate::specs::SavedText::fields_text))]
fn put_fields(text: &mut SavedContext, moving: &Dynamic)
    requires { length text.old.items + 16 ≤ 75 }
    ensures text { text.new.items ≡ text.old.items ++ fields_text moving.now }
    ensures length { length text.new.items ≡ length text.old.items + 16 }
{
    put_numbers(text, moving);
    put_marks(text, moving);
}

/// Appends whether there is a stride, and the stride or four reserved octets.
#[tactic(auto, unfolding(crate::specs::SavedText::stride_text))]
fn put_stride(text: &mut SavedContext, stride: Option<u32>)
    requires { length text.old.items + 5 ≤ 75 }
    ensures text { text.new.items ≡ text.old.items ++ stride_text stride }
    ensures length { length text.new.items ≡ length text.old.items + 5 }
{
    put_flag(text, stride.is_some());
    put_quad(text, stride.unwrap_or(0));
}

/// Appends what a previous reference shares with the reference.
#[tactic(auto, unfolding(crate::specs::SavedText::shared_text))]
fn put_shared(text: &mut SavedContext, reference: &Reference)
    requires { length text.old.items + 8 ≤ 75 }
    ensures text { text.new.items ≡ text.old.items ++ shared_text (reference_of reference.now) }
    ensures length { length text.new.items ≡ length text.old.items + 8 }
{
    put_flag(text, reference.moving.rnd);
    put_flag(text, reference.moving.nbo);
    put_flag(text, reference.carries_sum);
    put_stride(text, reference.moving.stride);
}

/// Appends a reference.
#[tactic(auto, unfolding(crate::specs::SavedText::reference_text))]
fn put_reference(text: &mut SavedContext, reference: &Reference)
    requires { length text.old.items + 24 ≤ 75 }
    ensures text { text.new.items ≡ text.old.items ++ reference_text (reference_of reference.now) }
    ensures length { length text.new.items ≡ length text.old.items + 24 }
{
    put_fields(text, &reference.moving);
    put_shared(text, reference);
}

/// Appends whether Static Context has a reference, and the reference.
#[tactic(auto, unfolding(crate::specs::SavedText::held_text))]
fn put_held(text: &mut SavedContext, reference: Option<&Reference>)
    requires { length text.old.items + 25 ≤ 75 }
    ensures text { text.new.items ≡ text.old.items ++ held_text (option_map (λ r. reference_of r.now) reference.entry) }
    ensures length { length text.new.items ≤ length text.old.items + 25 }
{
    match reference {
        None => put_flag(text, false),
        Some(reference) => {
            put_flag(text, true);
            put_reference(text, reference);
        }
    }
}

/// Appends whether Full Context has a previous reference, and that in which it may differ from the reference.
#[tactic(auto, unfolding(crate::specs::SavedText::previous_text))]
fn put_previous(text: &mut SavedContext, context: &FullContext)
    requires { length text.old.items + 17 ≤ 75 }
    ensures text { text.new.items ≡ text.old.items ++ previous_text (previous_of context.now) }
    ensures length { length text.new.items ≤ length text.old.items + 17 }
{
    match &context.previous {
        None => put_flag(text, false),
        Some(previous) => {
            let whole = previous.beside(&context.reference);
            put_flag(text, true);
            put_fields(text, &whole.moving);
        }
    }
}

/// Appends what Static Context keeps.
fn put_static_context(text: &mut SavedContext, context: &StaticContext)
    requires { length text.old.items ≤ 9 }
    ensures { text.new.items ≡ text.old.items ++ (static_text context.now.fixed
        ++ (held_text (option_map reference_of context.now.reference)
        ++ (window_text (outcomes context.now.windows.0) ++ window_text (outcomes context.now.windows.1)))) }
{
    put_static(text, &context.fixed);
    put_held(text, context.reference.as_ref());
    put_window(text, context.windows.0);
    put_window(text, context.windows.1);
}

/// Appends what Full Context keeps.
fn put_full_context(text: &mut SavedContext, context: &FullContext)
    requires { length text.old.items ≤ 9 }
    ensures { text.new.items ≡ text.old.items ++ (static_text context.now.fixed
        ++ (reference_text (reference_of context.now.reference)
        ++ (previous_text (previous_of context.now) ++ window_text (outcomes context.now.windows.0)))) }
{
    put_static(text, &context.fixed);
    put_reference(text, &context.reference);
    put_previous(text, context);
    put_window(text, context.windows.0);
}

/// Appends the number of a state, and what it keeps.
#[tactic(auto, unfolding(crate::specs::SavedText::state_text))]
fn put_state(text: &mut SavedContext, state: &State)
    requires { length text.old.items ≤ 8 }
    ensures { text.new.items ≡ text.old.items ++ state_text (state_of state.now) }
{
    match state {
        State::Plain => put_octet(text, 0),
        State::NoContext(context) => {
            put_octet(text, 1);
            put_long(text, context.nacked);
        }
        State::Static(context) => {
            put_octet(text, 2);
            put_static_context(text, context);
        }
        State::Full(context) => {
            put_octet(text, 3);
            put_full_context(text, context);
        }
    }
}

impl Context {
    /// The octets of the context: all that it keeps, but the registers of checks (docs/FORMATS.md).
    #[tactic(auto, unfolding(crate::specs::SavedText::saved_text, crate::specs::Record::record_of))]
    pub fn save(&self) -> SavedContext
        ensures { result.items ≡ saved_text (record_of self.now) }
    {
        let mut text = SavedContext::new();
        put_long(&mut text, self.accepted);
        put_state(&mut text, &self.state);
        text
    }
}
