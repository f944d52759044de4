//! Parts of the octets of a saved concentrator, each in a buffer of fixed size.

ghost use Rattle.std.specs.Prelude.{◌≡◌, ◌+◌, ◌≤◌, ◌++◌, length};
ghost use Rattle.rohc_context.specs.Record.{record_of};
ghost use Rattle.rohc_saved.specs.Form.{word as word_text, quad as quad_text, context_text};

use arrayvec::ArrayVec;
use rohc_context::Context;

/// A part of the octets, in a buffer of fixed size: at most a CID and a saved context.
pub type Part = ArrayVec<u8, 77>;

/// Appends octets.
pub(crate) fn put(text: &mut Part, more: &[u8])
    requires { length text.old.items + length more.now ≤ 77 }
    ensures { text.new.items ≡ text.old.items ++ more.now }
{
    text.try_extend_from_slice(more).unwrap();
}

/// Appends a number of 16 bits.
pub(crate) fn put_word(text: &mut Part, value: u16)
    requires { length text.old.items + 2 ≤ 77 }
    ensures text { text.new.items ≡ text.old.items ++ word_text value }
    ensures length { length text.new.items ≡ length text.old.items + 2 }
{
    put(text, &value.to_be_bytes());
}

/// Appends a number of 32 bits.
pub(crate) fn put_quad(text: &mut Part, value: u32)
    requires { length text.old.items + 4 ≤ 77 }
    ensures text { text.new.items ≡ text.old.items ++ quad_text value }
    ensures length { length text.new.items ≡ length text.old.items + 4 }
{
    put_word(text, (value >> 16) as u16);
    put_word(text, (value % (1 << 16)) as u16);
}

/// The octets of a CID and its context.
pub fn context_part(cid: u16, context: &Context) -> Part
    ensures { result.items ≡ context_text (cid, record_of context.now) }
{
    let mut text = Part::new();
    put_word(&mut text, cid);
    let saved = context.save();
    put(&mut text, saved.as_slice());
    text
}
