//! The octets of a save that are made ready, in a buffer that was taken once.

ghost use Rattle.std.specs.Prelude.{◌≤◌, ◌+◌, ◌*◌, vec_len, vec_capacity};

use crate::noted::Noted;
use rohc_bits::put_behind;
use rohc_concentrator::Concentrator;
use rohc_context::Context;
use rohc_saved::{context_part, is_same, size_octet};
use std::alloc::{AllocError, Global};

/// The most CIDs that one piece looks at.
pub const MOST_CIDS: usize = 256;

/// Room for what stands in front of contexts, at most 64 octets, and for 16,384 contexts, each of at most 77 with its CID.
const ROOM: usize = 1_261_632;

/// The octets that are made ready: what stands in front of contexts, and the contexts of a link, CID by CID.
#[derive(Drop)]
pub(crate) struct Ready {
    /// The octets.
    pub(crate) octets: Vec<u8>,
    /// The CIDs of the link below this one were looked at.
    pub(crate) next: u16,
    /// How many contexts are among the octets.
    pub(crate) count: u16,
    ghost room: { 1261632 ≤ vec_capacity octets },
    ghost fits: { vec_len octets ≤ 64 + 77 * next },
    ghost low: { next ≤ 16384 },
    ghost few: { count ≤ next },
}

impl Ready {
    ghost use Rattle.std.specs.Prelude.{◌≡◌, ◌++◌, [], length, flat_map, drop, IfOk};
    ghost use Rattle.rohc_saved.specs.Form.{context_text};
    ghost use Rattle.rohc_piecewise.specs.Noted.{head_in};
    ghost use Rattle.rohc_piecewise.specs.Piecewise.{held_under};
    ghost use Rattle.rohc_piecewise.specs.Between.{one_of, head_of_link};
    ghost use Rattle.rohc_piecewise.specs.LooksOn.{LooksOn};

    /// Takes the buffer. Nothing is ready.
    pub(crate) fn new(alloc: Global) -> Result<Ready, AllocError> {
        let octets = Vec::with_capacity(alloc, ROOM)?;
        Ok(Ready {
            octets,
            next: 0,
            count: 0,
        })
    }

    /// Nothing is ready, and no CID was looked at.
    pub(crate) fn clear(&mut self)
        ensures none { self.new.octets.items ≡ [] }
        ensures next { self.new.next ≡ 0 }
        ensures count { self.new.count ≡ 0 }
    {
        self.octets.clear();
        self.next = 0;
        self.count = 0;
    }

    /// Appends octets in front of contexts.
    pub(crate) fn put(&mut self, part: &[u8])
        requires { length self.old.octets.items + length part.now ≤ 64 }
        ensures text { self.new.octets.items ≡ self.old.octets.items ++ part.now }
        ensures next { self.new.next ≡ self.old.next }
        ensures count { self.new.count ≡ self.old.count }
    {
        let Ok(()) = self.octets.extend_from_slice(part) else {
            unreachable!();
        };
    }

    /// Writes the head of a link over the first eight octets, which were kept free for it. With fewer octets it does nothing.
    pub(crate) fn put_head(&mut self, link: Noted)
        ensures text { 8 ≤ length self.old.octets.items → self.new.octets.items ≡ head_of_link (head_in link) self.old.count ++ drop 8 self.old.octets.items }
        ensures next { self.new.next ≡ self.old.next }
        ensures count { self.new.count ≡ self.old.count }
    {
        let head = head_octets(link, self.count);
        if self.octets.len() >= head.len() {
            put_behind(&mut self.octets, 0, &head);
        }
    }

    /// Looks at the next CID of a link. If it has a context, appends the CID and the context.
    fn look(&mut self, concentrator: &Concentrator, link: Noted)
        requires { self.old.next ≤ link.greatest }
        ensures text { self.new.octets.items ≡ self.old.octets.items ++ flat_map context_text (one_of self.old.next (held_under concentrator.now (head_in link) self.old.next)) }
        ensures count { self.new.count ≡ self.old.count + length (one_of self.old.next (held_under concentrator.now (head_in link) self.old.next)) }
        ensures next { self.new.next ≡ self.old.next + 1 }
    {
        if let Some(context) = held(concentrator, link, self.next) {
            let part = context_part(self.next, context);
            let Ok(()) = self.octets.extend_from_slice(part.as_slice()) else {
                unreachable!();
            };
            self.count += 1;
        }
        self.next += 1;
    }

    /// Looks at the next CIDs of a link, at most `MOST_CIDS`, up to its greatest.
    pub(crate) fn look_on(&mut self, concentrator: &Concentrator, link: Noted)
        ensures { LooksOn concentrator.now (head_in link) self.old self.new }
    {
        for _ in 0..MOST_CIDS {
            if self.next > link.greatest {
                return;
            }
            self.look(concentrator, link);
        }
    }
}

ghost use Rattle.std.specs.Prelude.{◌≡◌, length, option_map};
ghost use Rattle.rohc_context.specs.Record.{record_of};
ghost use Rattle.rohc_saved.specs.Form.{context_text, size_octet};
ghost use Rattle.rohc_saved.specs.Restoring.{is_same};
ghost use Rattle.rohc_piecewise.specs.Noted.{head_in};
ghost use Rattle.rohc_piecewise.specs.Piecewise.{held_under};
ghost use Rattle.rohc_piecewise.specs.Between.{head_of_link};

/// The eight octets of a link's head, with the number of its contexts.
fn head_octets(link: Noted, count: u16) -> [u8; 8]
    ensures { result ≡ head_of_link (head_in link) count }
{
    let [number_high, number_low] = link.number.to_be_bytes();
    let [greatest_high, greatest_low] = link.greatest.to_be_bytes();
    let [count_high, count_low] = count.to_be_bytes();
    [
        number_high,
        number_low,
        size_octet(link.size),
        0,
        greatest_high,
        greatest_low,
        count_high,
        count_low,
    ]
}

/// The context of a CID, if the link is there with CIDs of the kind that was noted, and the CID has one.
fn held(concentrator: &Concentrator, link: Noted, cid: u16) -> Option<&Context>
    ensures { option_map (λ c. record_of c.now) result ≡ held_under concentrator.now (head_in link) cid }
{
    match concentrator.tables().get(&link.number) {
        Some(records) => {
            if is_same(records.setting.settings.size, link.size) {
                records.contexts.get(&cid)
            } else {
                None
            }
        }
        None => None,
    }
}
