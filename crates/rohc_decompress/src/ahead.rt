//! A look at the contexts of the packets that lie ahead, for the sake of speed alone: nothing that is written depends on it.
//!
//! Where thousands of calls come in no order, each packet would wait until its context came from memory. Here the contexts
//! of many packets are touched one right after another, and the processor waits for all of them at once.

use crate::run::Bulk;
use rohc_capture::{Capture, Rule, packet_at_once};
use rohc_concentrator::Concentrator;
use rohc_context::Context;
use std::io::Read;

/// From how many contexts on a look is worth its time: fewer lie in the second cache of most processors.
const MANY: usize = 4096;

/// Of how many links contexts are counted.
const LINKS: usize = 1024;

/// How many contexts are touched one right after another: more than a processor waits for at once.
const TOUCHED: usize = 32;

/// The most turns of a look. What it brings has to stay in the cache until it is used.
const TURNS: u32 = 64;

/// How many looks are left out after one that wasn't worth its time.
const PAUSE: u32 = 7;

/// Whether there are many contexts.
fn are_many(concentrator: &Concentrator) -> bool {
    let mut count: usize = 0;
    for (_, records) in concentrator.tables().iter().take(LINKS) {
        count = count.saturating_add(records.contexts.len());
        if count >= MANY {
            return true;
        }
    }
    false
}

/// Where the packet lies in a frame, as in the first frame of a look. Nearly all others are like it.
#[derive(Clone, Copy)]
struct Shape {
    /// The first frame's link, and that of all others unless a number says otherwise.
    link: u16,
    /// How many octets stand before the packet.
    lead: usize,
    /// Whether the last two of them are the number of the link.
    is_numbered: bool,
}

impl Shape {
    /// The shape of the next frame that lies ahead.
    fn of_next<R: Read>(rules: &[Rule], capture: &Capture<R>) -> Option<Shape> {
        let coming = capture.coming(0)?;
        let (link, packet) = packet_at_once(
            rules,
            coming.link_type,
            coming.original,
            coming.frame,
        )?;
        Some(Shape {
            link,
            lead: coming.frame.len().saturating_sub(packet.len()),
            is_numbered: rules.iter().any(|rule| matches!(rule, Rule::Numbered(_))),
        })
    }

    /// The link and the packet of a frame of this shape.
    #[inline(always)]
    fn packet_in<'a>(&self, frame: &'a [u8]) -> Option<(u16, &'a [u8])> {
        if !self.is_numbered {
            return Some((self.link, frame.get(self.lead..)?));
        }
        let (link, packet) = frame
            .get(self.lead.saturating_sub(2)..)?
            .split_first_chunk::<2>()?;
        Some((u16::from_be_bytes(*link), packet))
    }
}

/// What one turn found.
#[derive(Clone, Copy)]
struct Seen {
    /// How many octets its records have.
    passed: usize,
    /// How many packets have a context that took its last packets.
    ready: usize,
    /// How many contexts stand right behind that of the packet before: these are brought unasked.
    in_order: usize,
}

/// Touches these contexts, and returns how many of them took their last packets.
#[inline(always)]
fn touch(contexts: &[Option<&Context>]) -> usize {
    let mut ready: usize = 0;
    for found in contexts {
        if let Some(context) = found
            && let Some((first, _)) = context.windows()
            && first.word == 0
        {
            ready = ready.wrapping_add(1);
        }
    }
    ready
}

/// Finds the contexts of the next packets and then touches them; `None` if fewer packets lie ahead.
#[inline(never)]
fn turn<R: Read>(
    concentrator: &Concentrator,
    shape: Shape,
    capture: &Capture<R>,
    passed: usize,
) -> Option<Seen> {
    let mut contexts: [Option<&Context>; TOUCHED] = [None; TOUCHED];
    let mut passed = passed;
    let mut last: usize = 0;
    let mut in_order: usize = 0;
    for index in 0..TOUCHED {
        let coming = capture.coming(passed)?;
        passed = passed.saturating_add(coming.all);
        if let Some((link, packet)) = shape.packet_in(coming.frame)
            && let Some((place, context)) = concentrator.context_ahead(link, packet)
        {
            in_order = in_order.wrapping_add(usize::from(place == last.wrapping_add(1)));
            last = place;
            contexts[index] = Some(context);
        }
    }
    Some(Seen {
        passed,
        ready: touch(&contexts),
        in_order,
    })
}

/// When to look ahead.
#[derive(Clone, Copy)]
pub(crate) struct Look {
    /// How many looks are still left out.
    pause: u32,
}

impl Look {
    /// Nothing was seen yet.
    pub(crate) fn new() -> Look {
        Look { pause: 0 }
    }

    /// Looks at the contexts of the packets that lie ahead, if there are many contexts and the framing is the usual one, and
    /// unless a look was of no use of late.
    pub(crate) fn ahead<R: Read>(
        &mut self,
        concentrator: &Concentrator,
        bulk: &Bulk<'_>,
        capture: &Capture<R>,
    ) {
        if self.pause > 0 {
            self.pause -= 1;
            return;
        }
        if !bulk.framing.is_usual() || !are_many(concentrator) {
            return;
        }
        let Some(shape) = Shape::of_next(bulk.rules, capture) else {
            return;
        };
        let mut passed: usize = 0;
        for _ in 0..TURNS {
            let Some(seen) = turn(concentrator, shape, capture, passed) else {
                return;
            };
            passed = seen.passed;
            if seen.ready < TOUCHED / 2 || seen.in_order > TOUCHED / 2 {
                self.pause = PAUSE;
                return;
            }
        }
    }
}
