//! Why there is nothing to show of an input without an event.

use crate::carriage::Carriage;
use crate::held::Held;
use crate::unmatched::no_frame;
use rohctl_ground::{Ending, Nothing};
use std::rt::Files;
use std::time::Clock;

/// How many octets of an input are looked at if there is nothing to show.
const FRONT: u64 = 4096;

/// The ending for a capture without a packet of a link, or for a script with so many lines, none of which is an event.
pub fn nothing_end<'p, R>(
    rt: &R,
    held: &Held<'p, R::File>,
    carriage: Option<Carriage<'_>>,
    lines: u64,
) -> Ending<'p>
where
    R: Files + Eprint + Clock + AllocGlobal,
{
    let front = match held.front(rt, FRONT) {
        Ok(front) => front,
        Err(ending) => return ending,
    };
    let path = held.path();
    if let Some(carriage) = carriage {
        return no_frame(rt, path, front.as_slice(), &carriage.framing);
    }
    if front.is_empty() {
        return Ending::Nothing(path, Nothing::Empty);
    }
    let carriage = front
        .as_slice()
        .windows(2)
        .any(|pair| pair == b"\r\n".as_slice());
    Ending::Nothing(path, Nothing::NoEvent { lines, carriage })
}
