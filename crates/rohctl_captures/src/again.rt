//! The packets of an input that can be read again, one after another.

use crate::carriage::Carriage;
use crate::held::{Held, rewound};
use crate::source::{Rest, take_source};
use rohctl_ground::{Ending, STREAM, Screen, Stop, Taker, Told, open_file, size_of};
use std::fs::OpenFile;
use std::io::Read;
use std::rt::Files;
use std::time::Clock;

/// Why the packets of a file that can't be opened or read aren't taken.
fn stop_of(ending: Ending<'_>) -> Stop {
    match ending {
        Ending::Read(_, reason) => Stop::Read(reason),
        _ => Stop::Memory,
    }
}

/// Has the packets of a file of this length taken, and shows how far that is.
fn take_file<R, S: Read + Drop, T: Taker>(
    rt: &R,
    file: (S, Option<u64>),
    carriage: Option<Carriage<'_>>,
    screen: Screen,
    taker: &mut T,
) -> Result<Rest, Stop>
where
    R: Eprint + Clock + AllocGlobal,
{
    let (file, size) = file;
    let mut source = Told::new(rt, file, size, screen.error);
    let taken = take_source(rt.alloc(), &mut source, carriage.as_ref(), taker);
    if source.has_failed() {
        return Err(stop_of(source.unread(STREAM)));
    }
    taken
}

/// Has all packets of an input taken, or up to what stops that. Only a capture has a carriage.
pub(crate) fn take_held<R, T: Taker>(
    rt: &R,
    held: &Held<'_, R::File>,
    carriage: Option<Carriage<'_>>,
    screen: Screen,
    taker: &mut T,
) -> Result<Rest, Stop>
where
    R: Files + Eprint + Clock + AllocGlobal,
{
    match held {
        Held::File(path) => {
            let file = open_file(rt, path).map_err(|ending| stop_of(ending))?;
            take_file(rt, (file, size_of(rt, path)), carriage, screen, taker)
        }
        Held::Short(octets) => {
            let mut source = octets.as_slice();
            take_source(rt.alloc(), &mut source, carriage.as_ref(), taker)
        }
        Held::Long(file) => {
            let again = rewound(file).map_err(|ending| stop_of(ending))?;
            let size = again.metadata().ok().map(|data| data.len());
            take_file(rt, (again, size), carriage, screen, taker)
        }
    }
}

/// Has all packets of an input taken. Only a capture has a carriage.
pub fn take_all<'a, R, T: Taker>(
    rt: &R,
    held: &Held<'a, R::File>,
    carriage: Option<Carriage<'_>>,
    screen: Screen,
    taker: &mut T,
) -> Result<Rest, Ending<'a>>
where
    R: Files + Eprint + Clock + AllocGlobal,
{
    let taken = take_held(rt, held, carriage, screen, taker);
    taken.map_err(|stop| stop.ending(held.path(), STREAM))
}
