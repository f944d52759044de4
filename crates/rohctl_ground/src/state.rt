//! A state file, as rohc-gateway writes it: the contexts with which a run begins.

use crate::ending::{Ending, unread};
use crate::links::good_links;
use crate::printable::Printable;
use crate::streams::{open_file, open_source};
use rohc_concentrator::Concentrator;
use rohc_links::Links;
use rohc_saved::{Restored, SavedFault, restore};
use rohc_text::Reason;
use std::alloc::Global;
use std::io::Read;
use std::rt::Files;

/// The longest state file, in octets, as rohc-gateway has it.
const LONGEST_STATE: u64 = 1_073_741_824;

/// The octets of a file, up to the limit and no further.
fn octets_of<S: Read + Drop>(alloc: Global, source: S) -> Result<Vec<u8>, Reason> {
    let mut octets = Vec::new(alloc);
    let mut limited = source.take(LONGEST_STATE + 1);
    limited
        .read_to_end(&mut octets)
        .map_err(|error| Reason::of(&error))?;
    if octets.len() as u64 > LONGEST_STATE {
        return Err(Reason::TooLong(LONGEST_STATE));
    }
    Ok(octets)
}

/// The octets of a file, or of standard input for `-`, of at most so many as a state file may have.
pub fn octets_at<'a, R>(rt: &R, path: &'a str) -> Result<Vec<u8>, Ending<'a>>
where
    R: Files + Input + AllocGlobal,
{
    let source = open_source(rt, path)?;
    octets_of(rt.alloc(), source).map_err(|reason| unread(path, reason))
}

/// Prints how much of a state file is left out, if something is.
fn tell_left_out<R: Eprint>(rt: &R, path: &str, restored: &Restored) {
    let contexts = restored
        .left_contexts
        .saturating_add(restored.high_contexts);
    let links = restored.unknown_links.saturating_add(restored.other_links);
    if contexts > 0 || links > 0 {
        let path = Printable(path);
        let _ = eprintln!(rt;
            "rohctl: {path}: left out {contexts} contexts and {links} links; the links file has not their link, its CID kind or their CIDs"
        );
    }
}

/// How a run ends whose state file is refused.
fn refused(name: &str, fault: SavedFault) -> Ending<'_> {
    match fault {
        SavedFault::NoMemory => Ending::Memory,
        fault => Ending::State(name, fault),
    }
}

/// A concentrator with these links and the contexts of the octets of a state file, which messages call by this name.
pub fn restored<'a, R>(
    rt: &R,
    links: &Links,
    name: &'a str,
    octets: &[u8],
) -> Result<Concentrator, Ending<'a>>
where
    R: Eprint + AllocGlobal,
{
    match restore(rt.alloc(), links.settings(), octets) {
        Ok((concentrator, restored)) => {
            tell_left_out(rt, name, &restored);
            Ok(concentrator)
        }
        Err(fault) => Err(refused(name, fault)),
    }
}

/// A state file.
#[derive(Drop)]
struct StateFile<'a> {
    path: &'a str,
    octets: Vec<u8>,
}

/// Reads a state file.
fn read_state<'a, R>(rt: &R, path: &'a str) -> Result<StateFile<'a>, Ending<'a>>
where
    R: Files + AllocGlobal,
{
    let file = open_file(rt, path)?;
    match octets_of(rt.alloc(), file) {
        Ok(octets) => Ok(StateFile { path, octets }),
        Err(reason) => Err(unread(path, reason)),
    }
}

/// What a run begins with: links and, if a state file is given, its contexts.
#[derive(Drop)]
pub struct Beginning<'a> {
    links: Links,
    state: Option<StateFile<'a>>,
}

impl<'a> Beginning<'a> {
    /// Reads a links file and, if one is given, a state file.
    pub fn read<R>(rt: &R, links: &'a str, state: Option<&'a str>) -> Result<Self, Ending<'a>>
    where
        R: Files + Input + Eprint + AllocGlobal,
    {
        let links = good_links(rt, links)?;
        let state = match state {
            Some(path) => Some(read_state(rt, path)?),
            None => None,
        };
        Ok(Beginning { links, state })
    }

    /// The concentrator of the first run. How much of the state file is left out is printed.
    pub fn concentrator<R>(&self, rt: &R) -> Result<Concentrator, Ending<'a>>
    where
        R: Eprint + AllocGlobal,
    {
        match &self.state {
            Some(state) => restored(rt, &self.links, state.path, state.octets.as_slice()),
            None => self.again(rt.alloc()),
        }
    }

    /// The same concentrator, for another run over the same input.
    pub fn again(&self, alloc: Global) -> Result<Concentrator, Ending<'a>> {
        let settings = self.links.settings();
        let Some(state) = &self.state else {
            return Concentrator::new(alloc, settings).map_err(|_| Ending::Memory);
        };
        match restore(alloc, settings, state.octets.as_slice()) {
            Ok((concentrator, _)) => Ok(concentrator),
            Err(fault) => Err(refused(state.path, fault)),
        }
    }
}

/// A concentrator with the links of a file and, if a state file is given, its contexts.
pub fn concentrator_from<'a, R>(
    rt: &R,
    links: &'a str,
    state: Option<&'a str>,
) -> Result<Concentrator, Ending<'a>>
where
    R: Files + Input + Eprint + AllocGlobal,
{
    Beginning::read(rt, links, state)?.concentrator(rt)
}
