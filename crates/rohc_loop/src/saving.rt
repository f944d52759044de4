//! A file is replaced so that the old one or the new one is always there whole.

ghost use Rattle.std.specs.Prelude.{◌≡◌, [], Result};
ghost use Rattle.rohc_world.specs.Acts.{Asks};
ghost use Rattle.rohc_loop.specs.Saving.{EndsWriting, Fills, EndsFilling, EndsNaming, EndsSaving};

use crate::paths::{folder_of, path_beside};
use crate::unwritten::Unwritten;
use rohc_text::Reason;
use rohc_world::{Disk, Trouble};
use std::alloc::Global;

/// The trouble of a write that accepts no octet.
const NOTHING_ACCEPTED: Trouble = Trouble::Failed(Reason::Other(0));

/// Writes octets to the open file. Each write offers all that earlier writes have left.
#[tactic(auto, using(crate::proofs::WriteLemmas::takes_none, crate::proofs::WriteLemmas::taken_all))]
fn write_whole<W: Disk>(world: &mut W, octets: &[u8]) -> Result<(), Trouble>
    ensures { Asks (W.acts world.old) (W.acts world.new) (EndsWriting octets.now result) }
{
    let mut at = 0;
    while at < octets.len() {
        match world.write(&octets[at..]) {
            Ok(0) => return Err(NOTHING_ACCEPTED),
            Ok(size) => at += size,
            Err(trouble) => return Err(trouble),
        }
    }
    Ok(())
}

/// Writes octets to the open file. Once it has all of them, it gets this date, if the system can give it one, and is
/// synced.
#[tactic(auto, using(crate::proofs::WriteLemmas::not_filled))]
fn fill<W: Disk>(world: &mut W, octets: &[u8], date: u64) -> Result<(), Trouble>
    ensures { Asks (W.acts world.old) (W.acts world.new) (Fills date octets.now result) }
{
    match write_whole(world, octets) {
        Ok(()) => {}
        Err(trouble) => return Err(trouble),
    }
    let _ = world.set_modified(date);
    world.sync()
}

/// Writes octets to a new file of this date, which is synced and closed. It is removed if that fails.
#[tactic(auto, using(crate::proofs::SaveLemmas::not_created))]
fn write_new<W: Disk>(world: &mut W, new: &str, octets: &[u8], date: u64) -> Result<(), Trouble>
    ensures { Asks (W.acts world.old) (W.acts world.new) (EndsFilling date new.now octets.now result) }
{
    match world.create(new) {
        Ok(()) => {}
        Err(trouble) => return Err(trouble),
    }
    let filled = fill(world, octets, date);
    world.close();
    match filled {
        Ok(()) => Ok(()),
        Err(trouble) => {
            let _ = world.remove(new);
            Err(trouble)
        }
    }
}

/// Gives the new file the name of the old one. The new file is removed if that fails.
#[tactic(auto, using(crate::proofs::SaveLemmas::not_renamed))]
fn put_in_place<W: Disk>(world: &mut W, from: &str, path: &str) -> Result<(), Trouble>
    ensures { Asks (W.acts world.old) (W.acts world.new) (EndsNaming from.now path.now result) }
{
    match world.rename(from, path) {
        Ok(()) => Ok(()),
        Err(trouble) => {
            let _ = world.remove(from);
            Err(trouble)
        }
    }
}

/// Puts octets into a file of this date, so that the old file or the new one is always there whole: they are written to a
/// new file beside it, which is synced and then renamed. Last the folder is synced. After a failure before the file has
/// its name the new file is removed.
pub fn replace_file<W: Disk>(
    world: &mut W,
    alloc: Global,
    path: &str,
    octets: &[u8],
    date: u64,
) -> Result<(), Unwritten>
    ensures { Asks (W.acts world.old) (W.acts world.new) (EndsSaving date path.now octets.now result) }
{
    let Some(new) = path_beside(alloc, path) else {
        return Err(Unwritten::Memory);
    };
    match write_new(world, new.as_str(), octets, date) {
        Ok(()) => {}
        Err(trouble) => return Err(Unwritten::new(alloc, new.as_str(), trouble)),
    }
    match put_in_place(world, new.as_str(), path) {
        Ok(()) => {}
        Err(trouble) => return Err(Unwritten::new(alloc, path, trouble)),
    }
    let folder = folder_of(path);
    match world.sync_folder(folder) {
        Ok(()) => Ok(()),
        Err(trouble) => Err(Unwritten::new(alloc, folder, trouble)),
    }
}
