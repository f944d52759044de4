//! One copy of a save.

ghost use Rattle.rohc_world.specs.Acts.{Asks};
ghost use Rattle.rohctl_keep.specs.Copying.{Copies};

use crate::save::{Save, Uncopied};
use rohc_loop::{read_state, replace_file};
use rohc_text::Reason;
use rohc_world::Disk;
use std::alloc::Global;

/// Copies a save with its date. The previous copy or the new one is always there whole. Returns `None` if there is no
/// save. The date is read before the octets: if the save is replaced in between, the copy has the date of the one before.
pub fn copy_save<W: Disk>(
    world: &mut W,
    alloc: Global,
    latest: &str,
    kept: &str,
) -> Result<Option<Save>, Uncopied>
    ensures { Asks (W.acts world.old) (W.acts world.new) (Copies latest.now kept.now result) }
{
    let date = match world.modified(latest) {
        Ok(date) => date,
        Err(trouble) => match trouble.reason() {
            Reason::Missing => return Ok(None),
            reason => return Err(Uncopied::NotRead(reason)),
        },
    };
    let octets = match read_state(world, alloc, latest) {
        Ok(Some(octets)) => octets,
        Ok(None) => return Ok(None),
        Err(reason) => return Err(Uncopied::NotRead(reason)),
    };
    let size = octets.len() as u64;
    match replace_file(world, alloc, kept, octets.as_slice(), date) {
        Ok(()) => Ok(Some(Save { date, size })),
        Err(error) => Err(Uncopied::NotWritten(error)),
    }
}
