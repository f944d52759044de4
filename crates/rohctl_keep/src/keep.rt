//! The subcommand `keep`, from what the gateway answers to how the run ends.

use crate::copying::copy_save;
use crate::failure::{Failure, ending_of};
use crate::places::{Places, places_in};
use crate::save::Save;
use rohc_disk::{RealDisk, milliseconds};
use rohctl_ground::Ending;
use std::rt::Files;
use std::time::{Clock, Duration};
use std::{fs, thread};

/// A running gateway, as `keep` asks it. What is wrong with its answers is printed, and the program ends by it.
pub trait Gateway {
    /// Asks it where its newest save is, and where the copy belongs. Returns its answer.
    fn places(&mut self) -> Result<Vec<u8>, Ending<'static>>;

    /// Prints that its answer is none of a gateway. Returns how the program ends by it.
    fn no_answer(&mut self) -> Ending<'static>;

    /// Tells it that a copy was made, or that one failed.
    fn tell(&mut self, is_made: bool) -> Result<(), Ending<'static>>;
}

/// What was copied last in a run.
#[derive(Drop)]
struct Last {
    /// The answer of the gateway by which it was copied.
    answer: Vec<u8>,
    /// The save, if there was one.
    save: Option<Save>,
}

/// The save at this path, as the system shows it.
fn save_at<R: Files>(rt: &R, path: &str) -> Option<Save> {
    let data = fs::metadata(rt, path).ok()?;
    let date = milliseconds(data.modified().ok()?);
    let size = data.len();
    Some(Save { date, size })
}

/// Copies the newest save, if it isn't the last one, and tells the gateway so. A failure is printed. Returns the save
/// that was copied last, and how a run of one copy ends.
fn copied<R, G>(
    rt: &R,
    gateway: &mut G,
    places: Places<'_>,
    last: Option<Save>,
) -> Result<(Option<Save>, Ending<'static>), Ending<'static>>
where
    R: Files + Eprint + AllocGlobal,
    G: Gateway,
{
    let Places { latest, kept } = places;
    if last.is_some() && save_at(rt, latest) == last {
        return Ok((last, Ending::Good));
    }
    match copy_save(&mut RealDisk::of(rt), rt.alloc(), latest, kept) {
        Ok(None) => Ok((last, Ending::Good)),
        Ok(save) => {
            gateway.tell(true)?;
            Ok((save, Ending::Good))
        }
        Err(why) => {
            let failure = Failure { places, why: &why };
            let _ = eprintln!(rt; "rohctl: {failure}");
            gateway.tell(false)?;
            Ok((last, ending_of(&why)))
        }
    }
}

impl Last {
    /// Asks the gateway, and copies what it answers. Returns how a run of one copy ends.
    fn follow<R, G>(&mut self, rt: &R, gateway: &mut G) -> Result<Ending<'static>, Ending<'static>>
    where
        R: Files + Eprint + AllocGlobal,
        G: Gateway,
    {
        let answer = gateway.places()?;
        let Some(places) = places_in(answer.as_slice()) else {
            return Err(gateway.no_answer());
        };
        let last = if answer.as_slice() == self.answer.as_slice() {
            self.save
        } else {
            None
        };
        let (save, ending) = copied(rt, gateway, places, last)?;
        self.save = save;
        self.answer = answer;
        Ok(ending)
    }
}

/// Copies the newest save of a gateway to the file where it belongs: once, or every so many seconds until the gateway
/// can't be asked or the program is interrupted.
pub fn run_keep<R, G>(
    rt: &R,
    gateway: &mut G,
    every: Option<u32>,
) -> Result<Ending<'static>, Ending<'static>>
where
    R: Files + Eprint + Clock + AllocGlobal,
    G: Gateway,
{
    let mut last = Last {
        answer: Vec::new(rt.alloc()),
        save: None,
    };
    for _ in 0..u64::MAX {
        let ending = last.follow(rt, gateway)?;
        let Some(seconds) = every else {
            return Ok(ending);
        };
        thread::sleep(rt, Duration::from_secs(u64::from(seconds)));
    }
    Ok(Ending::Good)
}
