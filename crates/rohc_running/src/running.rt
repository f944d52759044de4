//! A save that goes on from wake to wake.

ghost use Rattle.std.specs.Prelude.{◌≡◌, [], ℕ, List, true, false, IfSome};
ghost use Rattle.std.specs.String.{string_bytes};
ghost use Rattle.rohc_concentrator.specs.declared.concentrator.Concentrator.{Concentrator};
ghost use Rattle.rohc_world.specs.Acts.{Asks};
ghost use Rattle.rohc_loop.specs.Paths.{beside};
ghost use Rattle.rohc_piecewise.specs.Piecewise.{Head};
ghost use Rattle.rohc_running.specs.Running.{IsRunning, GivesUp, Stops, EndsBegin, EndsPlacing, GoesOn};

use rohc_concentrator::Concentrator;
use rohc_loop::{Unwritten, path_beside};
use rohc_piecewise::Saver;
use rohc_text::Reason;
use rohc_world::{Disk, Trouble};
use std::alloc::Global;

/// The trouble of a write that accepts no octet.
const NOTHING_ACCEPTED: Trouble = Trouble::Failed(Reason::Other(0));

/// When a save begins.
#[derive(Clone, Copy)]
pub struct Begin {
    /// The gateway's moment.
    pub moment: u64,
    /// The system's clock, in milliseconds since 1970: the date of the file.
    pub date: u64,
}

/// How a save goes on.
#[derive(Clone, Copy, PartialEq, Eq)]
pub enum Progress {
    /// More is to be done.
    Goes,
    /// It is whole. The number is its size in octets, up to the greatest `u64`.
    Ends(u64),
}

/// Saves, one after the other, each of which goes on from wake to wake.
#[derive(Drop)]
pub struct RunningSave {
    saver: Saver,
    /// Where the last save stands that was whole.
    path: String,
    /// Where the one under way stands.
    unfinished: String,
    /// The date at which it began.
    date: u64,
    /// How many octets of it were written.
    length: u64,
    /// Whether one is under way.
    is_open: bool,
}

impl RunningSave {
    /// Saves under this path. None is under way. `None` if there is no memory.
    pub fn new(alloc: Global, path: &str) -> Option<RunningSave>
        ensures idle { IfSome result (λ s. s.is_open ≡ false) }
        ensures path { IfSome result (λ s. string_bytes s.path ≡ path.now) }
        ensures unfinished { IfSome result (λ s. string_bytes s.unfinished ≡ beside path.now) }
    {
        let unfinished = path_beside(alloc, path)?;
        Some(RunningSave {
            saver: Saver::new(alloc).ok()?,
            path: String::from_str(alloc, path).ok()?,
            unfinished,
            date: 0,
            length: 0,
            is_open: false,
        })
    }

    /// Whether a save is under way.
    pub fn is_busy(&self) -> bool
        ensures { result ≡ self.now.is_open }
    {
        self.is_open
    }

    /// The path under which the last whole save stands.
    pub fn path(&self) -> &str
        ensures { result.now ≡ string_bytes self.now.path }
    {
        self.path.as_str()
    }

    /// Begins a save of the links that stand, in a new file.
    ///
    /// The error is that the file can't be created, or that there is no memory. Then none is under way, and a file that was
    /// created is removed.
    pub fn begin<W: Disk>(
        &mut self,
        world: &mut W,
        alloc: Global,
        concentrator: &Concentrator,
        begin: Begin,
    ) -> Result<(), Unwritten>
        ensures begins { Asks (W.acts world.old) (W.acts world.new)
            (EndsBegin begin concentrator.now self.old self.new result) }
    {
        self.is_open = false;
        match world.create(self.unfinished.as_str()) {
            Ok(()) => {}
            Err(trouble) => return Err(Unwritten::new(alloc, self.unfinished.as_str(), trouble)),
        }
        if self.saver.begin(alloc, concentrator, begin.moment).is_err() {
            self.give_up(world);
            return Err(Unwritten::Memory);
        }
        self.date = begin.date;
        self.length = 0;
        self.is_open = true;
        Ok(())
    }

    /// Gives up the save under way and removes its file. If none is under way, it asks for nothing.
    pub fn stop<W: Disk>(&mut self, world: &mut W)
        ensures { Asks (W.acts world.old) (W.acts world.new) (Stops self.old self.new) }
    {
        if self.is_open {
            self.give_up(world);
        }
    }

    /// Closes and removes the file of the save under way. None is, from then on.
    fn give_up<W: Disk>(&mut self, world: &mut W)
        ensures { Asks (W.acts world.old) (W.acts world.new) (GivesUp self.old self.new) }
    {
        self.is_open = false;
        world.close();
        let _ = world.remove(self.unfinished.as_str());
    }

    /// Gives up for a trouble with the file of the save under way.
    fn fail<W: Disk>(&mut self, world: &mut W, alloc: Global, trouble: Trouble) -> Unwritten
        ensures { Asks (W.acts world.old) (W.acts world.new) (GivesUp self.old self.new) }
    {
        self.give_up(world);
        Unwritten::new(alloc, self.unfinished.as_str(), trouble)
    }

    /// Puts the save that is whole in the place of the one before. It gets the date at which it began, if the system can give
    /// it one.
    fn put_in_place<W: Disk>(&mut self, world: &mut W, alloc: Global) -> Result<Progress, Unwritten>
        ensures { Asks (W.acts world.old) (W.acts world.new) (EndsPlacing self.old self.new result) }
    {
        self.is_open = false;
        let _ = world.set_modified(self.date);
        world.close();
        match world.rename(self.unfinished.as_str(), self.path.as_str()) {
            Ok(()) => Ok(Progress::Ends(self.length)),
            Err(trouble) => {
                let _ = world.remove(self.unfinished.as_str());
                Err(Unwritten::new(alloc, self.path.as_str(), trouble))
            }
        }
    }

    /// Goes on with the save under way: looks at the next CIDs, or writes the next octets. After the last octet the file
    /// replaces that of the save before.
    ///
    /// The error is that the file can't be written or renamed. Then it is removed, and no save is under way.
    pub fn go_on<W: Disk>(
        &mut self,
        world: &mut W,
        alloc: Global,
        concentrator: &Concentrator,
    ) -> Result<Progress, Unwritten>
        ensures goes { (moment : ℕ) (heads : List Head) (seen : List Concentrator) (octets : List ℕ) →
            IsRunning moment heads seen octets self.old → Asks (W.acts world.old) (W.acts world.new)
            (GoesOn moment heads seen octets concentrator.now self.old self.new result) }
    {
        let piece = self.saver.piece();
        if piece.is_empty() {
            self.saver.gather(concentrator);
            return Ok(Progress::Goes);
        }
        let count = match world.write(piece) {
            Ok(0) => return Err(self.fail(world, alloc, NOTHING_ACCEPTED)),
            Ok(count) => count,
            Err(trouble) => return Err(self.fail(world, alloc, trouble)),
        };
        self.saver.take(count);
        self.length = self.length.saturating_add(count as u64);
        if self.saver.is_busy() {
            return Ok(Progress::Goes);
        }
        self.put_in_place(world, alloc)
    }
}
