//! The outside of a program.

ghost use Rattle.std.specs.Prelude.{None, ◌≤◌, [], ◌∷◌, length, List, Option, IfOk};
ghost use Rattle.rohc_world.specs.Acts.{Act, Opened, read, Created, Wrote, Synced, Closed, Renamed, Removed, SyncedFolder, Modified, SetModified, Dated, Timed, Logged, AddsActs};

use crate::trouble::Trouble;

/// An outside that may know its acts.
pub trait Traced {
    // What was asked and what was answered, in order, if that is known.
    ghost acts: { Self → Option (List Act) } = { λ _. None };
}

/// The files of the outside. At most one file is open.
pub trait Disk: Traced {
    /// Opens a file, to be read from its first octet. A file that was open is closed.
    fn open(&mut self, path: &str) -> Result<(), Trouble>
        ensures told { AddsActs (Self.acts self.old) (Self.acts self.new) (Opened path.now result ∷ []) };

    /// Reads the next octets of the open file into the buffer, and returns how many. It returns 0 at the end of the file.
    fn read(&mut self, buffer: &mut [u8]) -> Result<usize, Trouble>
        ensures within { IfOk result (λ size. size ≤ length buffer.new) }
        ensures told { AddsActs (Self.acts self.old) (Self.acts self.new) (read result buffer.new ∷ []) };

    /// Opens a file to be written, and makes it empty. A file that was open is closed.
    fn create(&mut self, path: &str) -> Result<(), Trouble>
        ensures told { AddsActs (Self.acts self.old) (Self.acts self.new) (Created path.now result ∷ []) };

    /// Appends octets to the open file, and returns how many it accepted.
    fn write(&mut self, octets: &[u8]) -> Result<usize, Trouble>
        ensures within { IfOk result (λ size. size ≤ length octets.now) }
        ensures told { AddsActs (Self.acts self.old) (Self.acts self.new) (Wrote octets.now result ∷ []) };

    /// Waits until the device has the octets of the open file.
    fn sync(&mut self) -> Result<(), Trouble>
        ensures told { AddsActs (Self.acts self.old) (Self.acts self.new) (Synced result ∷ []) };

    /// Closes the open file.
    fn close(&mut self)
        ensures told { AddsActs (Self.acts self.old) (Self.acts self.new) (Closed ∷ []) };

    /// Renames a file. It replaces a file that has the new name.
    fn rename(&mut self, from: &str, to: &str) -> Result<(), Trouble>
        ensures told { AddsActs (Self.acts self.old) (Self.acts self.new) (Renamed from.now to.now result ∷ []) };

    /// Removes a file.
    fn remove(&mut self, path: &str) -> Result<(), Trouble>
        ensures told { AddsActs (Self.acts self.old) (Self.acts self.new) (Removed path.now result ∷ []) };

    /// Waits until the device has the names of a folder.
    fn sync_folder(&mut self, path: &str) -> Result<(), Trouble>
        ensures told { AddsActs (Self.acts self.old) (Self.acts self.new) (SyncedFolder path.now result ∷ []) };

    /// Sets when the open file was written last.
    fn set_modified(&mut self, date: u64) -> Result<(), Trouble>
        ensures told { AddsActs (Self.acts self.old) (Self.acts self.new) (SetModified date result ∷ []) };

    /// When a file was written last, by the system's clock of then, in milliseconds since 1970.
    fn modified(&mut self, path: &str) -> Result<u64, Trouble>
        ensures told { AddsActs (Self.acts self.old) (Self.acts self.new) (Modified path.now result ∷ []) };
}

/// The clocks of the outside.
pub trait Clocks: Traced {
    /// The system's clock, in milliseconds since 1970. It may be set ahead or back at any time.
    fn date(&mut self) -> Result<u64, Trouble>
        ensures told { AddsActs (Self.acts self.old) (Self.acts self.new) (Dated result ∷ []) };

    /// The monotonic clock, in milliseconds since some moment in the past. Nobody sets it.
    fn uptime(&mut self) -> Result<u64, Trouble>
        ensures told { AddsActs (Self.acts self.old) (Self.acts self.new) (Timed result ∷ []) };
}

/// The log of the outside.
pub trait Journal: Traced {
    /// Writes a line to the log.
    fn log(&mut self, line: &[u8]) -> Result<(), Trouble>
        ensures told { AddsActs (Self.acts self.old) (Self.acts self.new) (Logged line.now result ∷ []) };
}

/// The outside of a program.
pub trait World: Disk + Clocks + Journal {}
