//! What follows from the acts of a save, and from the clocks.

ghost use Rattle.rohc_loop.specs.Laws.{SavesWhole};
ghost use Rattle.rohc_loop.specs.Moments.{GoesOn, PassesAsUptime};

/// Each rename of a save is of a file that has all octets, and they are on the device.
pub fn saves_whole()
    ensures { SavesWhole }
{}

/// The moments of a run go on from the saved one.
pub fn goes_on()
    ensures { GoesOn }
{}

/// Between two readings as much time passes as on the monotonic clock.
pub fn passes_as_uptime()
    ensures { PassesAsUptime }
{}
