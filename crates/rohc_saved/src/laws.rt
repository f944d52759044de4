//! Laws of saved concentrators, as contracts of functions that do nothing.

ghost use Rattle.rohc_saved.specs.Laws.{FormIsSpelled, IsReadBack, MomentIsInFront, ComesBack, ComesBackFallen, LinkComesBack, CutByRestart, CutCallsByRestart};
ghost use Rattle.rohc_saved.specs.Laws.{IsMadeSound, IsKeptSound, IsRestoredSound, IsLinkRestoredSound};
ghost use Rattle.rohc_concentrator.specs.Sound.{CallsKeepSound};

/// Octets that are read as a form are those of that form, and the octets of a good form are read as that form. Its moment is
/// the one that the first octets tell.
pub fn spelled()
    ensures spelled { FormIsSpelled }
    ensures back { IsReadBack }
    ensures moment { MomentIsInFront }
{}

/// What is saved of a concentrator, restored under the same settings, is a concentrator that keeps the same. Restored
/// fallen, it keeps the same but for its records, each of which fell.
pub fn comes_back()
    ensures whole { ComesBack }
    ensures fallen { ComesBackFallen }
{}

/// What is saved of one link, restored in a concentrator that has it under the same setting, is the same link.
pub fn link_comes_back()
    ensures { LinkComesBack }
{}

/// Concentrators that were made from settings are sound, all calls keep them so, and so is one that keeps all that a sound
/// one keeps, one that was restored, also under other settings, and one of which a link was restored.
pub fn sound()
    ensures made { IsMadeSound }
    ensures stays { CallsKeepSound }
    ensures kept { IsKeptSound }
    ensures restored { IsRestoredSound }
    ensures link { IsLinkRestoredSound }
{}

/// A run is cut anywhere by a restart. Then the CID of a link gets the replies of the whole run, and has the record
/// that the whole run leaves, lack of memory aside. So it is if any calls come between arrivals and resets.
pub fn cut_by_restart()
    ensures events { CutByRestart }
    ensures calls { CutCallsByRestart }
{}
