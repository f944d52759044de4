//! The laws of a station's whole life, of moved links, of reloads, and of names in its page, as contracts of functions that
//! do nothing.

ghost use Rattle.rohc_station.specs.Life.{LifeIsRun, LifeKeepsSound, IsolatedLife, IsolatedLinkLife, SameLives, SameLinkLives};
ghost use Rattle.rohc_station.specs.Answering.{TakenIsAnswered};
ghost use Rattle.rohc_station.specs.Service.{ServesInLife};
ghost use Rattle.rohc_station.specs.Moving.{MoveIsLife, MovedGoesOn};
ghost use Rattle.rohc_station.specs.Preview.{PreviewIsReload};
ghost use Rattle.rohc_station.specs.Shown.{NamesStayText};

/// All that a station does in its life is one run of calls of its concentrator. It keeps a sound concentrator sound.
pub fn whole_life()
    ensures runs { LifeIsRun }
    ensures sound { LifeKeepsSound }
{}

/// In a station's life each CID gets the answers that one context alone would give to its own calls, and each link those
/// of the link alone, whatever comes for others and whatever files say.
pub fn isolated_life()
    ensures cids { IsolatedLife }
    ensures links { IsolatedLinkLife }
{}

/// Let two lives begin alike for a CID, or for a link, with the same calls of its own. Then both answer it alike and end
/// alike for it, lack of memory and too many links aside.
pub fn same_lives()
    ensures cids { SameLives }
    ensures links { SameLinkLives }
{}

/// What is sent for a packet that was taken is what `rohc_serve::answer_datagram` sends for it.
pub fn taken_is_answered()
    ensures { TakenIsAnswered }
{}

/// What a service does at its ports is part of the life of its station: it answers datagrams that came, each at most once and
/// in their order.
pub fn served_is_life()
    ensures { ServesInLife }
{}

/// What a station does to go on with a link of another is part of its life. Once the contexts of the link are imported, it
/// answers the link as the other would have, lack of memory and too many links aside.
pub fn moved_link()
    ensures life { MoveIsLife }
    ensures goes_on { MovedGoesOn }
{}

/// A reload that is done adds, changes and removes as many links as a preview of the same links shows, and removes as many
/// contexts as the links of the preview lose together.
pub fn preview_is_reload()
    ensures { PreviewIsReload }
{}

/// No name of a link can put a tag, an entity of its own, the end of an attribute or a control character of ASCII into
/// the page.
pub fn names_stay_text()
    ensures { NamesStayText }
{}
