//! Laws of the definitions, as contracts of functions that do nothing. The crates above rely on them
//! for what a packet says.

ghost use Rattle.rohc_chain.specs.Laws.{ReadsIrs, RefusesIrs, SaysOne, SaysGood, ReadsIrDyns, RefusesIrDyns, DynSaysOne, DynSaysGood, SpellsEachStatic, SpellsEachDynamic, RowsInPlace};
ghost use Rattle.rohc_chain.specs.Shown.{ShowsIr, ShowsCutIr, ShowsIrDyn};

/// An IR of octets is read exactly if its octets encode what is read and the rebuilt packet isn't too
/// long. Otherwise its first fault is the refusal. An IR says at most one thing, and its numbers are
/// in the ranges of their fields.
pub fn one_ir()
    ensures reads { ReadsIrs }
    ensures refuses { RefusesIrs }
    ensures unique { SaysOne }
    ensures good { SaysGood }
{}

/// The same for an IR-DYN. Its numbers are in their ranges if the stride that is kept is.
pub fn one_ir_dyn()
    ensures reads { ReadsIrDyns }
    ensures refuses { RefusesIrDyns }
    ensures unique { DynSaysOne }
    ensures good { DynSaysGood }
{}

/// Each static chain and each dynamic chain whose numbers are in their ranges can be encoded in
/// octets.
pub fn each_chain()
    ensures fixed { SpellsEachStatic }
    ensures moving { SpellsEachDynamic }
{}

/// What a chain says of an octet with several fields stands at their places.
pub fn in_place()
    ensures { RowsInPlace }
{}

/// The fields of a worked IR, of one that is cut off, and of a worked IR-DYN stand where those who show packets say.
pub fn shown()
    ensures ir { ShowsIr }
    ensures cut { ShowsCutIr }
    ensures ir_dyn { ShowsIrDyn }
{}
