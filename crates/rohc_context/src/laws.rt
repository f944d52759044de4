//! Laws of one step, as contracts of functions that do nothing. The crates above know a step by these laws alone.

ghost use Rattle.rohc_context.specs.Counts.{WindowsCount, FallsFromFull, FallsFromStatic};
ghost use Rattle.rohc_context.specs.Modes.{IsSilentInU, KeepsPrevious, HasOneTry, SavesByReference, KeepsFlags, MeansOneUnrefused};
ghost use Rattle.rohc_context.specs.Waits.{NacksAfterWait, WaitsToNack, IdleIsNone, CountsUntilIdle, TriesAfterWait, WaitsToTry};
ghost use Rattle.rohc_context.specs.Fallen.{StaysGood, StaysInTime, FallsAsByChecks, TakesUor2Alone};
ghost use Rattle.rohc_context.specs.Laws.{HasAnswer, HasNoOther, LeavesGood, BeginsByIr, LeavesNone, NeverPoor, KeepsGood, KeepsRefused, LendsPayload, ChecksChange, LowStatesChange, LowStatesRefuse, ComesToOne, MeansOne, TakesPlain, DeliversHonest, PromotesHonest, DeliversWritten, HasWritten};
ghost use Rattle.rohc_context.specs.RefusalLaws.{HasNumbers, NumbersDiffer, NamesDiffer, FoundByFraming, FoundInChains, FoundInForms, FoundByContexts, RefusesByRow, KeepsByRow, HasFinder};
ghost use Rattle.rohc_context.specs.SavedLaws.{ComesBack, RecordIsSpelled};
ghost use Rattle.rohc_context.specs.ShownLaws.{AnswersAsShown};
ghost use Rattle.rohc_context.specs.ExcessLaws.{CutFormIsRead, CutDynIsRead, CutIrIsRead, PaddedStaticIsCut};

/// A step from good values has exactly one answer, and exactly one record after it, or none.
pub fn one_answer()
    ensures exists { HasAnswer }
    ensures unique { HasNoOther }
{}

/// The record after a step from good values is good.
pub fn good_record()
    ensures { LeavesGood }
{}

/// Without a record, only an IR leads to one.
pub fn begins_by_ir()
    ensures { BeginsByIr }
{}

/// Without a record, a refused packet leaves none.
pub fn refusal_leaves_none()
    ensures { LeavesNone }
{}

/// No step answers `NoMemory`.
pub fn never_poor()
    ensures { NeverPoor }
{}

/// Every context that a program holds has a good record.
pub fn kept_record()
    ensures { KeepsGood }
{}

/// A refusal other than `Check` and `StateTooLow` changes nothing.
pub fn refusal_changes_nothing()
    ensures { KeepsRefused }
{}

/// The payload of a delivered packet is at most as long as what followed the header's first octet and CID.
pub fn payload_is_lent()
    ensures { LendsPayload }
{}

/// A refusal `Check` changes nothing if no record counts. Otherwise it leads to the state that follows a failed check,
/// and sends what is due.
pub fn check_changes_the_state()
    ensures { ChecksChange }
{}

/// A refusal `StateTooLow` comes from a record that counts, and whose state doesn't take the packet. It leads to the
/// state that follows such a packet, and sends what is due. Each such packet is refused so.
pub fn low_state_changes_the_state()
    ensures changes { LowStatesChange }
    ensures refuses { LowStatesRefuse }
{}

/// The tries of a packet come to at most one verdict: one header, and the reference against which it was decoded.
pub fn one_verdict()
    ensures { ComesToOne }
{}

/// Against a reference and a shift, a packet that was read means exactly one header (RFC 3095 4.5). Every packet of
/// kind Other that the state takes was read, unless its answer is a refusal below `Check`.
pub fn one_meaning()
    ensures read { MeansOne }
    ensures unrefused { MeansOneUnrefused }
{}

/// A window counts the outcomes of the answers since the last change of state or profile. Full Context falls exactly
/// at k1 failures among the last n1 outcomes, and Static Context at k2 failures among the last n2 (RFC 3095 5.3.2.2.3).
pub fn windows_count()
    ensures count { WindowsCount }
    ensures full { FallsFromFull }
    ensures fixed { FallsFromStatic }
{}

/// What waits for a time happens at that time and not a millisecond before: a STATIC-NACK, a record that no longer
/// counts, and the second try of a packet.
pub fn waiting_times()
    ensures nacks { NacksAfterWait }
    ensures waits { WaitsToNack }
    ensures idle { IdleIsNone }
    ensures counts { CountsUntilIdle }
    ensures tries { TriesAfterWait }
    ensures waits_to_try { WaitsToTry }
{}

/// In U mode a step is what it is in O mode, without its feedback.
pub fn silent_in_u()
    ensures { IsSilentInU }
{}

/// A previous reference comes only from a packet of kind Other in Full Context. A UOR-2 is never decoded against it.
pub fn previous_reference()
    ensures keeps { KeepsPrevious }
    ensures uor2 { HasOneTry }
{}

/// An IR-DYN without the octet of RTP's flags keeps the X and the stride of the held reference (RFC 3095 5.7.7.6).
pub fn kept_flags()
    ensures { KeepsFlags }
{}

/// A context keeps registers exactly if it has a reference.
pub fn saved_by_reference()
    ensures { SavesByReference }
{}

/// An IR of profile 0x0000 is taken in every state, and delivers its IP packet (RFC 3095 5.10.1).
pub fn plain_ir_delivered()
    ensures { TakesPlain }
{}

/// A packet that means a header against the held reference, and carries that header's check, is delivered as that
/// header. In Full Context the state stays. From Static Context a UOR-2 is acknowledged and leads to Full Context.
pub fn honest_step()
    ensures full { DeliversHonest }
    ensures fixed { PromotesHonest }
{}

/// A packet that was written against what Full Context holds is delivered as it was written. Full Context then
/// holds its header as the reference.
pub fn written_is_delivered()
    ensures delivered { DeliversWritten }
    ensures exists { HasWritten }
{}

/// A step answers as its tries are shown: if one fits, it delivers the header of the first that fits; if none fits, the
/// refusal is `Check`. A packet that is refused before its tries is refused for that reason.
pub fn shown_is_answered()
    ensures { AnswersAsShown }
{}

/// A fallen record is good, and counts as long as before. Full Context falls to the state to which failed checks lead it,
/// and which takes no packet of kind Other but the UOR-2 formats (RFC 3095 5.3.2.2).
pub fn fallen_record()
    ensures good { StaysGood }
    ensures in_time { StaysInTime }
    ensures as_by_checks { FallsAsByChecks }
    ensures uor2 { TakesUor2Alone }
{}

/// A packet that is cut behind its header and `n` octets is read as before, with the first `n` octets of its payload.
pub fn cut_is_read()
    ensures forms { CutFormIsRead }
    ensures dyns { CutDynIsRead }
    ensures irs { CutIrIsRead }
    ensures statics { PaddedStaticIsCut }
{}

/// What is saved of a good record is read as that record, and octets that are read as a record are what is saved of it.
pub fn saved_comes_back()
    ensures back { ComesBack }
    ensures spelled { RecordIsSpelled }
{}

/// The numbers of the refusals are 1 to 30, each once, and no two refusals have one name.
pub fn refusals_numbered()
    ensures numbers { HasNumbers }
    ensures differ { NumbersDiffer }
    ensures names { NamesDiffer }
{}

/// The table of refusals says what finds each: framing, the reading of a chain or of a format, the state of a context, or
/// the tables. No step answers what the tables find, and what no state finds changes nothing.
pub fn refusals_found()
    ensures framing { FoundByFraming }
    ensures chains { FoundInChains }
    ensures forms { FoundInForms }
    ensures contexts { FoundByContexts }
    ensures steps { RefusesByRow }
    ensures keeps { KeepsByRow }
    ensures any { HasFinder }
{}
