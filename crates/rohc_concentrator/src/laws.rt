//! Laws of the concentrator, as contracts of functions that do nothing.

ghost use Rattle.rohc_context.specs.Laws.{HasAnswer, HasNoOther};
ghost use Rattle.rohc_concentrator.specs.Laws.{TwoWorlds, NoTrace, WantIsRefusal, TakenUpOrRefused, TakenHasALink, HoldsGoodRecords, FaultyIsNotFine, FineOrFaulty, HasOneFault, MarkedIsAcceptedIr, LoneRunIsUnmarked, IsolatedEvents, SameReplies, ExpiredIsNone};
ghost use Rattle.rohc_concentrator.specs.Cut.{CutRun};
ghost use Rattle.rohc_concentrator.specs.OwnCalls.{IsolatedCalls};
ghost use Rattle.rohc_concentrator.specs.CallLaws.{SameAnswers, CutCalls, NoTraceOfCalls};
ghost use Rattle.rohc_concentrator.specs.Sound.{CallsKeepSound};
ghost use Rattle.rohc_concentrator.specs.LinkCalls.{IsolatedLinks, SameLinks};
ghost use Rattle.rohc_concentrator.specs.Honest.{DeliversWhatWasSent, AsksOrdinaryAlone, IsHonestEitherWay, HasHonestRun, HasHonestSender};
ghost use Rattle.rohc_concentrator.specs.Trimmed.{TrimmedIsRead};

/// For good values, an arrival has exactly one answer, and exactly one record after it, or none.
pub fn one_answer()
    ensures exists { HasAnswer }
    ensures unique { HasNoOther }
{
    rohc_context::laws::one_answer();
}

/// Let two concentrators agree on a CID of a link: in its settings and its record. Then both answer an arrival for
/// that CID alike and keep equal records of it, whatever else they hold, unless memory runs out at one.
pub fn two_worlds()
    ensures { TwoWorlds }
{}

/// An arrival that is refused, also for lack of memory, makes no record.
pub fn no_trace()
    ensures { NoTrace }
{}

/// An arrival that finds no memory is refused. An arrival is refused exactly if it isn't taken up: as feedback alone,
/// delivered or stored. An arrival that isn't refused came on a link that is there.
pub fn refusals()
    ensures want { WantIsRefusal }
    ensures exact { TakenUpOrRefused }
    ensures taken { TakenHasALink }
{}

/// Every record that a concentrator holds is good.
pub fn good_records()
    ensures { HoldsGoodRecords }
{}

/// Settings are fine or have exactly one fault, and not both.
pub fn fine_or_faulty()
    ensures exclusive { FaultyIsNotFine }
    ensures either { FineOrFaulty }
    ensures one { HasOneFault }
{}

/// A record that has expired is answered as none is.
pub fn expired_is_none()
    ensures { ExpiredIsNone }
{
    rohc_context::laws::waiting_times();
}

/// A marked arrival is an IR that the lone step accepts, for a CID without a record.
pub fn marked_is_accepted_ir()
    ensures { MarkedIsAcceptedIr }
{}

/// The lone run is the marked run of events without a mark.
pub fn lone_run_is_unmarked()
    ensures { LoneRunIsUnmarked }
{}

/// Whatever events a concentrator takes one after another, each CID of each link gets the answers of one context
/// run alone over its own events.
pub fn isolated_events()
    ensures { IsolatedEvents }
{}

/// Let two runs of events agree on a CID of a link: in its own events, its settings and its record before. Then
/// both answer it alike and leave it equal records, lack of memory aside, whatever else they hold.
pub fn same_replies()
    ensures { SameReplies }
{}

/// A run is cut anywhere, and another concentrator goes on that agrees on a CID of a link with what was kept at the cut.
/// Then the CID gets the replies of the whole run, and has the record that the whole run leaves, lack of memory aside.
pub fn cut_run()
    ensures { CutRun }
{}

/// What is delivered was sent. Let a sender write each packet for each of the last w references, let fewer than w
/// packets be lost in a row, and let those that arrive be ordinary and none come too late. Then one context in Full
/// Context delivers exactly the headers and payloads that the packets were written for (RFC 3095 4.5.2).
pub fn honest_runs()
    ensures delivered { DeliversWhatWasSent }
    ensures ordinary { AsksOrdinaryAlone }
    ensures places { IsHonestEitherWay }
    ensures exists { HasHonestRun }
    ensures sender { HasHonestSender }
{}

/// Whatever calls change a concentrator one after another, each CID of each link gets the answers that one context alone
/// would give to its own calls, and each link the answers of that link alone. Calls that are refused for lack of memory, or
/// since there are too many links, are left out: what others hold decides that.
pub fn isolated_calls()
    ensures cids { IsolatedCalls }
    ensures links { IsolatedLinks }
{}

/// Let two runs of calls begin alike for a CID, or for a link, with the same calls of its own. Then both answer it alike and
/// end alike for it, whatever else they hold, lack of memory and too many links aside.
pub fn same_answers()
    ensures cids { SameAnswers }
    ensures links { SameLinks }
{}

/// A run of calls is cut anywhere, and another goes on from what a CID saw at the cut. Then the CID gets the answers of the
/// whole run, and sees in the end what the whole run leaves.
pub fn cut_calls()
    ensures { CutCalls }
{}

/// A call that is refused makes no record, and changes no setting.
pub fn no_trace_of_calls()
    ensures { NoTraceOfCalls }
{}

/// Calls keep a concentrator sound: its settings are in order, and so are the CIDs of each link.
pub fn calls_keep_sound()
    ensures { CallsKeepSound }
{}

/// A trimmed packet has the feedback elements and the header of the packet, and bears the same CID. So isolation speaks of a run
/// of trimmed packets, each of which its own context alone trims.
pub fn trimmed_is_read()
    ensures { TrimmedIsRead }
{}
