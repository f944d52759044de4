//! Laws of replays, as contracts of functions that do nothing. Most compare two runs, which no contract of one call
//! can do.

ghost use Rattle.rohc_replay.specs.Laws.{HasOneScript, SameLines, BeginsAlike, ReadLeavesFront, WriteLeavesFront, FlushLeavesAll, LinesOfWhatWasSent};

/// A text is at most one script.
pub fn one_script()
    ensures { HasOneScript }
{}

/// If two replays agree on a CID of a link, in its own events, its settings and its record before, they write the
/// same lines for it and leave it equal records, lack of memory aside.
pub fn same_lines()
    ensures { SameLines }
{}

/// A run of a script's first lines answers what a run of the whole script answers first, if the same events find no
/// memory.
pub fn begins_alike()
    ensures { BeginsAlike }
{}

/// What a failed replay has written is a prefix of what a whole replay of the text writes, if the same events find no
/// memory. If the flush failed, it is all of it.
pub fn faults_leave_a_front()
    ensures read { ReadLeavesFront }
    ensures write { WriteLeavesFront }
    ensures flush { FlushLeavesAll }
{}

/// What is delivered was sent, in lines. Let the own events of a CID of a link be what arrives of an honest sender's
/// packets, with fewer than w lost in a row. Then its lines show exactly the headers and payloads that were sent,
/// whatever else the script holds (RFC 3095 4.5.2).
pub fn lines_of_what_was_sent()
    ensures { LinesOfWhatWasSent }
{}
