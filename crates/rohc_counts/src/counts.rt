//! Counting answers.

ghost use Rattle.std.specs.Prelude.{◌≡◌, ℕ, Option, length, option_map};
ghost use Rattle.rohc_frame.specs.Reading.{elements_of};
ghost use Rattle.rohc_feedback.specs.declared.meaning.Word.{Word};
ghost use Rattle.rohc_counts.specs.Counted.{IsFed, MoreAt, counted, front_count, number_of_word, outcome_number, word_number};

use crate::word::word_of;
use rohc_concentrator::Answer;
use rohc_context::Outcome;
use rohc_feedback::{Element, Word};
use rohc_frame::Elements;

/// The number of a packet among the outcomes.
const DELIVERED: u8 = 0;

/// The number of a context that was made or renewed without a packet, among the outcomes.
const STORED: u8 = 31;

/// How many answers of each kind there were. Each number stays at the greatest `u64`.
#[derive(Clone, Copy)]
#[repr(C)]
pub struct Counts {
    /// By outcome: at 0 the packets, at 1 to 30 the refusals by their numbers, and at 31 the contexts that were made or
    /// renewed without a packet.
    pub outcomes: [u64; 32],
    /// Packets of padding and feedback alone.
    pub fronts: u64,
    /// Feedback for the compressor, by kind: ACK, NACK, STATIC-NACK, and FEEDBACK-1 of profile 0x0000.
    pub words: [u64; 4],
    /// Feedback elements for this side's compressor.
    pub relayed: u64,
}

impl Counts {
    ghost use Rattle.std.specs.Prelude.{◌≡◌, ◌<◌, ℕ, List, Option, option_map, slice_index};
    ghost use Rattle.rohc_feedback.specs.declared.meaning.Word.{Word};
    ghost use Rattle.rohc_concentrator.specs.Report.{report_of};
    ghost use Rattle.rohc_counts.specs.Counted.{HasParts, IsCounted, IsFed};

    /// No answers.
    pub fn new() -> Self
        ensures outcomes { (k : ℕ) → slice_index result.outcomes k ≡ 0 }
        ensures words { (k : ℕ) → slice_index result.words k ≡ 0 }
        ensures fronts { result.fronts ≡ 0 }
        ensures relayed { result.relayed ≡ 0 }
    {
        Counts {
            outcomes: [0; 32],
            fronts: 0,
            words: [0; 4],
            relayed: 0,
        }
    }

    /// Counts an answer.
    pub fn count(&mut self, answer: &Answer<'_>)
        ensures { IsCounted (report_of answer.now) self.old self.new }
    {
        match answer {
            Answer::Arrived {
                cid,
                reply,
                relayed,
            } => {
                let outcome = outcome_number(reply.outcome);
                let feedback = reply.feedback.as_ref().map(Element::as_slice);
                self.count_numbers(Some(outcome), *cid, feedback, element_count(*relayed));
            }
            Answer::OnlyFront { relayed } => {
                self.count_numbers(None, 0, None, element_count(*relayed));
            }
            Answer::Refused(refusal) => {
                self.count_numbers(Some(refusal.number()), 0, None, 0);
            }
        }
    }

    /// Counts an answer by its parts: the outcome's number, or `None` for padding and feedback alone; the feedback for
    /// the compressor of this CID; and how many elements are for this side's. A number from 32 on is no outcome.
    pub fn count_numbers(
        &mut self,
        outcome: Option<u8>,
        cid: u16,
        feedback: Option<&[u8]>,
        relayed: u64,
    )
        ensures { (word : Option Word) × IsFed cid (option_map (λ r. r.now) feedback.entry) word × HasParts outcome word relayed self.old self.new }
    {
        let word = fed_number(cid, feedback);
        add_at(&mut self.outcomes, outcome);
        add_at(&mut self.words, word);
        self.relayed = self.relayed.saturating_add(relayed);
        self.fronts = self.fronts.saturating_add(front_count(outcome));
    }
}

/// The number of an outcome: 0 for a packet, 31 if a context was made or renewed without one, else the refusal's.
#[inline(always)]
pub fn outcome_number(outcome: Outcome) -> u8
    ensures { result ≡ outcome_number outcome }
{
    match outcome {
        Outcome::Delivered => DELIVERED,
        Outcome::Stored => STORED,
        Outcome::Refused(refusal) => refusal.number(),
    }
}

/// How many packets of padding and feedback alone an answer is, by its outcome's number.
fn front_count(outcome: Option<u8>) -> u64
    ensures { result ≡ front_count outcome }
{
    match outcome {
        Some(_) => 0,
        None => 1,
    }
}

/// The number of a kind of feedback.
fn word_number(word: Word) -> u8
    ensures { result ≡ word_number word }
{
    match word {
        Word::Ack => 0,
        Word::Nack => 1,
        Word::StaticNack => 2,
        Word::Plain => 3,
    }
}

/// The number of the kind of the feedback for this CID, if there is feedback.
fn fed_number(cid: u16, feedback: Option<&[u8]>) -> Option<u8>
    ensures { (word : Option Word) × IsFed cid (option_map (λ r. r.now) feedback.entry) word × (result ≡ number_of_word word) }
{
    match feedback {
        Some(element) => match word_of(cid, element) {
            Some(word) => Some(word_number(word)),
            None => None,
        },
        None => None,
    }
}

/// How many elements there are, up to the greatest `u64`.
fn element_count(elements: Elements<'_>) -> u64
    ensures { result ≡ counted 0 (length (elements_of elements.entry)) }
{
    let mut count = 0_u64;
    for _ in elements {
        count = count.saturating_add(1);
    }
    count
}

/// Counts one more at this number, if it is one of them.
fn add_at(counts: &mut [u64], number: Option<u8>)
    ensures more { MoreAt (length counts.old) number counts.old counts.new }
    ensures len { length counts.new ≡ length counts.old }
{
    if let Some(number) = number {
        let place = usize::from(number);
        if place < counts.len() {
            counts[place] = counts[place].saturating_add(1);
        }
    }
}
