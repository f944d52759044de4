//! Offering answers to a writer, as lines.

ghost use Rattle.std.specs.Prelude.{◌+◌, ◌<◌, ◌≤◌, ◌≡◌, ◌^◌, length, take};
ghost use Rattle.std.specs.Io.KnownBytes.{Appends};
ghost use Rattle.rohc_context.specs.Response.{response_of};
ghost use Rattle.rohc_replay.specs.AnswerLines.{text_of, stored_lines, feedback_lines, refused_lines};
ghost use Rattle.rohc_replay.specs.LineText.{text_in};
ghost use Rattle.rohc_replay.specs.Offers.{OffersText};
ghost use Rattle.std.specs.Prelude.{◌++◌};

use crate::line_text::{LineText, PART, ROOM};
use rohc_concentrator::Answer;
use rohc_context::{Outcome, Refusal, Reply};
use rohc_frame::Elements;
use std::io::Write;

/// A write failed or took no octets.
#[derive(Clone, Copy, PartialEq, Eq)]
pub(crate) struct Stopped;

/// Writes a text by single calls, until one fails or takes no octets. Returns how many octets were taken.
fn give<W: Write>(writer: &mut W, text: &[u8]) -> usize
    ensures within { result ≤ length text.now }
    ensures taken { Appends (W.contents writer.old) (W.contents writer.new) (take result text.now) }
{
    let mut at = 0;
    while at < text.len() {
        match writer.write(&text[at..]) {
            Ok(0) | Err(_) => return at,
            Ok(count) => at += count,
        }
    }
    at
}

/// Appends the line `stored`, if that is the outcome.
fn put_stored(line: &mut LineText, link: u16, cid: u16, outcome: Outcome)
    requires { line.old.len + 19 ≤ ROOM }
    ensures text { text_in line.new ≡ text_in line.old ++ text_of (stored_lines link cid outcome) }
    ensures len { line.new.len ≤ line.old.len + 19 }
{
    if outcome == Outcome::Stored {
        line.put_pair(link, cid);
        line.put(b"stored\n");
    }
}

/// Appends the line of a reply's feedback, if there is some.
fn put_feedback(line: &mut LineText, link: u16, cid: u16, reply: &Reply<'_>)
    requires { line.old.len + 39 ≤ ROOM }
    ensures text { text_in line.new ≡ text_in line.old
        ++ text_of (feedback_lines link cid (response_of reply.now).feedback) }
    ensures len { line.new.len ≤ line.old.len + 39 }
{
    if let Some(feedback) = &reply.feedback {
        line.put_pair(link, cid);
        line.put(b"feedback ");
        line.put_octets(feedback.as_slice());
        line.put(b"\n");
    }
}

/// Appends the line of a refusal, if that is the outcome.
fn put_refused(line: &mut LineText, link: u16, cid: u16, outcome: Outcome)
    requires { line.old.len + 37 ≤ ROOM }
    ensures text { text_in line.new ≡ text_in line.old ++ text_of (refused_lines link cid outcome) }
    ensures len { line.new.len ≤ line.old.len + 37 }
{
    if let Outcome::Refused(refusal) = outcome {
        line.put_pair(link, cid);
        line.put(b"refused ");
        line.put(refusal.name().as_bytes());
        line.put(b"\n");
    }
}

/// Answers on their way to a writer.
#[derive(Drop)]
pub(crate) struct Answers {
    /// The start of a line that has not been offered yet.
    line: LineText,
    /// The number of octets that the writer took.
    pub(crate) taken: u64,
    ghost in_range: { taken < 2 ^ 64 },
}

impl Answers {
    ghost use Rattle.std.specs.Prelude.{[], ◌∷◌, ◌++◌, map, ◌*◌};
    ghost use Rattle.hex.specs.Hex.{encode_lower};
    ghost use Rattle.rohc_frame.specs.Reading.{elements_of};
    ghost use Rattle.rohc_context.specs.Response.{response_of};
    ghost use Rattle.rohc_concentrator.specs.Report.{report_of};
    ghost use Rattle.rohc_replay.specs.Script.{hex_text};
    ghost use Rattle.rohc_replay.specs.AnswerLines.{report_lines, link_refusal, relay_line, response_lines, packet_lines};

    /// No answers yet.
    pub(crate) fn new() -> Self
        ensures { result.taken ≡ 0 }
    {
        Answers {
            line: LineText::new(),
            taken: 0,
        }
    }

    /// Offers the octets of the line so far, by single writes, and counts the octets that are taken.
    fn offer_line<W: Write>(&mut self, writer: &mut W) -> Result<(), Stopped>
        ensures { OffersText (W.contents writer.old) (W.contents writer.new) self.old.taken self.new.taken
            (text_in self.old.line) result }
    {
        let answers = &*self;
        let text = answers.line.as_slice();
        let len = text.len();
        let count = give(writer, text);
        self.taken = self.taken.saturating_add(count as u64);
        if count == len { Ok(()) } else { Err(Stopped) }
    }

    /// Offers a line with its newline.
    pub(crate) fn offer_text<W: Write>(
        &mut self,
        writer: &mut W,
        text: &[u8],
    ) -> Result<(), Stopped>
        requires { length text.now ≤ ROOM }
        ensures { OffersText (W.contents writer.old) (W.contents writer.new) self.old.taken self.new.taken
            text.now result }
    {
        self.line.clear();
        self.line.put(text);
        self.offer_line(writer)
    }

    /// Offers a line that ends with octets: the line so far, `head` and `rest` as hex text, and a newline. What
    /// doesn't fit into the buffer is offered in parts.
    // Inlined, since nearly every answer is such a line.
    #[inline(always)]
    fn offer_octets<W: Write>(
        &mut self,
        writer: &mut W,
        head: &[u8],
        rest: &[u8],
    ) -> Result<(), Stopped>
        requires few { length head.now ≤ PART }
        requires room { self.old.line.len + 2 * PART < ROOM }
        ensures { OffersText (W.contents writer.old) (W.contents writer.new) self.old.taken self.new.taken
            (text_in self.old.line ++ hex_text (head.now ++ rest.now) ++ 10 ∷ []) result }
    {
        if head.is_empty() && rest.is_empty() {
            self.line.put(b"-\n");
            return self.offer_line(writer);
        }
        self.line.put_hex(head);
        self.offer_digits(writer, rest)
    }

    /// Offers the line so far, octets as pairs of lower case digits, and a newline.
    fn offer_digits<W: Write>(&mut self, writer: &mut W, octets: &[u8]) -> Result<(), Stopped>
        requires { self.old.line.len < ROOM }
        ensures { OffersText (W.contents writer.old) (W.contents writer.new) self.old.taken self.new.taken
            (text_in self.old.line ++ encode_lower octets.now ++ 10 ∷ []) result }
    {
        for part in octets.chunks(PART) {
            if self.line.room() <= 2 * part.len() {
                self.offer_line(writer)?;
                self.line.clear();
            }
            self.line.put_hex(part);
        }
        self.line.put(b"\n");
        self.offer_line(writer)
    }

    /// Offers the line of one feedback element that the packet carried for this side's compressor.
    // Not inlined, since few packets carry one.
    #[inline(never)]
    fn offer_relay<W: Write>(
        &mut self,
        writer: &mut W,
        link: u16,
        feedback: &[u8],
    ) -> Result<(), Stopped>
        ensures { OffersText (W.contents writer.old) (W.contents writer.new) self.old.taken self.new.taken
            (relay_line link feedback.now ++ 10 ∷ []) result }
    {
        self.line.clear();
        self.line.put_number(link);
        self.line.put(b" - relay ");
        self.offer_octets(writer, &[], feedback)
    }

    /// Offers the line of each feedback element.
    // Inlined, so that no function is called for a packet without feedback, as most are.
    #[inline(always)]
    fn offer_relays<W: Write>(
        &mut self,
        writer: &mut W,
        link: u16,
        relayed: Elements<'_>,
    ) -> Result<(), Stopped>
        ensures { OffersText (W.contents writer.old) (W.contents writer.new) self.old.taken self.new.taken
            (text_of (map (relay_line link) (elements_of relayed.entry))) result }
    {
        for feedback in relayed {
            self.offer_relay(writer, link, feedback)?;
        }
        Ok(())
    }

    /// Offers the line of a reply's packet, if there is one.
    fn offer_packet<W: Write>(
        &mut self,
        writer: &mut W,
        link: u16,
        cid: u16,
        reply: &Reply<'_>,
    ) -> Result<(), Stopped>
        ensures { OffersText (W.contents writer.old) (W.contents writer.new) self.old.taken self.new.taken
            (text_of (packet_lines link cid (response_of reply.now).packet)) result }
    {
        let Some(packet) = &reply.packet else {
            return Ok(());
        };
        self.line.clear();
        self.line.put_pair(link, cid);
        self.line.put(b"ip ");
        self.offer_octets(writer, packet.head.as_slice(), packet.payload)
    }

    /// Offers the lines of a reply: the packet, `stored`, the feedback and the refusal, each if there is one.
    fn offer_reply<W: Write>(
        &mut self,
        writer: &mut W,
        link: u16,
        cid: u16,
        reply: &Reply<'_>,
    ) -> Result<(), Stopped>
        ensures { OffersText (W.contents writer.old) (W.contents writer.new) self.old.taken self.new.taken
            (text_of (response_lines link cid (response_of reply.now))) result }
    {
        self.offer_packet(writer, link, cid, reply)?;
        self.line.clear();
        put_stored(&mut self.line, link, cid, reply.outcome);
        put_feedback(&mut self.line, link, cid, reply);
        put_refused(&mut self.line, link, cid, reply.outcome);
        if self.line.is_empty() {
            return Ok(());
        }
        self.offer_line(writer)
    }

    /// Offers the lines of an answer: the relayed feedback, and then the reply.
    pub(crate) fn offer_answer<W: Write>(
        &mut self,
        writer: &mut W,
        link: u16,
        answer: &Answer<'_>,
    ) -> Result<(), Stopped>
        ensures { OffersText (W.contents writer.old) (W.contents writer.new) self.old.taken self.new.taken
            (text_of (report_lines link (report_of answer.now))) result }
    {
        match answer {
            Answer::Arrived {
                cid,
                reply,
                relayed,
            } => {
                self.offer_relays(writer, link, *relayed)?;
                self.offer_reply(writer, link, *cid, reply)
            }
            Answer::OnlyFront { relayed } => self.offer_relays(writer, link, *relayed),
            Answer::Refused(refusal) => self.offer_refusal(writer, link, *refusal),
        }
    }

    /// Offers the line of a refusal without a CID.
    pub(crate) fn offer_refusal<W: Write>(
        &mut self,
        writer: &mut W,
        link: u16,
        refusal: Refusal,
    ) -> Result<(), Stopped>
        ensures { OffersText (W.contents writer.old) (W.contents writer.new) self.old.taken self.new.taken
            (text_of (link_refusal link refusal ∷ [])) result }
    {
        self.line.clear();
        self.line.put_number(link);
        self.line.put(b" - refused ");
        self.line.put(refusal.name().as_bytes());
        self.line.put(b"\n");
        self.offer_line(writer)
    }
}
