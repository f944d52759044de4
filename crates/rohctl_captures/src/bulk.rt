//! `decompress`: from a capture of ROHC packets to a capture of IP packets.

ghost use Rattle.std.specs.Prelude.{◌≡◌, ◌≢◌};

use crate::annotated::{Annotated, Annotator, Interfaces};
use crate::framing_words::framing_of;
use crate::narrow::{Narrow, Times, Which, unshown_end};
use crate::rules::{RuleWords, check_links, rules_of};
use crate::unmatched::no_frame;
use rohc_capture::{Capture, CaptureFault, FaultKind, Format};
use rohc_concentrator::Concentrator;
use rohc_decompress::{Bulk, BulkFault, Tally, begin, decompress};
use rohctl_ground::{
    Ending, Misuse, STREAM, Screen, Target, concentrator_of, keep_apart, make_target, open_told,
    target_of,
};
use std::io::{self, Printer, Read, Write};
use std::rt::Files;
use std::time::Clock;

/// What is asked of `decompress`.
#[derive(Clone, Copy)]
pub struct Decompress<'a> {
    /// The links file.
    pub links: &'a str,
    /// The capture that is read.
    pub input: &'a str,
    /// The capture that is written.
    pub output: &'a str,
    /// The capture of feedback that is written, if one is asked for.
    pub feedback: Option<&'a str>,
    /// Which link a frame belongs to.
    pub rules: RuleWords<'a>,
    /// Whether a rebuilt packet ends at its IPv4 total length.
    pub padded: bool,
    /// How long the payloads of links are, as LINK=N with commas between them.
    pub payload: Option<&'a str>,
    /// Whether counts are told.
    pub stats: bool,
    /// The form of what is written.
    pub format: Format,
    /// Which packets are written. Those before them lead to their contexts.
    pub which: Which,
    /// Between which times packets are written.
    pub times: Times,
}

/// The ending for a capture of this path that can't be read on. `unread` is the ending for a read that failed.
pub fn capture_end<'a>(path: &'a str, fault: CaptureFault, unread: Ending<'a>) -> Ending<'a>
    ensures memory { fault.kind ≡ FaultKind.NoMemory → result ≡ Ending.Memory }
    ensures read { fault.kind ≡ FaultKind.Read → result ≡ unread.entry }
    ensures capture { fault.kind ≢ FaultKind.NoMemory → fault.kind ≢ FaultKind.Read → result ≡ Ending.Capture path.entry fault }
{
    match fault.kind {
        FaultKind::NoMemory => Ending::Memory,
        FaultKind::Read => unread,
        _ => Ending::Capture(path, fault),
    }
}

/// Refuses to write a capture to a terminal.
pub(crate) fn refuse_terminal(output: &str, screen: Screen) -> Result<(), Ending<'static>> {
    if output == STREAM && screen.output {
        Err(Ending::Misuse(Misuse::Terminal))
    } else {
        Ok(())
    }
}

/// Writes the heads of both captures, and runs the one that is read.
fn run_into<S: Read, W: Write, V: Write>(
    links: &mut Concentrator,
    bulk: &Bulk<'_>,
    capture: &mut Capture<S>,
    packets: &mut W,
    feedback: &mut V,
    tally: &mut Tally,
) -> Result<(), BulkFault> {
    begin(bulk.format, packets, feedback)?;
    decompress(links, bulk, capture, packets, feedback, tally)
}

/// Runs a capture into this target. The writer's kind is told here, once, and not at each write.
fn run_to<S: Read, F: Write + Drop, P: Write + Drop, V: Write>(
    links: &mut Concentrator,
    bulk: &Bulk<'_>,
    capture: &mut Capture<S>,
    packets: &mut Target<F, P>,
    feedback: &mut V,
    tally: &mut Tally,
) -> Result<(), BulkFault> {
    match packets {
        Target::File(file) => run_into(links, bulk, capture, file, feedback, tally),
        Target::Output(output) => run_into(links, bulk, capture, output, feedback, tally),
        Target::Nothing => Ok(()),
    }
}

/// The captures that are written.
#[derive(Drop)]
struct Outputs<F: Write + Drop, P: Write + Drop> {
    packets: Target<F, P>,
    feedback: Target<F, P>,
}

impl<F: Write + Drop, P: Write + Drop> Outputs<F, P> {
    /// Flushes both. Returns whether that was done.
    fn flush(&mut self) -> bool {
        self.packets.flush().is_ok() && self.feedback.flush().is_ok()
    }

    /// The ending for a write of one of them that failed.
    fn unwritten<'a>(&self, asked: &Decompress<'a>) -> Ending<'a> {
        match asked.feedback {
            Some(path) if self.feedback.has_failed() => self.feedback.unwritten(path),
            _ => self.packets.unwritten(asked.output),
        }
    }
}

/// Makes the captures that are written. None of them may be an input.
fn make_outputs<'r, 'a, R: Files + Print + AllocGlobal>(
    rt: &'r R,
    asked: &Decompress<'a>,
) -> Result<Outputs<R::File, Printer<'r, R>>, Ending<'a>> {
    keep_apart(
        rt,
        &[asked.links, asked.input],
        &[Some(asked.output), asked.feedback],
    )?;
    Ok(Outputs {
        packets: make_target(rt, asked.output)?,
        feedback: target_of(rt, asked.feedback)?,
    })
}

/// Runs a capture into these targets. For feedback that nobody asked for the compiler leaves out the writing.
fn run_to_both<S: Read, F: Write + Drop, P: Write + Drop>(
    links: &mut Concentrator,
    bulk: &Bulk<'_>,
    capture: &mut Capture<S>,
    outputs: &mut Outputs<F, P>,
    tally: &mut Tally,
) -> Result<(), BulkFault> {
    let packets = &mut outputs.packets;
    match &mut outputs.feedback {
        Target::Nothing => run_to(links, bulk, capture, packets, &mut io::sink(), tally),
        asked => run_to(links, bulk, capture, packets, asked, tally),
    }
}

/// The packets that arrived on a link.
fn arrivals(tally: &Tally) -> u64 {
    tally
        .delivered
        .saturating_add(tally.refused)
        .saturating_add(tally.silent)
}

/// Runs a capture into these targets: in pcapng with what the annotator says of each packet. What is shown of the packets
/// is noted in `narrow`.
fn run_capture<A: Annotator, S: Read, F: Write + Drop, P: Write + Drop>(
    annotator: &A,
    links: &mut Concentrator,
    bulk: &Bulk<'_>,
    capture: &mut Capture<S>,
    outputs: &mut Outputs<F, P>,
    counted: (&mut Narrow, &mut Tally),
) -> Result<(), BulkFault> {
    let (narrow, tally) = counted;
    let is_plain = bulk.format == Format::Pcap && narrow.shows_all();
    if is_plain && annotator.payloads().are_unknown() {
        return run_to_both(links, bulk, capture, outputs, tally);
    }
    let mut annotated = Annotated {
        annotator,
        bulk,
        interfaces: Interfaces::new(Vec::new(annotator.alloc())),
        narrow: *narrow,
        tally: *tally,
    };
    let (packets, feedback) = (&mut outputs.packets, &mut outputs.feedback);
    let ran = annotated.run(links, capture, packets, feedback);
    *narrow = annotated.narrow;
    *tally = annotated.tally;
    ran
}

/// Runs the capture that is asked for.
fn run_bulk<'a, R, A>(
    rt: &R,
    asked: &Decompress<'a>,
    bulk: &Bulk<'_>,
    annotator: &A,
    screen: Screen,
) -> Result<Ending<'a>, Ending<'a>>
where
    R: Files + Input + Print + Eprint + Clock + AllocGlobal,
    A: Annotator,
{
    let mut links = concentrator_of(rt, asked.links)?;
    check_links(&links, asked.links, bulk.rules)?;
    let mut input = open_told(rt, asked.input, screen.error)?;
    let mut outputs = make_outputs(rt, asked)?;
    let mut tally = Tally::default();
    let mut narrow = Narrow::new(asked.which, asked.times, true);
    let ran = match Capture::new(rt.alloc(), &mut input) {
        Ok(mut capture) => run_capture(
            annotator,
            &mut links,
            bulk,
            &mut capture,
            &mut outputs,
            (&mut narrow, &mut tally),
        ),
        Err(fault) => Err(BulkFault::Capture(fault)),
    };
    let flushed = outputs.flush();
    if asked.stats {
        let _ = eprintln!(rt; "{tally}");
    }
    match ran {
        Ok(()) if flushed && narrow.hid_all() => Err(unshown_end(rt, asked.input, &narrow)),
        Ok(()) if flushed && arrivals(&tally) == 0 => {
            Err(no_frame(rt, asked.input, input.front(), &bulk.framing))
        }
        Ok(()) if flushed => Ok(Ending::Good),
        Err(BulkFault::Capture(fault)) if flushed => {
            Err(capture_end(asked.input, fault, input.unread(asked.input)))
        }
        _ => Err(outputs.unwritten(asked)),
    }
}

/// Runs a capture, and writes what is delivered; in pcapng also each frame, with what the annotator says of its packet.
pub fn run_decompress<'a, R, A>(
    rt: &R,
    asked: &Decompress<'a>,
    annotator: &A,
    screen: Screen,
) -> Result<Ending<'a>, Ending<'a>>
where
    R: Files + Input + Print + Eprint + Clock + AllocGlobal,
    A: Annotator,
{
    let rules = rules_of(rt.alloc(), &asked.rules)?;
    let framing = framing_of(&asked.rules)?;
    refuse_terminal(asked.output, screen)?;
    let bulk = Bulk {
        rules: rules.as_slice(),
        framing,
        padded: asked.padded,
        format: asked.format,
    };
    run_bulk(rt, asked, &bulk, annotator, screen)
}
