//! The metrics of a gateway in the text format of Prometheus.

use crate::counters::{LinkCounters, StationCounters};
use crate::lists::{EXPIRED, state_name};
use crate::page::Page;
use crate::part::Part;
use crate::scan::{Scan, States};
use crate::station::Station;
use rohc_context::{ContextState, Refusal};
use rohc_counts::Counts;
use std::io;
use std::io::Write;

/// The number of a packet among the outcomes.
const DELIVERED: u8 = 0;

/// The number of a context that was made or renewed without a packet, among the outcomes.
const STORED: u8 = 31;

/// What a gateway counts beside its station.
#[derive(Clone, Copy, Default)]
pub struct GatewayFigures {
    /// Receives that failed.
    pub failed_receives: u64,
    /// Datagrams that the system dropped before they were received.
    pub dropped_datagrams: u64,
    /// Sends that failed of datagrams that waited to be sent.
    pub failed_late_sends: u64,
    /// Log lines that were lost, since their reader didn't take them.
    pub lost_lines: u64,
    /// How often the gateway woke.
    pub wakes: u64,
    /// The longest time that a wake took, in microseconds.
    pub longest_wake: u64,
    /// Contexts that were forgotten, since they had expired.
    pub expired: u64,
    /// Saves that were done.
    pub saves: u64,
    /// Saves that failed.
    pub failed_saves: u64,
    /// When the gateway was started, in milliseconds since 1970.
    pub started: u64,
    /// The first moment of the run.
    pub begun: u64,
    /// Whether there is a state file.
    pub has_state: bool,
    /// When the last save was done, by this run or the one before it, in milliseconds since 1970; 0 before the first.
    pub last_save: u64,
    /// The moment of that save.
    pub saved: u64,
    /// When a save was last copied for a power failure, in milliseconds since 1970; 0 before the first.
    pub last_kept: u64,
    /// Copies that failed.
    pub failed_copies: u64,
    /// Whether no new call is taken.
    pub draining: bool,
}

/// Writes the two lines before a metric.
fn write_head<W: Write>(out: &mut W, name: &str, kind: &str, help: &str) -> io::Result<()> {
    writeln!(out, "# HELP {name} {help}")?;
    writeln!(out, "# TYPE {name} {kind}")
}

/// Writes a metric of one sample.
fn write_one<W: Write>(
    out: &mut W,
    name: &str,
    kind: &str,
    help: &str,
    value: u64,
) -> io::Result<()> {
    write_head(out, name, kind, help)?;
    writeln!(out, "{name} {value}")
}

/// The number of refusals in the counts of a link.
pub(crate) fn refused(counts: &Counts) -> u64 {
    let mut refused = 0u64;
    for refusal in Refusal::all() {
        refused = refused.saturating_add(outcome_count(counts, refusal.number()));
    }
    refused
}

/// The number of delivered packets in the counts of a link.
pub(crate) fn delivered(counts: &Counts) -> u64 {
    outcome_count(counts, DELIVERED)
}

/// The count of the outcome of this number.
fn outcome_count(counts: &Counts, number: u8) -> u64 {
    match counts.outcomes.get(usize::from(number)) {
        Some(count) => *count,
        None => 0,
    }
}

/// A metric that has samples of each link.
#[derive(Clone, Copy)]
enum Family {
    Packets,
    Repaired,
    Refused,
    Feedback,
    Received,
    Compressed,
    Rebuilt,
    Relayed,
    FailedSends,
    ContextsLimited,
    FeedbackLimited,
    Contexts,
}

/// All of them, in the order in which they are written.
const FAMILIES: [Family; 12] = [
    Family::Packets,
    Family::Repaired,
    Family::Refused,
    Family::Feedback,
    Family::Received,
    Family::Compressed,
    Family::Rebuilt,
    Family::Relayed,
    Family::FailedSends,
    Family::ContextsLimited,
    Family::FeedbackLimited,
    Family::Contexts,
];

/// Writes the packets of a link by outcome.
fn write_packets<W: Write>(out: &mut W, name: &str, link: u16, counts: &Counts) -> io::Result<()> {
    for (outcome, count) in [
        ("delivered", delivered(counts)),
        ("stored", outcome_count(counts, STORED)),
        ("front", counts.fronts),
        ("refused", refused(counts)),
    ] {
        writeln!(
            out,
            "{name}{{link=\"{link}\",outcome=\"{outcome}\"}} {count}"
        )?;
    }
    Ok(())
}

/// Writes the refusals of a link, by name.
fn write_refused<W: Write>(out: &mut W, name: &str, link: u16, counts: &Counts) -> io::Result<()> {
    for refusal in Refusal::all() {
        let count = outcome_count(counts, refusal.number());
        writeln!(
            out,
            "{name}{{link=\"{link}\",refusal=\"{refusal}\"}} {count}"
        )?;
    }
    Ok(())
}

/// Writes the feedback of a link for its peer, by kind.
fn write_feedback<W: Write>(out: &mut W, name: &str, link: u16, counts: &Counts) -> io::Result<()> {
    let [acks, nacks, static_nacks, plain] = counts.words;
    for (kind, count) in [
        ("ack", acks),
        ("nack", nacks),
        ("static_nack", static_nacks),
        ("plain", plain),
    ] {
        writeln!(out, "{name}{{link=\"{link}\",kind=\"{kind}\"}} {count}")?;
    }
    Ok(())
}

/// Writes the contexts of a link by state.
fn write_contexts<W: Write>(out: &mut W, name: &str, link: u16, states: States) -> io::Result<()> {
    for (state, count) in [
        (state_name(ContextState::NoContext), states.no),
        (state_name(ContextState::StaticContext), states.fixed),
        (state_name(ContextState::FullContext), states.full),
        (EXPIRED, states.expired),
    ] {
        writeln!(out, "{name}{{link=\"{link}\",state=\"{state}\"}} {count}")?;
    }
    Ok(())
}

impl Family {
    /// Its name.
    fn name(self) -> &'static str {
        match self {
            Family::Packets => "polorowan_packets_total",
            Family::Repaired => "polorowan_repaired_total",
            Family::Refused => "polorowan_refused_total",
            Family::Feedback => "polorowan_feedback_total",
            Family::Received => "polorowan_received_bytes_total",
            Family::Compressed => "polorowan_compressed_bytes_total",
            Family::Rebuilt => "polorowan_delivered_bytes_total",
            Family::Relayed => "polorowan_relayed_total",
            Family::FailedSends => "polorowan_failed_sends_total",
            Family::ContextsLimited => "polorowan_contexts_limited_total",
            Family::FeedbackLimited => "polorowan_feedback_limited_total",
            Family::Contexts => "polorowan_contexts",
        }
    }

    /// What it has.
    fn help(self) -> &'static str {
        match self {
            Family::Packets => "Packets, by link and outcome.",
            Family::Repaired => "Packets delivered by the second or the third try.",
            Family::Refused => "Refused packets, by link and refusal.",
            Family::Feedback => {
                "Feedback elements for the compressor, by link and kind, sent or withheld by a limit."
            }
            Family::Received => "Octets of received packets, feedback included.",
            Family::Compressed => "Octets of delivered packets, as they were received.",
            Family::Rebuilt => "Octets of delivered packets, as IP packets.",
            Family::Relayed => "Feedback elements relayed to the compressor on this side.",
            Family::FailedSends => "Failed sends.",
            Family::ContextsLimited => {
                "Packets of new calls turned away above new_contexts_per_second."
            }
            Family::FeedbackLimited => {
                "Feedback elements for the peer not sent, above feedback_per_second."
            }
            Family::Contexts => "Contexts, by link and state.",
        }
    }

    /// Whether it only grows, or has the number of now.
    fn kind(self) -> &'static str {
        match self {
            Family::Contexts => "gauge",
            _ => "counter",
        }
    }

    /// Writes the samples of a link.
    fn write_of<W: Write>(
        self,
        out: &mut W,
        link: u16,
        of_link: &LinkCounters,
        states: States,
    ) -> io::Result<()> {
        let (name, counts) = (self.name(), &of_link.answers);
        let count = match self {
            Family::Packets => return write_packets(out, name, link, counts),
            Family::Refused => return write_refused(out, name, link, counts),
            Family::Feedback => return write_feedback(out, name, link, counts),
            Family::Contexts => return write_contexts(out, name, link, states),
            Family::Repaired => of_link.repaired,
            Family::Received => of_link.octets.received,
            Family::Compressed => of_link.octets.compressed,
            Family::Rebuilt => of_link.octets.rebuilt,
            Family::Relayed => counts.relayed,
            Family::FailedSends => of_link.failed_sends,
            Family::ContextsLimited => of_link.limiter.contexts_limited,
            Family::FeedbackLimited => of_link.limiter.feedback_limited,
        };
        writeln!(out, "{name}{{link=\"{link}\"}} {count}")
    }

    /// Writes the samples of the links of a part.
    fn write<W: Write>(
        self,
        out: &mut W,
        station: &Station,
        scan: &Scan,
        part: Part,
    ) -> io::Result<()> {
        if part.is_first() {
            write_head(out, self.name(), self.kind(), self.help())?;
        }
        for place in part.places(scan) {
            if let Some(seen) = scan.link_at(place)
                && let Some(of_link) = station.counters().get(&seen.link)
            {
                self.write_of(out, seen.link, of_link, seen.states)?;
            }
        }
        Ok(())
    }
}

/// Writes the datagrams that were refused, by reason.
fn write_bad<W: Write>(out: &mut W, totals: StationCounters) -> io::Result<()> {
    let name = "polorowan_bad_datagrams_total";
    let help =
        "Datagrams refused unread: too short, of an unknown link, or of a new call while draining or above a limit.";
    write_head(out, name, "counter", help)?;
    for (reason, count) in [
        ("short", totals.short),
        ("unknown_link", totals.unknown_link),
        ("new_call", totals.new_call),
    ] {
        writeln!(out, "{name}{{reason=\"{reason}\"}} {count}")?;
    }
    Ok(())
}

/// Writes the counts over all links.
fn write_totals<W: Write>(out: &mut W, station: &Station) -> io::Result<()> {
    let totals = station.totals();
    let (name, help) = ("polorowan_datagrams_total", "Datagrams received.");
    write_one(out, name, "counter", help, totals.datagrams)?;
    write_bad(out, totals)?;
    let name = "polorowan_uncounted_total";
    let help = "Packets that are missing in the counts of their call, for lack of memory.";
    write_one(out, name, "counter", help, totals.uncounted)
}

/// Writes what a gateway counts beside its station.
fn write_figures<W: Write>(out: &mut W, figures: &GatewayFigures) -> io::Result<()> {
    for (name, help, count) in [
        (
            "polorowan_failed_receives_total",
            "Failed receives.",
            figures.failed_receives,
        ),
        (
            "polorowan_dropped_datagrams_total",
            "Datagrams that the system dropped, since they came faster than they were received.",
            figures.dropped_datagrams,
        ),
        (
            "polorowan_failed_late_sends_total",
            "Failed sends of relayed feedback that waited, since its datagram had too much of it.",
            figures.failed_late_sends,
        ),
        (
            "polorowan_lost_log_lines_total",
            "Log lines that are lost, since nothing read them.",
            figures.lost_lines,
        ),
        (
            "polorowan_wakes_total",
            "Times the gateway woke.",
            figures.wakes,
        ),
        (
            "polorowan_expired_total",
            "Expired contexts that were removed.",
            figures.expired,
        ),
        ("polorowan_saves_total", "Completed saves.", figures.saves),
        (
            "polorowan_failed_saves_total",
            "Failed saves.",
            figures.failed_saves,
        ),
        (
            "polorowan_failed_copies_total",
            "Copies of saves (rohctl keep) that failed.",
            figures.failed_copies,
        ),
    ] {
        write_one(out, name, "counter", help, count)?;
    }
    Ok(())
}

/// Writes how long the longest wake took.
fn write_longest_wake<W: Write>(out: &mut W, figures: &GatewayFigures) -> io::Result<()> {
    let name = "polorowan_longest_wake_seconds";
    let help = "The longest time between two looks at the sockets.";
    write_head(out, name, "gauge", help)?;
    let (seconds, rest) = (
        figures.longest_wake / 1_000_000,
        figures.longest_wake % 1_000_000,
    );
    writeln!(out, "{name} {seconds}.{rest:06}")
}

/// Writes when the gateway was started and, if there is a state file, when it was last saved, and that save copied.
fn write_times<W: Write>(out: &mut W, figures: &GatewayFigures) -> io::Result<()> {
    write_one(
        out,
        "polorowan_start_timestamp_seconds",
        "gauge",
        "Time of the start.",
        figures.started / 1000,
    )?;
    if !figures.has_state {
        return Ok(());
    }
    write_one(
        out,
        "polorowan_last_save_timestamp_seconds",
        "gauge",
        "Time of the last completed save, 0 before the first; only with a state file.",
        figures.last_save / 1000,
    )?;
    write_one(
        out,
        "polorowan_last_copy_timestamp_seconds",
        "gauge",
        "Time of the last copy of a save (rohctl keep), 0 before the first; only with a state file.",
        figures.last_kept / 1000,
    )
}

/// Writes the metrics that are of no link.
fn write_rest<W: Write>(
    out: &mut W,
    station: &Station,
    figures: &GatewayFigures,
    version: &str,
) -> io::Result<()> {
    write_totals(out, station)?;
    write_figures(out, figures)?;
    write_longest_wake(out, figures)?;
    write_times(out, figures)?;
    let draining = "polorowan_draining";
    write_one(
        out,
        draining,
        "gauge",
        "1 while no new call is accepted.",
        u64::from(figures.draining),
    )?;
    let build = "polorowan_build_info";
    write_head(out, build, "gauge", "The version.")?;
    writeln!(out, "{build}{{version=\"{version}\"}} 1")
}

/// Writes a part of the metrics. Returns the part that follows, if one does.
pub(crate) fn write_metrics<W: Write>(
    out: &mut W,
    page: &Page<'_>,
    scan: &Scan,
    part: Part,
) -> io::Result<Option<Part>> {
    let station = page.calls.station;
    match FAMILIES.get(part.section) {
        Some(family) => {
            family.write(out, station, scan, part)?;
            Ok(Some(part.next(scan)))
        }
        None => {
            write_rest(out, station, page.figures, page.version)?;
            Ok(None)
        }
    }
}
