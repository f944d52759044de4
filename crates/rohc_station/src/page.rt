//! The page of a gateway, for people: its links, its refusals with their likely causes, and its calls.

use crate::calls::CallCounts;
use crate::calls_text::last_column;
use crate::counters::LinkCounters;
use crate::lists::profile_name;
use crate::metrics::{GatewayFigures, delivered, refused};
use crate::part::Part;
use crate::ranking::Ranking;
use crate::rows::{CallList, CallRow, MOST_WORST, state_text};
use crate::scan::{LinkStates, Scan};
use crate::shown::write_shown;
use crate::station::Station;
use rohc_context::Refusal;
use rohc_explain::cause_of;
use rohc_report::{POLICY, STYLE, write_escaped, write_number, write_tile};
use std::alloc::Global;
use std::io;
use std::io::Write;

/// How many of the calls that are silent longest the page lists.
const MOST_SILENT: usize = 100;

/// How often a browser loads the page again, in seconds.
const REFRESH: u64 = 5;

/// The name of a link.
#[derive(Clone, Copy)]
pub struct LinkName<'a> {
    pub link: u16,
    pub name: &'a str,
}

/// What the page is of.
#[derive(Clone, Copy)]
pub struct Page<'a> {
    pub calls: CallList<'a>,
    pub figures: &'a GatewayFigures,
    /// The names of the links that have one.
    pub names: &'a [LinkName<'a>],
    /// The version of the gateway.
    pub version: &'a str,
}

impl<'a> Page<'a> {
    /// The name of a link, if it has one.
    pub(crate) fn name_of(&self, link: u16) -> Option<&'a str> {
        let named = self.names.iter().find(|named| named.link == link)?;
        Some(named.name)
    }
}

/// Writes a duration in milliseconds with its two largest units, as `3 min 10 s`.
pub(crate) fn write_duration<W: Write>(out: &mut W, milliseconds: u64) -> io::Result<()> {
    let seconds = milliseconds / 1000;
    match seconds {
        0..=59 => write!(out, "{seconds} s"),
        60..=3_599 => write!(out, "{} min {} s", seconds / 60, seconds % 60),
        3_600..=86_399 => write!(out, "{} h {} min", seconds / 3_600, seconds / 60 % 60),
        _ => write!(out, "{} d {} h", seconds / 86_400, seconds / 3_600 % 24),
    }
}

/// Writes the start of the page, up to its title and version.
fn write_start<W: Write>(out: &mut W, page: &Page<'_>) -> io::Result<()> {
    write!(
        out,
        "<!DOCTYPE html>\n<html lang=\"en\">\n<head>\n<meta charset=\"utf-8\">\n<meta http-equiv=\"Content-Security-Policy\" content=\"{POLICY}\">\n<meta http-equiv=\"refresh\" content=\"{REFRESH}\">\n<meta name=\"viewport\" content=\"width=device-width, initial-scale=1\">\n<meta name=\"referrer\" content=\"no-referrer\">\n<title>rohc-gateway</title>\n<style>{STYLE}</style>\n</head>\n<body>\n<header>\n<h1>rohc-gateway</h1>\n<p class=\"quiet\">Version {}, running for ",
        page.version
    )?;
    write_duration(out, page.calls.now.saturating_sub(page.figures.begun))?;
    let draining = if page.figures.draining {
        " <b>Draining: no new call is accepted.</b>"
    } else {
        ""
    };
    write!(
        out,
        ".{draining}</p>\n<nav aria-label=\"Sections\"><a href=\"#links\">Links</a><a href=\"#traffic\">Traffic</a><a href=\"#refusals\">Refusals</a><a href=\"#worst\">Refused calls</a><a href=\"#silent\">Silent calls</a><a href=\"#unknown\">Unknown CIDs</a><a href=\"#unknown-links\">Unknown links</a></nav>\n</header>\n<main>\n"
    )
}

/// Writes when the contexts were last saved, and how many saves failed.
fn write_saves<W: Write>(out: &mut W, figures: &GatewayFigures, now: u64) -> io::Result<()> {
    if !figures.has_state {
        return writeln!(
            out,
            "<p>There is no state file: a stop loses all calls.</p>"
        );
    }
    write!(out, "<p>")?;
    if figures.last_save == 0 {
        write!(out, "Not saved since the start")?;
    } else {
        write!(out, "Saves since the start: {}. Last saved ", figures.saves)?;
        write_duration(out, now.saturating_sub(figures.saved))?;
        write!(out, " ago")?;
    }
    if figures.failed_saves > 0 {
        write!(out, "; <b>saves failed: {}</b>", figures.failed_saves)?;
    }
    writeln!(out, ".</p>")
}

/// How many contexts there are on all links.
fn context_count(station: &Station) -> u64 {
    let mut count = 0u64;
    for (_, records) in station.concentrator().tables() {
        count = count.saturating_add(records.contexts.len() as u64);
    }
    count
}

/// The sum of a count over all links.
fn sum_of(station: &Station, is_refused: bool) -> u64 {
    let mut sum = 0u64;
    for (_, of_link) in station.counters() {
        let counts = &of_link.answers;
        let count = if is_refused {
            refused(counts)
        } else {
            delivered(counts)
        };
        sum = sum.saturating_add(count);
    }
    sum
}

/// Writes the totals.
fn write_totals<W: Write>(out: &mut W, page: &Page<'_>) -> io::Result<()> {
    let (station, figures) = (page.calls.station, page.figures);
    writeln!(out, "<section aria-label=\"Totals\">\n<ul class=\"tiles\">")?;
    let totals = station.totals();
    let bad = totals.short.saturating_add(totals.unknown_link);
    for (name, number, is_bad) in [
        ("Links", station.counters().len() as u64, false),
        ("Contexts", context_count(station), false),
        ("Datagrams", totals.datagrams, false),
        ("Bad datagrams", bad, true),
        ("New calls turned away", totals.new_call, true),
        ("Not counted", totals.uncounted, true),
        ("Delivered", sum_of(station, false), false),
        ("Refused", sum_of(station, true), true),
        ("Failed receives", figures.failed_receives, true),
    ] {
        write_tile(out, name, number, is_bad)?;
    }
    writeln!(out, "</ul>")?;
    write_saves(out, figures, page.calls.now)?;
    writeln!(out, "</section>")
}

/// Writes the start of a table with these columns, the first `texts` of which hold text.
fn write_columns<W: Write>(
    out: &mut W,
    title: &str,
    anchor: &str,
    texts: usize,
    columns: &[&str],
) -> io::Result<()> {
    write!(
        out,
        "<section id=\"{anchor}\" aria-labelledby=\"{anchor}-title\">\n<h2 id=\"{anchor}-title\">{title}</h2>\n<div class=\"wide\" role=\"region\" aria-label=\"{title}\" tabindex=\"0\"><table>\n<thead><tr>"
    )?;
    for (place, column) in columns.iter().enumerate() {
        let class = if place < texts { " class=\"text\"" } else { "" };
        write!(out, "<th scope=\"col\"{class}>{column}</th>")?;
    }
    writeln!(out, "</tr></thead>\n<tbody>")
}

/// Writes the end of a table.
fn write_end<W: Write>(out: &mut W) -> io::Result<()> {
    writeln!(out, "</tbody></table></div>\n</section>")
}

/// Writes a cell with a number.
fn write_cell<W: Write>(out: &mut W, number: u64) -> io::Result<()> {
    write!(out, "<td>")?;
    write_number(out, number)?;
    write!(out, "</td>")
}

/// Writes the share of the rebuilt octets that wasn't sent.
fn write_saved<W: Write>(out: &mut W, saved: Option<u64>) -> io::Result<()> {
    match saved {
        Some(saved) => write!(out, "<td>{saved} %</td>"),
        None => write!(out, "<td>none</td>"),
    }
}

/// Writes the row header of a link: its number, and its name if it has one.
fn write_link_header<W: Write>(
    alloc: Global,
    out: &mut W,
    page: &Page<'_>,
    link: u16,
) -> io::Result<()> {
    write!(out, "<tr><th scope=\"row\">{link}")?;
    if let Some(name) = page.name_of(link) {
        write!(out, " ")?;
        write_shown(alloc, out, name)?;
    }
    write!(out, "</th>")
}

/// Writes the row of a link: its contexts and its packets.
fn write_link<W: Write>(
    alloc: Global,
    out: &mut W,
    page: &Page<'_>,
    seen: &LinkStates,
) -> io::Result<()> {
    let Some(row) = page.calls.link_row(seen) else {
        return Ok(());
    };
    write_link_header(alloc, out, page, seen.link)?;
    for number in [
        row.states.full,
        row.states.fixed,
        row.states.no,
        row.per_second,
        row.delivered,
        row.refused,
        row.nacks,
    ] {
        write_cell(out, number)?;
    }
    write_saved(out, row.saved)?;
    writeln!(out, "</tr>")
}

/// The columns of the table of links.
const LINK_COLUMNS: [&str; 9] = [
    "Link",
    "Full Context",
    "Static Context",
    "No Context",
    "Packets per second",
    "Delivered",
    "Refused",
    "NACKs",
    "Saved",
];

/// Writes the row of a link's octets, and what was not sent.
fn write_traffic_of<W: Write>(
    alloc: Global,
    out: &mut W,
    page: &Page<'_>,
    link: u16,
    of_link: &LinkCounters,
) -> io::Result<()> {
    write_link_header(alloc, out, page, link)?;
    for number in [
        of_link.octets.received,
        of_link.octets.rebuilt,
        of_link.failed_sends,
        of_link.limiter.contexts_limited,
        of_link.limiter.feedback_limited,
    ] {
        write_cell(out, number)?;
    }
    writeln!(out, "</tr>")
}

/// The columns of the table of what came and went on each link.
const TRAFFIC_COLUMNS: [&str; 6] = [
    "Link",
    "Octets received",
    "Octets delivered",
    "Failed sends",
    "New calls turned away",
    "Feedback withheld",
];

/// Writes the row of a refusal on a link.
fn write_refusal<W: Write>(
    alloc: Global,
    out: &mut W,
    link: u16,
    refusal: Refusal,
    count: u64,
) -> io::Result<()> {
    let cause = cause_of(refusal);
    write!(
        out,
        "<tr><th scope=\"row\">{link}</th><td class=\"text\">{refusal}</td><td class=\"text\">"
    )?;
    write_escaped(alloc, out, cause.usual.as_bytes())?;
    write!(out, "</td>")?;
    write_cell(out, count)?;
    writeln!(out, "</tr>")
}

/// Writes the rows of the refusals on a link.
fn write_refusals<W: Write>(
    alloc: Global,
    out: &mut W,
    link: u16,
    of_link: &LinkCounters,
) -> io::Result<()> {
    for refusal in Refusal::all() {
        let number = usize::from(refusal.number());
        match of_link.answers.outcomes.get(number) {
            Some(count) if *count > 0 => {
                write_refusal(alloc, out, link, refusal, *count)?;
            }
            _ => {}
        }
    }
    Ok(())
}

/// Writes the refusals of a call, by name.
pub(crate) fn write_reasons<W: Write>(out: &mut W, counts: &CallCounts) -> io::Result<()> {
    let mut comma = "";
    for refusal in Refusal::all() {
        let count = counts.refused(refusal);
        if count > 0 {
            write!(out, "{comma}{count} {refusal}")?;
            comma = ", ";
        }
    }
    Ok(())
}

/// Writes the cell of a call's last accepted packet: how long ago it was, or its moment where that may be no time
/// since 1970.
fn write_accepted<W: Write>(out: &mut W, row: &CallRow<'_>) -> io::Result<()> {
    write!(out, "<td>")?;
    match row.silent {
        Some(silent) => write_duration(out, silent)?,
        None => write!(out, "{}", row.context.accepted())?,
    }
    write!(out, "</td>")
}

/// Writes the row of a call.
fn write_call<W: Write>(out: &mut W, row: &CallRow<'_>) -> io::Result<()> {
    let profile = profile_name(row.context.profile());
    let state = state_text(row);
    write!(
        out,
        "<tr><th scope=\"row\">{}/{}</th><td class=\"text\">{profile}</td><td class=\"text\">{state}</td>",
        row.link, row.cid
    )?;
    write_accepted(out, row)?;
    match row.counts {
        Some(counts) => {
            write_cell(out, counts.delivered)?;
            write_cell(out, counts.repaired)?;
            write_cell(out, counts.sequence.lost)?;
            write_cell(out, u64::from(counts.sequence.late))?;
            write!(out, "<td class=\"text\">")?;
            write_reasons(out, counts)?;
            write!(out, "</td>")?;
        }
        None => write!(
            out,
            "<td>0</td><td>0</td><td>0</td><td>0</td><td class=\"text\"></td>"
        )?,
    }
    writeln!(out, "</tr>")
}

/// Writes a table of the first of these calls, at most so many.
fn write_calls<W: Write>(
    out: &mut W,
    calls: &CallList<'_>,
    ranking: &mut Ranking,
    most: usize,
) -> io::Result<()> {
    for _ in 0..most {
        if let Some((link, cid)) = ranking.next()
            && let Some(row) = calls.row_of(link, cid)
        {
            write_call(out, &row)?;
        }
    }
    write_end(out)?;
    let left_out = ranking.len();
    if left_out > 0 {
        writeln!(out, "<p>{left_out} more calls are not shown.</p>")?;
    }
    Ok(())
}

/// The columns of a table of calls. The fourth has their last accepted arrivals.
fn call_columns(has_timed: bool) -> [&'static str; 9] {
    [
        "Link/CID",
        "Profile",
        "State",
        last_column(has_timed),
        "Delivered",
        "Repaired",
        "Lost",
        "Late",
        "Refused",
    ]
}

/// A section of the page.
#[derive(Clone, Copy)]
enum Section {
    /// The start of the page, and the totals.
    Start,
    Links,
    Traffic,
    Refusals,
    /// The calls with the most refusals.
    Worst,
    /// Those that are silent longest.
    Silent,
    /// The CIDs that only got NoContext.
    Unknown,
    /// The links that aren't there.
    UnknownLinks,
}

/// All of them, in their order.
const SECTIONS: [Section; 8] = [
    Section::Start,
    Section::Links,
    Section::Traffic,
    Section::Refusals,
    Section::Worst,
    Section::Silent,
    Section::Unknown,
    Section::UnknownLinks,
];

/// The place of the calls with the most refusals among the rankings of the page, and that of the silent ones.
pub(crate) const WORST: usize = 0;

pub(crate) const SILENT: usize = 1;

/// Writes the rows of the CIDs of a link without a context whose packets were refused for that, the newest first.
fn write_unknown<W: Write>(out: &mut W, link: u16, of_link: &LinkCounters) -> io::Result<()> {
    for unknown in of_link.unknown.iter().rev() {
        write!(out, "<tr><th scope=\"row\">{link}/{}</th>", unknown.number)?;
        write_cell(out, unknown.packets)?;
        writeln!(out, "</tr>")?;
    }
    Ok(())
}

impl Section {
    /// Writes the columns of a section that has rows of each link.
    fn write_columns<W: Write>(self, out: &mut W) -> io::Result<()> {
        match self {
            Section::Links => write_columns(out, "Links", "links", 1, &LINK_COLUMNS),
            Section::Traffic => {
                write_columns(out, "Traffic and limits", "traffic", 1, &TRAFFIC_COLUMNS)
            }
            Section::Refusals => {
                let columns = ["Link", "Refusal", "Usual cause", "Packets"];
                write_columns(out, "Refusals", "refusals", 3, &columns)
            }
            _ => {
                let title = "CIDs that only got NoContext";
                write_columns(out, title, "unknown", 1, &["Link/CID", "Packets"])
            }
        }
    }

    /// Writes the rows of a link.
    fn write_of<W: Write>(
        self,
        alloc: Global,
        out: &mut W,
        page: &Page<'_>,
        seen: &LinkStates,
        of_link: &LinkCounters,
    ) -> io::Result<()> {
        let link = seen.link;
        match self {
            Section::Links => write_link(alloc, out, page, seen),
            Section::Traffic => write_traffic_of(alloc, out, page, link, of_link),
            Section::Refusals => write_refusals(alloc, out, link, of_link),
            _ => write_unknown(out, link, of_link),
        }
    }

    /// Writes a part of a section that has rows of each link. Returns the part that follows.
    fn write_by_link<W: Write>(
        self,
        alloc: Global,
        out: &mut W,
        page: &Page<'_>,
        scan: &Scan,
        part: Part,
    ) -> io::Result<Part> {
        if part.is_first() {
            self.write_columns(out)?;
        }
        for place in part.places(scan) {
            if let Some(seen) = scan.link_at(place)
                && let Some(of_link) = page.calls.station.counters().get(&seen.link)
            {
                self.write_of(alloc, out, page, &seen, of_link)?;
            }
        }
        if part.is_last(scan) {
            write_end(out)?;
        }
        Ok(part.next(scan))
    }
}

/// Writes a table of calls under a title.
fn write_call_table<W: Write>(
    out: &mut W,
    calls: &CallList<'_>,
    scan: &mut Scan,
    ranking: usize,
) -> io::Result<()> {
    let (title, anchor, most) = if ranking == WORST {
        ("Calls with the most refusals", "worst", MOST_WORST)
    } else {
        ("Calls that are silent longest", "silent", MOST_SILENT)
    };
    write_columns(out, title, anchor, 3, &call_columns(calls.has_timed))?;
    match scan.rankings.get_mut(ranking) {
        Some(ranking) => write_calls(out, calls, ranking, most),
        None => write_end(out),
    }
}

/// Writes the table of the last links that datagrams named and the links file doesn't have, the newest first.
fn write_unknown_links<W: Write>(out: &mut W, station: &Station) -> io::Result<()> {
    let title = "Links that are not in the links file";
    write_columns(out, title, "unknown-links", 1, &["Link", "Datagrams"])?;
    for unknown in station.unknown_links().iter().rev() {
        write!(out, "<tr><th scope=\"row\">{}</th>", unknown.number)?;
        write_cell(out, unknown.packets)?;
        writeln!(out, "</tr>")?;
    }
    write_end(out)
}

/// Writes the end of the page.
fn write_foot<W: Write>(out: &mut W) -> io::Result<()> {
    writeln!(
        out,
        "</main>\n<footer><p class=\"quiet\">This page reloads every {REFRESH} seconds. Counts begin with the start of the gateway, those of a call with its first packet. Packets per second are those of the last whole second. At most the last 64 CIDs of a link that only got NoContext are shown, and the last 16 unknown links.</p></footer>\n</body>\n</html>"
    )
}

/// Writes a part of the page. Returns the part that follows, if one does. Nothing in the page comes from elsewhere, and no script
/// runs in it.
pub(crate) fn write_page<W: Write>(
    alloc: Global,
    out: &mut W,
    page: &Page<'_>,
    scan: &mut Scan,
    part: Part,
) -> io::Result<Option<Part>> {
    let Some(section) = SECTIONS.get(part.section) else {
        write_foot(out)?;
        return Ok(None);
    };
    match section {
        Section::Start => {
            write_start(out, page)?;
            write_totals(out, page)?;
        }
        Section::Worst => write_call_table(out, &page.calls, scan, WORST)?,
        Section::Silent => write_call_table(out, &page.calls, scan, SILENT)?,
        Section::UnknownLinks => write_unknown_links(out, page.calls.station)?,
        _ => {
            return Ok(Some(section.write_by_link(alloc, out, page, scan, part)?));
        }
    }
    Ok(Some(part.next_section()))
}
