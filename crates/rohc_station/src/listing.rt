//! Long answers, which are made piece by piece while the station goes on.

ghost use Rattle.std.specs.Prelude.{◌≡◌};

use crate::calls_text::{write_call_columns, write_call_line, write_unknown_lines};
use crate::lists::{write_call, write_context_line, write_unknown};
use crate::metrics::write_metrics;
use crate::page::{Page, write_page};
use crate::part::Part;
use crate::ranking::First;
use crate::request::Form;
use crate::rows::CallList;
use crate::scan::Scan;
use crate::top::write_top;
use std::alloc::{AllocError, Global};
use std::io;
use std::io::Write;

/// The most calls that one piece lists.
const MOST_LISTED: u32 = 256;

/// What a long answer shows.
#[derive(Clone, Copy, PartialEq, Eq)]
pub enum Subject {
    /// Nothing but the number of contexts by state.
    States,
    /// The metrics.
    Metrics,
    /// The page for people.
    Page,
    /// The links and the worst calls, as text.
    Top,
    /// The contexts of a link, one object per line, those of the lowest CID first.
    Contexts { link: u16 },
    /// The calls of one link or of all, the longest silent first, and then the CIDs without a context whose packets were
    /// refused for that, the newest of each link last.
    Calls { link: Option<u16>, form: Form },
}

impl Subject {
    /// The link whose contexts are looked at, if it isn't all.
    fn only(self) -> Option<u16> {
        match self {
            Subject::Contexts { link } => Some(link),
            Subject::Calls { link, .. } => link,
            _ => None,
        }
    }

    /// The orders in which it lists calls.
    fn orders(self) -> &'static [First] {
        match self {
            Subject::States | Subject::Metrics => &[],
            Subject::Page => &[First::Refused, First::Silent],
            Subject::Top => &[First::Refused],
            Subject::Contexts { .. } => &[First::Lowest],
            Subject::Calls { .. } => &[First::Silent],
        }
    }
}

/// How a list is written.
#[derive(Clone, Copy)]
enum Manner {
    Contexts,
    Calls(Form),
}

/// The sections of a list: its columns, its calls, and the CIDs without a context.
const COLUMNS: usize = 0;

const CALLS: usize = 1;

impl Manner {
    /// Writes the next calls.
    fn write_calls<W: Write>(
        self,
        alloc: Global,
        out: &mut W,
        calls: &CallList<'_>,
        scan: &mut Scan,
    ) -> io::Result<bool> {
        for _ in 0..MOST_LISTED {
            let Some(ranking) = scan.rankings.first_mut() else {
                return Ok(false);
            };
            let Some((link, cid)) = ranking.next() else {
                return Ok(false);
            };
            if let Some(row) = calls.row_of(link, cid) {
                match self {
                    Manner::Contexts => write_context_line(out, &row)?,
                    Manner::Calls(Form::Json) => write_call(out, &row)?,
                    Manner::Calls(Form::Text) => write_call_line(alloc, out, &row)?,
                }
            }
        }
        Ok(true)
    }

    /// Writes the CIDs without a context of the links of a part.
    fn write_unknown<W: Write>(
        self,
        alloc: Global,
        out: &mut W,
        calls: &CallList<'_>,
        scan: &Scan,
        part: Part,
    ) -> io::Result<()> {
        for place in part.places(scan) {
            if let Some(seen) = scan.link_at(place)
                && let Some(of_link) = calls.station.counters().get(&seen.link)
            {
                match self {
                    Manner::Contexts => {}
                    Manner::Calls(Form::Json) => write_unknown(out, seen.link, of_link)?,
                    Manner::Calls(Form::Text) => {
                        write_unknown_lines(alloc, out, seen.link, of_link)?;
                    }
                }
            }
        }
        Ok(())
    }

    /// Writes a part of the list. Returns the part that follows, if one does.
    fn write<W: Write>(
        self,
        alloc: Global,
        out: &mut W,
        calls: &CallList<'_>,
        scan: &mut Scan,
        part: Part,
    ) -> io::Result<Option<Part>> {
        match (part.section, self) {
            (COLUMNS, Manner::Calls(Form::Text)) => {
                write_call_columns(alloc, out, calls.has_timed)?;
                Ok(Some(part.next_section()))
            }
            (COLUMNS, _) => Ok(Some(part.next_section())),
            (CALLS, _) => {
                let is_on = self.write_calls(alloc, out, calls, scan)?;
                Ok(Some(if is_on { part } else { part.next_section() }))
            }
            _ => {
                self.write_unknown(alloc, out, calls, scan, part)?;
                Ok(if part.is_last(scan) {
                    None
                } else {
                    Some(part.next(scan))
                })
            }
        }
    }
}

/// A long answer, as far as it is made.
#[derive(Drop)]
pub struct Listing {
    subject: Subject,
    scan: Scan,
    /// What is written next.
    part: Part,
}

impl Listing {
    /// An answer of which nothing is made.
    pub fn new(
        alloc: Global,
        calls: &CallList<'_>,
        subject: Subject,
    ) -> Result<Listing, AllocError> {
        Ok(Listing {
            subject,
            scan: Scan::new(alloc, calls, subject.only(), subject.orders())?,
            part: Part::default(),
        })
    }

    /// What it shows.
    pub fn subject(&self) -> Subject
        ensures { result ≡ self.now.subject }
    {
        self.subject
    }

    /// The contexts that were looked at.
    pub fn scan(&self) -> &Scan
        ensures { result.now ≡ self.now.scan }
    {
        &self.scan
    }

    /// Makes the next piece and appends it: it looks at contexts, or writes a part of the answer. Returns whether more follow.
    ///
    /// The error is that of the writer, or lack of memory.
    pub fn go_on<W: Write>(
        &mut self,
        alloc: Global,
        out: &mut W,
        page: &Page<'_>,
    ) -> io::Result<bool> {
        let (scan, part) = (&mut self.scan, self.part);
        if !scan.is_done() {
            scan.look_on(&page.calls)?;
            return Ok(true);
        }
        let next = match self.subject {
            Subject::States => None,
            Subject::Metrics => write_metrics(out, page, scan, part)?,
            Subject::Page => write_page(alloc, out, page, scan, part)?,
            Subject::Top => {
                write_top(alloc, out, page, scan)?;
                None
            }
            Subject::Contexts { .. } => {
                Manner::Contexts.write(alloc, out, &page.calls, scan, part)?
            }
            Subject::Calls { form, .. } => {
                Manner::Calls(form).write(alloc, out, &page.calls, scan, part)?
            }
        };
        self.part = next.unwrap_or(part);
        Ok(next.is_some())
    }
}
