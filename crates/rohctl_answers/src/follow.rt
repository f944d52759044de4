//! `totals --follow`: the table on a terminal, drawn again while the lines come.

use crate::table::write_table;
use rohc_totals::{Totals, Watcher, call_rows};
use std::io;
use std::io::{BufWriter, Write};
use std::time::{Clock, Duration, Instant};

/// How often the table is drawn at least, in milliseconds, while there is always more to read.
const EVERY: u64 = 500;

/// The rows of calls that are drawn. Those that are longest silent come first.
const ROWS: usize = 16;

/// Clears a terminal, and begins at its top.
pub fn clear<W: Write>(out: &mut W) -> io::Result<()> {
    write!(out, "\x1b[H\x1b[2J")
}

/// Who draws the totals on a terminal.
#[derive(Drop)]
pub(crate) struct Follower<'a, R> {
    rt: &'a R,
    colour: bool,
    /// When the table was drawn last.
    drawn: Option<Instant>,
}

impl<'a, R: Print + Clock + AllocGlobal> Follower<'a, R> {
    /// Nothing is drawn yet.
    pub(crate) fn new(rt: &'a R, colour: bool) -> Self {
        Follower {
            rt,
            colour,
            drawn: None,
        }
    }

    /// Whether the table was drawn a while ago, or never.
    fn is_due(&self) -> bool {
        match &self.drawn {
            Some(drawn) => match drawn.elapsed(self.rt) {
                Ok(passed) => passed >= Duration::from_millis(EVERY),
                Err(_) => true,
            },
            None => true,
        }
    }

    /// Draws the table.
    fn draw(&self, totals: &Totals) -> io::Result<()> {
        let Ok(rows) = call_rows(self.rt.alloc(), totals) else {
            return Ok(());
        };
        let mut out = BufWriter::new(self.rt.alloc(), io::writer(self.rt))?;
        clear(&mut out)?;
        let shown = rows.get(..ROWS).unwrap_or(rows.as_slice());
        write_table(&mut out, totals, shown, self.colour)?;
        out.flush()
    }
}

impl<R: Print + Clock + AllocGlobal> Watcher for Follower<'_, R> {
    fn see(&mut self, totals: &Totals, all: bool) {
        if all || self.is_due() {
            let _ = self.draw(totals);
            self.drawn = Instant::now(self.rt).ok();
        }
    }
}
