//! The lines of all calls in two texts.

use crate::call::{CallLines, Difference, Seen, Side, Taken};
use indexmap::IndexMap;
use rohc_totals::read_answer;
use std::alloc::{AllocError, Global};

/// The lines of a link: those without a CID, and those of its calls.
#[derive(Drop)]
struct LinkLines {
    whole: CallLines,
    calls: IndexMap<u16, CallLines>,
}

/// The first difference of a call.
#[derive(Drop)]
pub struct CallDifference {
    /// The link; none if the lines name no link.
    pub link: Option<u16>,
    /// The CID; none if the lines name none.
    pub cid: Option<u16>,
    /// The difference.
    pub difference: Difference,
}

/// The first differences of the calls.
pub type Differences = Vec<CallDifference>;

/// The lines of all calls.
#[derive(Drop)]
pub struct Calls {
    alloc: Global,
    /// The lines that name no link.
    script: CallLines,
    links: IndexMap<u16, LinkLines>,
    /// How many lines wait for the other text.
    waiting_first: u64,
    waiting_second: u64,
}

impl LinkLines {
    /// A link without lines.
    fn new(alloc: Global) -> Self {
        LinkLines {
            whole: CallLines::new(alloc),
            calls: IndexMap::new(alloc),
        }
    }

    /// Takes a line of a CID, or of none.
    fn take(
        &mut self,
        alloc: Global,
        cid: Option<u16>,
        side: Side,
        line: Seen,
    ) -> Result<Taken, AllocError> {
        let Some(cid) = cid else {
            return self.whole.take(side, line);
        };
        if let Some(call) = self.calls.get_mut(&cid) {
            return call.take(side, line);
        }
        let mut call = CallLines::new(alloc);
        let taken = call.take(side, line)?;
        self.calls.insert(cid, call)?;
        Ok(taken)
    }
}

impl Calls {
    /// No lines.
    pub(crate) fn new(alloc: Global) -> Self {
        Calls {
            alloc,
            script: CallLines::new(alloc),
            links: IndexMap::new(alloc),
            waiting_first: 0,
            waiting_second: 0,
        }
    }

    /// The text to be read next: the one of which fewer lines wait.
    pub(crate) fn next_side(&self) -> Side {
        if self.waiting_second < self.waiting_first {
            Side::Second
        } else {
            Side::First
        }
    }

    /// Counts the lines that wait.
    fn count(&mut self, side: Side, taken: Taken) {
        match (side, taken) {
            (Side::First, Taken::Waits) => {
                self.waiting_first = self.waiting_first.saturating_add(1);
            }
            (Side::Second, Taken::Waits) => {
                self.waiting_second = self.waiting_second.saturating_add(1);
            }
            (Side::First, Taken::TooFar(count)) | (Side::Second, Taken::Met(count)) => {
                self.waiting_first = self.waiting_first.saturating_sub(count);
            }
            (Side::Second, Taken::TooFar(count)) | (Side::First, Taken::Met(count)) => {
                self.waiting_second = self.waiting_second.saturating_sub(count);
            }
        }
    }

    /// Takes a line of a link and a CID.
    fn take_of(
        &mut self,
        link: Option<u16>,
        cid: Option<u16>,
        side: Side,
        line: Seen,
    ) -> Result<Taken, AllocError> {
        let Some(link) = link else {
            return self.script.take(side, line);
        };
        if let Some(lines) = self.links.get_mut(&link) {
            return lines.take(self.alloc, cid, side, line);
        }
        let mut lines = LinkLines::new(self.alloc);
        let taken = lines.take(self.alloc, cid, side, line)?;
        self.links.insert(link, lines)?;
        Ok(taken)
    }

    /// Takes an answer line of one text.
    pub(crate) fn take(&mut self, side: Side, line: Seen) -> Result<(), AllocError> {
        let (link, cid) = match read_answer(line.text.as_slice()) {
            Some(answer) => (answer.link, answer.cid),
            None => (None, None),
        };
        let taken = self.take_of(link, cid, side, line)?;
        self.count(side, taken);
        Ok(())
    }

    /// The differences, when both texts have ended: of the script, then link by link and call by call, in the order of
    /// their first lines.
    pub(crate) fn end(mut self) -> Result<Differences, AllocError> {
        let mut all = Vec::new(self.alloc);
        push(&mut all, None, None, self.script)?;
        for (link, lines) in self.links {
            push(&mut all, Some(link), None, lines.whole)?;
            for (cid, call) in lines.calls {
                push(&mut all, Some(link), Some(cid), call)?;
            }
        }
        Ok(all)
    }
}

/// Appends the difference of a call, if there is one.
fn push(
    all: &mut Differences,
    link: Option<u16>,
    cid: Option<u16>,
    lines: CallLines,
) -> Result<(), AllocError> {
    if let Some(difference) = lines.end() {
        all.push(CallDifference {
            link,
            cid,
            difference,
        })?;
    }
    Ok(())
}
