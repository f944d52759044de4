//! The calls, the worst first.

ghost use Rattle.std.specs.Prelude.{◌≡◌, ◌++◌, OnOk, IfOk, IsPermutation};
ghost use Rattle.rohc_report.specs.Rows.{rows_in};

use crate::call::CallTotals;
use crate::calls::Calls;
use std::alloc::{AllocError, Global};

/// A call with its totals.
#[derive(Clone, Copy)]
pub struct CallRow {
    /// The link's number.
    pub link: u16,
    /// The CID.
    pub cid: u16,
    /// The call's totals.
    pub totals: CallTotals,
}

/// All calls, in the order of their first packets.
fn rows_of(alloc: Global, calls: &Calls) -> Result<Vec<CallRow>, AllocError>
    ensures { IfOk result (λ rows. rows.items ≡ rows_in calls.now) }
{
    let mut rows = Vec::new(alloc);
    for place in 0..calls.calls.len() {
        if let Some((key, totals)) = calls.calls.as_slice().get_index(place) {
            rows.push(CallRow {
                link: (*key / 65_536) as u16,
                cid: (*key % 65_536) as u16,
                totals: *totals,
            })?;
        }
    }
    Ok(rows)
}

/// How bad a call is: calls sort by it, the worst first.
fn rank(row: &CallRow) -> (u64, u64, u64, u64, u16, u16) {
    (
        u64::MAX.saturating_sub(row.totals.silent),
        u64::MAX.saturating_sub(row.totals.refused()),
        u64::MAX.saturating_sub(row.totals.repaired),
        u64::MAX.saturating_sub(row.totals.late),
        row.link,
        row.cid,
    )
}

/// All calls, each once, the worst first: those with the most refusals since their last delivery, then those with the most
/// refusals at all, then with the most repaired and the most late packets.
pub fn worst_first(alloc: Global, calls: &Calls) -> Result<Vec<CallRow>, AllocError>
    ensures { IfOk result (λ rows. IsPermutation (rows_in calls.now) rows.items) }
{
    let mut rows = rows_of(alloc, calls)?;
    rows.sort_by_key(|row| rank(row))?;
    Ok(rows)
}
