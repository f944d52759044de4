//! The calls in the order in which an operator asks for them.

ghost use Rattle.std.specs.Prelude.{◌≡◌, ◌++◌, OnOk, IfOk, IsPermutation};
ghost use Rattle.rohc_totals.specs.Rows.{rows_of, rows_in};

use crate::call::CallTotals;
use crate::totals::{LinkTotals, Totals};
use std::alloc::{AllocError, Global};

/// A call with its totals.
#[derive(Clone, Copy)]
pub struct CallRow {
    /// The link's number.
    pub link: u16,
    /// The CID.
    pub cid: u16,
    /// The call's totals.
    pub totals: CallTotals,
}

/// Appends the calls of a link.
fn push_calls(rows: &mut Vec<CallRow>, link: u16, totals: &LinkTotals) -> Result<(), AllocError>
    ensures { OnOk result (rows.new.items ≡ rows.old.items ++ rows_of link totals.now) }
{
    for place in 0..totals.calls.len() {
        if let Some((cid, call)) = totals.calls.as_slice().get_index(place) {
            rows.push(CallRow {
                link,
                cid: *cid,
                totals: *call,
            })?;
        }
    }
    Ok(())
}

/// The calls of all links, in the order of their first lines.
fn calls_of(alloc: Global, totals: &Totals) -> Result<Vec<CallRow>, AllocError>
    ensures { IfOk result (λ rows. rows.items ≡ rows_in totals.now) }
{
    let mut rows = Vec::new(alloc);
    for place in 0..totals.links.len() {
        if let Some((link, of_link)) = totals.links.as_slice().get_index(place) {
            push_calls(&mut rows, *link, of_link)?;
        }
    }
    Ok(rows)
}

/// All calls, each once. Those with the most refusals since their last delivery come first, and among equals those
/// that are refused since the earliest line.
pub fn call_rows(alloc: Global, totals: &Totals) -> Result<Vec<CallRow>, AllocError>
    ensures { IfOk result (λ rows. IsPermutation (rows_in totals.now) rows.items) }
{
    let mut rows = calls_of(alloc, totals)?;
    rows.sort_by_key(|row| (
        u64::MAX - row.totals.refused,
        row.totals.since.unwrap_or(0),
        row.link,
        row.cid,
    ))?;
    Ok(rows)
}
