//! The ranges of CIDs that have a mode of their own.

ghost use Rattle.std.specs.Prelude.{◌≡◌, ◌≤◌, length, option_map};
ghost use Rattle.toml.specs.View.{items_view};
ghost use Rattle.rohc_links.specs.Ranges.{read_each, range, ranges};

use crate::fields::{Field, field_at, has_only};
use arrayvec::ArrayVec;
use rohc_concentrator::CidRange;
use toml::Value;

impl Field for CidRange {
    ghost field_of = { range };

    fn read(value: &Value) -> Option<CidRange> {
        let table = value.as_table()?;
        if !has_only(table, &["first", "last", "mode"]) {
            return None;
        }
        Some(CidRange {
            first: field_at(table, "first")?,
            last: field_at(table, "last")?,
            mode: field_at(table, "mode")?,
        })
    }
}

impl Field for ArrayVec<CidRange, 8> {
    ghost field_of = { ranges };

    #[tactic(auto, using(crate::proofs::RangeLemmas::ranges_too_many))]
    fn read(value: &Value) -> Option<ArrayVec<CidRange, 8>> {
        let values = value.as_array()?;
        if values.len() > 8 {
            return None;
        }
        read_ranges(values.as_slice())
    }
}

/// The values as ranges, if each of them is one.
fn read_ranges(values: &[Value]) -> Option<ArrayVec<CidRange, 8>>
    requires { length values.now ≤ 8 }
    ensures { option_map (λ ranges. ranges.items) result ≡ read_each range (items_view values.now) }
{
    let mut ranges = ArrayVec::new();
    for value in values {
        ranges.push(CidRange::read(value)?);
    }
    Some(ranges)
}
