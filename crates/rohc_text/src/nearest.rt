//! The name that a misspelled one may have meant.

ghost use Rattle.std.specs.Prelude.{◌≡◌, nat_lt, if◌then◌else◌, Some, IfOk};
ghost use Rattle.rohc_text.specs.Nearest.{IsNearest};

use std::alloc::{AllocError, Global};
use strsim::levenshtein;

/// How many edits may lead from a misspelled name to the one that is meant.
const FEW: usize = 3;

/// What is nearer of two names, each with the edits that lead to it: the later one only if fewer edits lead to it.
fn nearer(
    nearest: Option<&'static str>,
    least: usize,
    known: &'static str,
    edits: usize,
) -> (Option<&'static str>, usize)
    ensures { result ≡ (if nat_lt edits least then (Some known.entry, edits) else (nearest.entry, least)) }
{
    if edits < least {
        (Some(known), edits)
    } else {
        (nearest, least)
    }
}

/// The first of the known names to which the fewest edits lead from the name, if these are few.
pub fn nearest_name(
    alloc: Global,
    name: &str,
    names: &[&'static str],
) -> Result<Option<&'static str>, AllocError>
    ensures { IfOk result (IsNearest (λ known. known.now) name.now names.now) }
{
    let mut nearest = None;
    let mut least = FEW + 1;
    for known in names {
        let edits = levenshtein(alloc, name, known)?;
        let (near, fewest) = nearer(nearest, least, *known, edits);
        nearest = near;
        least = fewest;
    }
    Ok(nearest)
}
