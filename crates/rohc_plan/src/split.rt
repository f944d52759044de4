//! Links spread over processes.

ghost use Rattle.std.specs.Prelude.{◌≡◌, ◌↔◌, [], length, None, IfSome};
ghost use Rattle.rohc_plan.specs.Split.{IsFirstLeast};

/// The place of the first of the least numbers; `None` if there are no numbers.
pub fn least_share(shares: &[u64]) -> Option<usize>
    ensures none { (result ≡ None) ↔ (shares.now ≡ []) }
    ensures first { IfSome result (λ place. IsFirstLeast shares.now (length shares.now) place) }
{
    if shares.is_empty() {
        return None;
    }
    let mut least = 0;
    for place in 1..shares.len() {
        if shares[place] < shares[least] {
            least = place;
        }
    }
    Some(least)
}
