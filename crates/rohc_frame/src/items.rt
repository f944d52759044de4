//! What may precede a header: padding and feedback elements (RFC 5795 5.2).

ghost use Rattle.std.specs.Prelude.{◌≡◌, [], ◌∷◌, MatchOption};
ghost use Rattle.rohc_frame.specs.Items.{first_item, after_items, elements_in, sized, coded};
ghost use Rattle.rohc_frame.specs.Read.{split_in, split_of};

/// A padding octet, or the data of a feedback element.
#[derive(Clone, Copy)]
pub(crate) enum Item<'a> {
    Padding,
    Element(&'a [u8]),
}

/// The item at the start of the octets, if a whole one stands there, and the octets after it.
#[tactic(auto, unfolding(crate::specs::Items::first_item))]
pub(crate) fn split_item<'a>(octets: &'a [u8]) -> Option<(Item<'a>, &'a [u8])>
    ensures { split_in result ≡ split_of (first_item octets.entry.now) }
{
    let (first, behind) = octets.split_first()?;
    match first {
        0xe0 => Some((Item::Padding, behind)),
        0xf0 => {
            let (size, behind) = behind.split_first()?;
            element(*size, behind)
        }
        0xf1..=0xf7 => element(first & 0x07, behind),
        _ => None,
    }
}

/// A feedback element whose `size` octets of data stand at the start of these octets, and the
/// octets after it.
fn element<'a>(size: u8, octets: &'a [u8]) -> Option<(Item<'a>, &'a [u8])>
    ensures { split_in result ≡ split_of (coded size octets.entry.now) }
{
    let (data, behind) = octets.split_at_checked(usize::from(size))?;
    Some((Item::Element(data), behind))
}

/// The data of the first feedback element, padding skipped, and the octets after it.
pub(crate) fn split_element<'a>(octets: &'a [u8]) -> Option<(&'a [u8], &'a [u8])>
    ensures { MatchOption result (elements_in octets.entry.now ≡ [])
        (λ split. elements_in octets.entry.now ≡ split.0.now ∷ elements_in split.1.now) }
{
    let mut rest = octets;
    while let Some((item, behind)) = split_item(rest) {
        if let Item::Element(data) = item {
            return Some((data, behind));
        }
        rest = behind;
    }
    None
}

/// The octets after the longest list of whole items.
pub(crate) fn after_items(octets: &[u8]) -> &[u8]
    ensures { result.now ≡ after_items octets.now }
{
    let mut rest = octets;
    while let Some((_, behind)) = split_item(rest) {
        rest = behind;
    }
    rest
}
