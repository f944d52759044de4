//! The links and contexts of a concentrator, by index.

ghost use Rattle.std.specs.Prelude.{◌≡◌, Some, IfSome, option_map, slice_get};
ghost use Rattle.rohc_context.specs.Record.{record_of};
ghost use Rattle.rohc_concentrator.specs.Tables.{settings_in_order, identifiers_at, record_at};

use crate::concentrator::Concentrator;
use rohc_context::Context;

impl Concentrator {
    /// The number of the link at an index, from 0 in the order of the settings; `None` after the last.
    pub fn link_at(&self, place: usize) -> Option<u16>
        ensures { result ≡ option_map (λ s. s.link) (slice_get (settings_in_order self.now) place) }
    {
        let (_, records) = self.links.as_slice().get_index(place)?;
        Some(records.setting.link)
    }

    /// The CID at an index among those of a link that have a record, and its context.
    ///
    /// The index counts from 0, in the order of the CIDs' first IRs. After the last one, and if the link isn't there, the
    /// result is `None`. A record that was idle too long, and so counts as none, is still at its index.
    pub fn context_at(&self, link: u16, place: usize) -> Option<(u16, &Context)>
        ensures identifier { option_map (λ c. c.0) result ≡ slice_get (identifiers_at self.now link) place }
        ensures record { IfSome result (λ c. record_at self.now link c.0 ≡ Some (record_of c.1.now)) }
    {
        let records = self.links.get(&link)?;
        let (cid, context) = records.contexts.as_slice().get_index(place)?;
        Some((*cid, context))
    }
}
