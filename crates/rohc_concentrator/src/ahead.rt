//! What is seen of a packet before it arrives.

use crate::concentrator::Concentrator;
use crate::place::place_of;
use rohc_context::Context;
use rohc_frame::plain_header;

impl Concentrator {
    ghost use Rattle.std.specs.Prelude.{◌≡◌, IfSome, option_map, slice_get};
    ghost use Rattle.rohc_context.specs.Record.{record_of};
    ghost use Rattle.rohc_concentrator.specs.Tables.{setting_at, record_at, identifiers_at};
    ghost use Rattle.rohc_concentrator.specs.Bears.{borne};
    ghost use Rattle.rohc_concentrator.specs.Ahead.{record_ahead};

    /// The context that a packet of a link would be for, which begins with a header of kind Other, and its place among those of
    /// the link; `None` for any other packet, and without such a context. One that was idle too long is one, too.
    ///
    /// A caller who knows the packets that come next may look at their contexts before they arrive. So memory brings many of
    /// them at once, and not one after another.
    #[inline(always)]
    pub fn context_ahead(&self, link: u16, octets: &[u8]) -> Option<(usize, &Context)>
        ensures record { option_map (λ c. record_of c.1.now) result ≡ record_ahead (setting_at self.now link) (record_at self.now link) octets.now }
        ensures place { IfSome result (λ c. slice_get (identifiers_at self.now link) c.0 ≡ borne (setting_at self.now link) octets.now) }
    {
        let place = place_of(&self.links, self.hints.links.hint(link), link)?;
        let (_, records) = self.links.get_index(place)?;
        let settings = &records.setting.settings;
        let forward = plain_header(settings.size, settings.max_cid, octets)?;
        let hint = self.hints.context(place, forward.cid);
        let place = place_of(&records.contexts, hint, forward.cid)?;
        let (_, context) = records.contexts.get_index(place)?;
        Some((place, context))
    }
}
