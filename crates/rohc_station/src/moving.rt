//! A link that is moved from one gateway to another: its contexts.

use crate::station::Station;
use rohc_saved::{LinkFault, Restored, SaveFault, restore_link, save_link};
use std::alloc::Global;
use std::io::Write;

impl Station {
    ghost use Rattle.std.specs.Prelude.{◌≡◌, List};
    ghost use Rattle.rohc_concentrator.specs.RunsCall.{Turn};
    ghost use Rattle.rohc_concentrator.specs.Tables.{setting_at};
    ghost use Rattle.rohc_saved.specs.Output.{SavesLink};
    ghost use Rattle.rohc_station.specs.Importing.{Imports};

    /// Writes one link, as `rohc_saved::save_link` does: what `import` reads. Nothing changes.
    pub fn export<W: Write>(&self, link: u16, moment: u64, writer: &mut W) -> Result<u64, SaveFault>
        ensures { SavesLink moment self.now.concentrator (setting_at self.now.concentrator link) (W.contents writer.old)
            (W.contents writer.new) result }
    {
        save_link(&self.concentrator, link, moment, writer)
    }

    /// Puts the contexts of a link into it, from what `export` wrote, as `rohc_saved::restore_link` does. The link is there,
    /// and holds no context. Counts stay as they are.
    pub fn import(&mut self, alloc: Global, link: u16, octets: &[u8]) -> Result<Restored, LinkFault>
        ensures { (calls : List Turn) × Imports self.old self.new link octets.now result calls }
    {
        restore_link(alloc, &mut self.concentrator, link, octets)
    }
}
