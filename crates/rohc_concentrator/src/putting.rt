//! Adding a context to a link, as one that was restored.

ghost use Rattle.std.specs.Prelude.{◌≡◌, ◌≢◌, ◌++◌, ◌∷◌, [], ℕ, None, Some, OnOk, IfErr};
ghost use Rattle.indexmap.specs.IndexMap.{keys};
ghost use Rattle.rohc_context.specs.Record.{record_of};
ghost use Rattle.rohc_concentrator.specs.Tables.{record_in};
ghost use Rattle.rohc_concentrator.specs.Taken.{Stays};
ghost use Rattle.rohc_concentrator.specs.Putting.{PutsIn, PutFaultIn};

use crate::concentrator::Concentrator;
use crate::records::LinkRecords;
use rohc_context::Context;

/// Why a context isn't put into a concentrator.
#[derive(Clone, Copy, Debug, PartialEq, Eq)]
pub enum PutFault {
    /// The link isn't there.
    NoLink,
    /// The CID is above the link's `max_cid`.
    CidRange,
    /// The CID has a record.
    HasRecord,
    /// There is no memory.
    NoMemory,
}

/// Adds a context to the records of a link.
fn put_in(records: &mut LinkRecords, cid: u16, context: Context) -> Result<(), PutFault>
    ensures put { OnOk result (PutsIn records.old cid (record_of context) records.new) }
    ensures stays { IfErr result (λ e. Stays records.old records.new) }
    ensures fault { IfErr result (PutFaultIn records.old.setting (record_in records.old cid) cid) }
{
    if cid > records.setting.settings.max_cid {
        return Err(PutFault::CidRange);
    }
    if records.contexts.contains_key(&cid) {
        return Err(PutFault::HasRecord);
    }
    match records.contexts.insert(cid, context) {
        Ok(_) => Ok(()),
        Err(_) => Err(PutFault::NoMemory),
    }
}

impl Concentrator {
    ghost use Rattle.rohc_context.specs.Record.{record_of};
    ghost use Rattle.rohc_concentrator.specs.Calls.{Put, put_answer};
    ghost use Rattle.rohc_concentrator.specs.RunsCall.{RunsCall};

    /// Adds a context after those of a link, as the record of a CID that has none.
    ///
    /// The error is the first that holds, in this order: `NoLink`, `CidRange`, `HasRecord`, and `NoMemory`, which comes
    /// only if a request for memory was refused. Then nothing changes.
    pub fn put(&mut self, link: u16, cid: u16, context: Context) -> Result<(), PutFault>
        ensures event { RunsCall self.old link (Put cid (record_of context)) (put_answer result) self.new }
    {
        let Some(records) = self.links.get_mut(&link) else {
            return Err(PutFault::NoLink);
        };
        put_in(records, cid, context)?;
        self.hints.keep_last(&self.links, link, cid);
        Ok(())
    }
}
