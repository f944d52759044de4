//! The records of one link.

ghost use Rattle.rohc_concentrator.specs.Setting.{IsGoodSetting};

use crate::setting::LinkSetting;
use indexmap::IndexMap;
use rohc_context::Context;

/// A link's setting, and a record for each CID that has one.
#[derive(Drop)]
pub struct LinkRecords {
    /// The link's setting.
    pub setting: LinkSetting,
    /// The records in the order of their first IR.
    pub contexts: IndexMap<u16, Context>,
    ghost good: { IsGoodSetting setting },
}
