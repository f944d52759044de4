//! Reading a context within a saved concentrator.

ghost use Rattle.std.specs.Prelude.{◌≡◌};
ghost use Rattle.rohc_bits.specs.Reading.{ReadsAs};
ghost use Rattle.rohc_context.specs.Record.{record_of};
ghost use Rattle.rohc_saved.specs.Reading.{placed, record_text_at};

use crate::fault::SavedFault;
use rohc_bits::Cursor;
use rohc_context::{Context, ContextFault};

/// A fault of a context at its place in the whole text.
fn placed(total: usize, fault: ContextFault) -> SavedFault
    ensures { result ≡ placed total fault }
{
    match fault {
        ContextFault::Short => SavedFault::Short { place: total },
        ContextFault::Bad { left } => SavedFault::BadContext {
            place: total.saturating_sub(left),
        },
        ContextFault::Long { left } => SavedFault::Long {
            place: total.saturating_sub(left),
        },
    }
}

/// Reads a context.
pub(crate) fn context(total: usize, cursor: &mut Cursor<'_>) -> Result<Context, SavedFault>
    ensures reads { ReadsAs record_of result cursor.new (record_text_at total cursor.old) }
{
    match Context::take_saved(cursor) {
        Ok(context) => Ok(context),
        Err(fault) => Err(placed(total, fault)),
    }
}
