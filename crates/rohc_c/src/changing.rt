//! Why a link isn't added or changed, as C reads it.

ghost use Rattle.std.specs.Prelude.{◌≡◌, ◌≢◌, ◌≤◌};
ghost use Rattle.rohc_concentrator.specs.Calls.{NotAdded, NotChanged};
ghost use Rattle.rohc_c.specs.Calls.{status_of};

use rohc_concentrator::{AddFault, ChangeFault};

/// The status that C gets if a link isn't added.
pub(crate) fn add_number(fault: AddFault) -> u8
    ensures number { result ≡ status_of (NotAdded fault) }
    ensures some { 2 ≤ result }
    ensures apart { result ≢ 3 }
{
    match fault {
        AddFault::TooManyLinks => 2,
        AddFault::BadSetting => 4,
        AddFault::DuplicateLink => 5,
        AddFault::NoMemory => 6,
    }
}

/// The status that C gets if a link isn't changed.
pub(crate) fn change_number(fault: ChangeFault) -> u8
    ensures number { result ≡ status_of (NotChanged fault) }
    ensures some { 4 ≤ result }
{
    match fault {
        ChangeFault::BadSetting => 4,
        ChangeFault::NoLink => 7,
    }
}
