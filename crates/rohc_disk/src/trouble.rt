//! Why a call to the system failed.

ghost use Rattle.std.specs.Prelude.{◌≡◌, Some, Ok, IfOk, IfErr};
ghost use Rattle.std.specs.IoError.{error_kind};
ghost use Rattle.rohc_text.specs.Reason.{reason_of};
ghost use Rattle.rohc_world.specs.Acts.{reason_for};

use rohc_text::Reason;
use rohc_world::Trouble;
use std::io::{self, ErrorKind};

/// Why a call failed.
pub fn trouble_of(error: &io::Error) -> Trouble
    ensures { (reason : Reason) → reason_of (error_kind error.now) ≡ Some reason → reason_for result ≡ reason }
{
    match error.kind() {
        ErrorKind::WouldBlock | ErrorKind::TimedOut => Trouble::Later,
        _ => Trouble::Failed(Reason::of(error)),
    }
}

/// The answer of a call.
pub fn answer_of<T>(answer: io::Result<T>) -> Result<T, Trouble>
    ensures done { IfOk answer (λ value. result ≡ Ok value) }
    ensures failed { IfErr answer (λ error. (reason : Reason) → reason_of (error_kind error) ≡ Some reason
        → IfErr result (λ trouble. reason_for trouble ≡ reason)) }
{
    match answer {
        Ok(value) => Ok(value),
        Err(e) => Err(trouble_of(&e)),
    }
}
