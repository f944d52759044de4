//! Why a call to the outside failed.

ghost use Rattle.std.specs.Prelude.{◌≡◌};
ghost use Rattle.rohc_world.specs.Acts.{reason_for};

use rohc_text::Reason;

/// Why a call to the outside failed.
#[derive(Clone, Copy, PartialEq, Eq)]
pub enum Trouble {
    /// Nothing waits, or nothing can be accepted now.
    Later,
    /// It failed for this reason.
    Failed(Reason),
}

impl Trouble {
    /// The reason, as messages name it.
    pub fn reason(self) -> Reason
        ensures { result ≡ reason_for self }
    {
        match self {
            Trouble::Later => Reason::TimedOut,
            Trouble::Failed(reason) => reason,
        }
    }
}
