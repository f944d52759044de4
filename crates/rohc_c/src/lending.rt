//! The concentrator of a handle, while the handle is borrowed.

use crate::handle::Handle;
use rohc_concentrator::Concentrator;

impl Handle {
    ghost use Rattle.std.specs.Prelude.{◌≡◌, Some, IsSome};
    ghost use Rattle.std.specs.Borrow.{sem};
    ghost use Rattle.rohc_c.specs.Lending.{LendsItsOwn};

    /// Lends the concentrator of a handle that owns one, where it stands.
    pub(crate) fn lend(&mut self) -> &mut Concentrator
        requires { IsSome self.old.concentrator }
        ensures* writes_back { sem 𝓛 (LendsItsOwn self.entry result) }
        ensures value { Some result.now ≡ self.old.concentrator }
    {
        unsafe { &mut *(self.at as *mut Concentrator) }
    }
}
