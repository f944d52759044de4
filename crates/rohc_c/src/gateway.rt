//! The gateway that a caller in C keeps: a concentrator, or none.

ghost use Rattle.std.specs.Prelude.{◌≡◌, is_some};

use crate::handle::Handle;
use crate::loose::Loose;
use rohc_concentrator::Concentrator;
use std::alloc::Global;

/// A concentrator, or none if all octets of the struct are 0: `struct polorowan_gateway` of
/// include/polorowan.h.
#[repr(C)]
#[derive(Drop)]
pub struct Gateway {
    /// Whether there is a concentrator.
    pub(crate) live: bool,
    /// The address of the concentrator.
    pub(crate) handle: Handle,
    ghost agrees: { live ≡ is_some handle.concentrator },
}

impl Gateway {
    ghost use Rattle.std.specs.Prelude.{◌≡◌, Some, None, IsSome};
    ghost use Rattle.rohc_c.specs.Calls.{concentrator_in};

    /// Puts a concentrator into the gateway.
    pub(crate) fn put(&mut self, concentrator: Box<Concentrator>)
        ensures { concentrator_in self.new ≡ Some concentrator.value }
    {
        self.live = true;
        self.handle = Handle::of(Loose::of(concentrator));
    }

    /// Takes the concentrator out of the gateway, and leaves none.
    pub(crate) fn take(&mut self, alloc: Global) -> Box<Concentrator>
        requires { IsSome (concentrator_in self.old) }
        ensures taken { concentrator_in self.old ≡ Some result.value }
        ensures none { concentrator_in self.new ≡ None }
    {
        self.live = false;
        let handle = std::mem::replace(&mut self.handle, Handle::none());
        handle.open(alloc).into_box()
    }
}
