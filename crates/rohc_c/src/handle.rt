//! The address of a concentrator, as C keeps it.

ghost use Rattle.std.specs.Prelude.{◌≡◌, Option, Some, None, IsSome};
ghost use Rattle.std.specs.Coded.{coded_option};
ghost use Rattle.rohc_concentrator.specs.contracts.concentrator.Concentrator.{the_row};
ghost use Rattle.rohc_concentrator.specs.declared.concentrator.Concentrator.{Concentrator};
ghost use Rattle.rohc_c.specs.Held.{held};

use crate::loose::Loose;
use rohc_concentrator::Concentrator;
use std::alloc::Global;
use std::marker::Model;

/// The address of a concentrator on the heap, which the handle owns, or of nothing.
///
/// C may not hold a type that points to a concentrator, so the address is that of an octet.
#[repr(C)]
#[derive(Drop)]
pub struct Handle {
    pub(crate) at: *mut u8,
    pub ghost concentrator: { Option Concentrator } by { coded_option the_row.coded },
}

impl Model for Handle {
    ghost also_owns = { λ h. held the_row h.at h.concentrator };
}

impl Handle {
    /// The handle of a concentrator.
    pub(crate) fn of(concentrator: Loose<Concentrator, Global>) -> Handle
        ensures { result.concentrator ≡ Some concentrator.value }
    {
        let Loose { at, alloc: _ } = concentrator;
        Handle { at: at as *mut u8 }
    }

    /// The handle of no concentrator.
    pub(crate) fn none() -> Handle
        ensures { result.concentrator ≡ None }
    {
        Handle {
            at: std::ptr::null_mut(),
        }
    }

    /// The concentrator of a handle that owns one.
    pub(crate) fn open(self, alloc: Global) -> Loose<Concentrator, Global>
        requires { IsSome self.concentrator }
        ensures { Some result.value ≡ self.concentrator }
    {
        let Handle { at } = self;
        Loose {
            at: at as *mut Concentrator,
            alloc,
        }
    }
}

unsafe impl Send for Handle {}
