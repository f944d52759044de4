//! Making a concentrator from the links that a caller in C describes.

ghost use Rattle.std.specs.Prelude.{◌≡◌, ◌≤◌, length, All, IfOk, OnOk, IfErr};
ghost use Rattle.rohc_c.specs.Settings.{HasFewRanges};
ghost use Rattle.rohc_c.specs.Setup.{IsNew, IsNewFault};

use crate::link::{RohcLink, link_settings};
use rohc_concentrator::{Concentrator, SetupFault};
use std::alloc::{AllocError, Global};

/// Why no concentrator is made from links. A place counts the links from 1.
#[derive(Clone, Copy, PartialEq, Eq)]
pub enum NewFault {
    /// A link counts more than eight ranges.
    TooManyRanges { place: usize },
    /// A fault of the settings, or lack of memory.
    Setup(SetupFault),
}

impl NewFault {
    ghost use Rattle.std.specs.Prelude.{◌≡◌};
    ghost use Rattle.rohc_c.specs.Setup.{fault_number, fault_place};

    /// The status that C gets for the fault.
    pub(crate) fn number(self) -> u8
        ensures { result ≡ fault_number self }
    {
        match self {
            NewFault::Setup(SetupFault::NoLinks) => 1,
            NewFault::Setup(SetupFault::TooManyLinks) => 2,
            NewFault::TooManyRanges { .. } => 3,
            NewFault::Setup(SetupFault::BadSetting { .. }) => 4,
            NewFault::Setup(SetupFault::DuplicateLink { .. }) => 5,
            NewFault::Setup(SetupFault::NoMemory) => 6,
        }
    }

    /// The place of the link at fault, or 0 if the fault is of no single link.
    pub(crate) fn place(self) -> usize
        ensures { result ≡ fault_place self }
    {
        match self {
            NewFault::TooManyRanges { place } => place,
            NewFault::Setup(SetupFault::BadSetting { place }) => place,
            NewFault::Setup(SetupFault::DuplicateLink { place }) => place,
            NewFault::Setup(_) => 0,
        }
    }
}

impl From<AllocError> for NewFault {
    ghost use Rattle.std.specs.Prelude.{◌≡◌};
    ghost use Rattle.rohc_concentrator.specs.declared.setup.SetupFault.TheVariants.{NoMemory};
    ghost use Rattle.rohc_c.specs.declared.setup.NewFault.TheVariants.{Setup};

    ghost from_gives = { λ refused fault. fault ≡ Setup NoMemory };

    /// The fault for a refused request for memory.
    fn from(_refused: AllocError) -> NewFault {
        NewFault::Setup(SetupFault::NoMemory)
    }
}

/// Finds more than 256 links, or else the first link that counts more than eight ranges.
pub(crate) fn judge(links: &[RohcLink]) -> Result<(), NewFault>
    ensures few { OnOk result (All HasFewRanges links.now) }
    ensures within { OnOk result (length links.now ≤ 256) }
    ensures fault { IfErr result (λ e. IsNewFault links.now e) }
{
    if links.len() > 256 {
        return Err(NewFault::Setup(SetupFault::TooManyLinks));
    }
    for (index, link) in links.iter().enumerate() {
        if link.range_count > 8 {
            return Err(NewFault::TooManyRanges { place: index + 1 });
        }
    }
    Ok(())
}

/// Makes a concentrator with these links, in this order, and without a record.
pub(crate) fn build(alloc: Global, links: &[RohcLink]) -> Result<Box<Concentrator>, NewFault>
    ensures made { IfOk result (λ b. IsNew links.now b.value) }
    ensures fault { IfErr result (λ e. IsNewFault links.now e) }
{
    judge(links)?;
    let settings = link_settings(alloc, links)?;
    let concentrator = Concentrator::new(alloc, settings.as_slice()).map_err(NewFault::Setup)?;
    Box::new(alloc, concentrator).map_err(|_| NewFault::Setup(SetupFault::NoMemory))
}
