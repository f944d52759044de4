//! The content of a links file.

ghost use Rattle.std.specs.Prelude.{◌≡◌, [], ◌∷◌, ◌++◌, length, OnOk};

use crate::ports::Ports;
use rohc_concentrator::LinkSetting;
use std::alloc::{AllocError, Global};
use std::marker::Model;

/// The content of a links file: a setting and its ports for each entry, in order.
#[derive(Drop)]
pub struct Links {
    settings: Vec<LinkSetting>,
    ports: Vec<Ports>,
}

impl Model for Links {
    ghost use Rattle.std.specs.Prelude.{◌≡◌, length};
    ghost use Rattle.rohc_links.specs.Links.{Lists};

    ghost Value = { Lists };

    ghost view = { λ l. record { settings = l.settings.items; ports = l.ports.items } };

    ghost invariant = { λ l. length l.settings.items ≡ length l.ports.items };
}

impl Links {
    /// No entries.
    pub(crate) fn new(alloc: Global) -> Links
        ensures settings { result.settings ≡ [] }
        ensures ports { result.ports ≡ [] }
    {
        Links {
            settings: Vec::new(alloc),
            ports: Vec::new(alloc),
        }
    }

    /// Appends the setting and the ports of an entry.
    pub(crate) fn push(&mut self, setting: LinkSetting, ports: Ports) -> Result<(), AllocError>
        ensures settings { OnOk result (self.new.settings ≡ self.old.settings ++ setting ∷ []) }
        ensures ports { OnOk result (self.new.ports ≡ self.old.ports ++ ports ∷ []) }
    {
        self.settings.reserve(1)?;
        self.ports.push(ports)?;
        self.settings.push(setting)?;
        Ok(())
    }

    /// The settings of the entries, in order. Needs no memory.
    pub fn settings(&self) -> &[LinkSetting]
        ensures { result.now ≡ self.now.settings }
    {
        self.settings.as_slice()
    }

    /// The ports of the entries, in order, as many as there are settings. Needs no memory.
    pub fn ports(&self) -> &[Ports]
        ensures value { result.now ≡ self.now.ports }
        ensures paired { length self.now.ports ≡ length self.now.settings }
    {
        self.ports.as_slice()
    }
}
