//! What IR and IR-DYN packets say.

use rohc_header::{Dynamic, Static};

/// The content of an IR packet.
#[derive(Clone, Copy)]
pub enum Ir<'a> {
    /// Profile 0x0000: the IP packet that it carries, or no octets.
    Plain {
        packet: &'a [u8],
    },
    /// Profile 0x0001, without a dynamic chain.
    StaticOnly {
        fixed: Static,
    },
    /// Profile 0x0001, with both chains.
    Whole {
        fixed: Static,
        moving: Dynamic,
        payload: &'a [u8],
    },
}

/// The content of an IR-DYN packet of profile 0x0001.
#[derive(Clone, Copy)]
pub struct IrDyn<'a> {
    /// The fields of the dynamic chain.
    pub moving: Dynamic,
    /// The octets after the header.
    pub payload: &'a [u8],
}
