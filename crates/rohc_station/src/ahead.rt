//! What a packet is and which attempt matches, before it is taken: what `rohctl explain` shows of both.

ghost use Rattle.std.specs.Prelude.{◌≡◌, Some};

use crate::station::Station;
use crate::timed::Timed;
use rohc_concentrator::LinkRecords;
use rohc_context::{Tries, Untried};
use rohc_forms::FormKind;
use rohc_frame::{Forward, HeadKind, cut};
use std::fmt;

/// What a packet is.
#[derive(Clone, Copy, PartialEq, Eq)]
pub enum Format {
    /// Padding and feedback, if it is a packet at all.
    NoHeader,
    /// FC or FD.
    Ir,
    /// F8.
    IrDyn,
    /// A Normal packet of profile 0x0000.
    Normal,
    /// A format of profile 0x0001.
    Form(FormKind),
    /// A packet of a CID whose context makes no attempt.
    Unknown,
}

/// What is known of a packet before it is taken.
#[derive(Clone, Copy)]
pub struct Ahead {
    /// The CID that it bears, if its link is there and it bears one.
    pub cid: Option<u16>,
    /// What it is.
    pub format: Format,
    /// The number of the attempt that matches, from 1 on, if one does.
    pub attempt: Option<u8>,
}

impl fmt::Display for Format {
    fn fmt<W: fmt::Write>(&self, f: &mut fmt::Formatter<W>) -> fmt::Result {
        f.write_str(match self {
            Format::NoHeader => "no header",
            Format::Ir => "IR",
            Format::IrDyn => "IR-DYN",
            Format::Normal => "Normal",
            Format::Form(FormKind::Uo0) => "UO-0",
            Format::Form(FormKind::Uo1) => "UO-1",
            Format::Form(FormKind::Uo1Id) => "UO-1-ID",
            Format::Form(FormKind::Uo1Ts) => "UO-1-TS",
            Format::Form(FormKind::Uor2) => "UOR-2",
            Format::Form(FormKind::Uor2Id) => "UOR-2-ID",
            Format::Form(FormKind::Uor2Ts) => "UOR-2-TS",
            Format::Unknown => "unknown",
        })
    }
}

/// The number of the first attempt that matches.
fn matching(tries: &Tries<'_>) -> Option<u8> {
    match tries.tries.iter().position(|one| one.fits()) {
        Some(0) => Some(1),
        Some(1) => Some(2),
        Some(_) => Some(3),
        None => None,
    }
}

/// What a context makes of a packet of its CID.
fn ahead_of(records: &LinkRecords, moment: u64, forward: &Forward<'_>) -> Ahead
    ensures { result.cid ≡ Some forward.now.cid }
{
    let cid = Some(forward.cid);
    let (format, attempt) = match (forward.kind, records.contexts.get(&forward.cid)) {
        (HeadKind::Ir { .. }, _) => (Format::Ir, None),
        (HeadKind::IrDyn, _) => (Format::IrDyn, None),
        (HeadKind::Other, None) => (Format::Unknown, None),
        (HeadKind::Other, Some(context)) => {
            let settings = records.setting.settings_of(forward.cid);
            match context.tries(&settings, moment, forward) {
                Ok(tries) => (Format::Form(tries.form.kind), matching(&tries)),
                Err(Untried::Plain) => (Format::Normal, None),
                Err(_) => (Format::Unknown, None),
            }
        }
    };
    Ahead {
        cid,
        format,
        attempt,
    }
}

/// Nothing is known of a packet without a header.
fn nothing() -> Ahead
    ensures { result.cid ≡ None }
{
    Ahead {
        cid: None,
        format: Format::NoHeader,
        attempt: None,
    }
}

/// What is known of a packet of a link before it is taken.
fn ahead_on(records: &LinkRecords, arrival: &Timed<'_>) -> Ahead
    ensures { result.cid ≡ cid_in (header_on records.now.setting arrival.now.packet.now) }
{
    match cut(
        records.setting.settings.size,
        records.setting.settings.max_cid,
        arrival.packet,
    ) {
        Ok(framed) => match framed.forward {
            Some(forward) => ahead_of(records, arrival.moment, &forward),
            None => nothing(),
        },
        Err(_) => nothing(),
    }
}

ghost use Rattle.std.specs.Prelude.{None};
ghost use Rattle.rohc_concentrator.specs.Bears.{cid_in, header_on};

impl Station {
    ghost use Rattle.std.specs.Prelude.{◌≡◌};
    ghost use Rattle.rohc_concentrator.specs.Tables.{setting_at};
    ghost use Rattle.rohc_concentrator.specs.Bears.{borne};

    /// What a packet is, and which attempt matches, before it is taken. It changes nothing. Format and attempt are only tested.
    pub fn ahead(&self, arrival: &Timed<'_>) -> Ahead
        ensures { result.cid ≡ borne (setting_at self.now.concentrator arrival.now.link) arrival.now.packet.now }
    {
        match self.concentrator.tables().get(&arrival.link) {
            Some(records) => ahead_on(records, arrival),
            None => nothing(),
        }
    }
}
