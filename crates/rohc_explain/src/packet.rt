//! The fields of a whole packet.

ghost use Rattle.std.specs.Prelude.{◌≡◌, All, true, IfOk};
ghost use Rattle.rohc_explain.specs.Told.{StandsInPlace, are_in_turn};

use crate::base::{behind_first, first_octet};
use crate::field::{Field, FieldName};
use crate::telling::{Stop, Telling};
use rohc_forms::FormKind;
use rohc_frame::CidKind;
use std::alloc::{AllocError, Global};

/// What a context says of the octets of a UO-0, UO-1 or UOR-2.
#[derive(Clone, Copy, PartialEq, Eq)]
pub struct Terms {
    /// Whether the Identification is random: RND, as the context has it.
    pub rnd: bool,
    /// Whether packets carry a UDP checksum.
    pub udp_sum: bool,
    /// The format, by the RND in force.
    pub kind: FormKind,
}

/// What a packet is, by the first octet of its header.
#[derive(Clone, Copy, PartialEq, Eq)]
pub enum PacketKind {
    /// Padding and feedback alone.
    OnlyFront,
    /// FC or FD.
    Ir,
    /// F8.
    IrDyn,
    /// A format of profile 0x0001.
    Form(FormKind),
    /// A Normal packet of profile 0x0000, or a packet of a CID without a context: its format isn't known.
    Unknown,
    /// The octet begins no packet.
    NoPacket,
}

/// The fields of a packet.
#[derive(Drop)]
pub struct PacketFields {
    /// What the packet is.
    pub kind: PacketKind,
    /// The fields, one behind the other from the packet's first bit on.
    pub fields: Vec<Field>,
    /// The bit at which the last one ends, and the payload begins.
    pub end: u32,
    /// Whether all fields of the header are there. If not, the packet ends before, or an octet in it has no meaning.
    pub is_whole: bool,
}

impl Telling<'_> {
    /// Tells a UO-0, UO-1 or UOR-2.
    fn form(&mut self, size: CidKind, terms: &Terms) -> Result<(), Stop>
        ensures kept { self.new.octets.now ≡ self.old.octets.now }
    {
        self.row(first_octet(terms.kind))?;
        self.large_cid(size)?;
        self.row(behind_first(terms.kind))?;
        let rnd = if self.is_extended() {
            self.extension(terms.kind, terms.rnd)?
        } else {
            terms.rnd
        };
        self.tell_if(rnd, FieldName::IpId, 16)?;
        self.tell_if(terms.udp_sum, FieldName::UdpSum, 16)
    }

    /// Whether a flag X that was told says that an extension follows.
    fn is_extended(&self) -> bool {
        self.fields
            .iter()
            .any(|field| field.name == FieldName::X && field.value == 1)
    }

    /// Tells an IR.
    fn ir(&mut self, size: CidKind) -> Result<(), Stop>
        ensures kept { self.new.octets.now ≡ self.old.octets.now }
    {
        self.tell(FieldName::Format, 7)?;
        let dynamic = self.flag(FieldName::D)?;
        self.large_cid(size)?;
        let profile = self.tell(FieldName::Profile, 8)?;
        self.tell(FieldName::Crc, 8)?;
        if profile != 1 {
            return Ok(());
        }
        self.static_chain()?;
        if dynamic {
            self.dynamic_chain()?;
        }
        Ok(())
    }

    /// Tells an IR-DYN.
    fn ir_dyn(&mut self, size: CidKind) -> Result<(), Stop>
        ensures kept { self.new.octets.now ≡ self.old.octets.now }
    {
        self.tell(FieldName::Format, 8)?;
        self.large_cid(size)?;
        let profile = self.tell(FieldName::Profile, 8)?;
        self.tell(FieldName::Crc, 8)?;
        if profile != 1 {
            return Ok(());
        }
        self.dynamic_chain()
    }

    /// Tells the first octet and the CID of a packet whose format isn't known.
    fn unknown(&mut self, size: CidKind) -> Result<(), Stop>
        ensures kept { self.new.octets.now ≡ self.old.octets.now }
    {
        self.tell(FieldName::TypeOctet, 8)?;
        self.large_cid(size)
    }

    /// Tells a header.
    fn header(&mut self, size: CidKind, kind: PacketKind, terms: Option<Terms>) -> Result<(), Stop>
        ensures kept { self.new.octets.now ≡ self.old.octets.now }
    {
        match (kind, terms) {
            (PacketKind::OnlyFront, _) => Ok(()),
            (PacketKind::Ir, _) => self.ir(size),
            (PacketKind::IrDyn, _) => self.ir_dyn(size),
            (PacketKind::Form(_), Some(terms)) => self.form(size, &terms),
            (PacketKind::Form(_) | PacketKind::Unknown, _) => self.unknown(size),
            (PacketKind::NoPacket, _) => {
                self.tell(FieldName::TypeOctet, 8)?;
                Err(Stop::Short)
            }
        }
    }

    /// Tells what stands in front of a header.
    fn before_header(&mut self, size: CidKind) -> Result<(), Stop>
        ensures kept { self.new.octets.now ≡ self.old.octets.now }
    {
        self.front()?;
        self.add_cid(size)
    }

    /// Tells a packet, and returns what it is, and why no more is told, if not all is.
    fn packet(&mut self, size: CidKind, terms: Option<Terms>) -> (PacketKind, Result<(), Stop>)
        ensures kept { self.new.octets.now ≡ self.old.octets.now }
    {
        if let Err(stop) = self.before_header(size) {
            return (PacketKind::OnlyFront, Err(stop));
        }
        let kind = kind_of(self.next_octet(), terms);
        let told = self.header(size, kind, terms);
        (kind, told)
    }
}

/// What begins with this octet, if one is there. The terms are those of the CID's context, if it has some.
fn kind_of(octet: Option<u8>, terms: Option<Terms>) -> PacketKind {
    match (octet, terms) {
        (None, _) => PacketKind::OnlyFront,
        (Some(0xfc | 0xfd), _) => PacketKind::Ir,
        (Some(0xf8), _) => PacketKind::IrDyn,
        (Some(0x00..=0xdf), Some(terms)) => PacketKind::Form(terms.kind),
        (Some(0x00..=0xdf), None) => PacketKind::Unknown,
        (Some(_), _) => PacketKind::NoPacket,
    }
}

/// Passes on the fields of a packet. Without terms, those of a UO-0, UO-1 or UOR-2 are left out, since their format
/// isn't known.
///
/// The number of each field is the one of the bits in its place, and no bit before the payload stands in no field or
/// in two. Which fields there are is only tested.
pub fn packet_fields(
    alloc: Global,
    size: CidKind,
    octets: &[u8],
    terms: Option<Terms>,
) -> Result<PacketFields, AllocError>
    ensures in_place { IfOk result (λ told. All (StandsInPlace octets.now) told.fields.items) }
    ensures in_turn { IfOk result (λ told. are_in_turn 0 told.fields.items told.end ≡ true) }
{
    let mut telling = Telling::over(alloc, octets);
    let (kind, told) = telling.packet(size, terms);
    let is_whole = match told {
        Ok(()) => true,
        Err(Stop::Short) => false,
        Err(Stop::NoMemory) => return Err(AllocError),
    };
    Ok(PacketFields {
        kind,
        fields: telling.fields,
        end: telling.at,
        is_whole,
    })
}
