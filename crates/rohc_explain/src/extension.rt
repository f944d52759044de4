//! Extensions (RFC 3095 5.7.5).

ghost use Rattle.std.specs.Prelude.{◌≡◌};

use crate::field::FieldName;
use crate::telling::{Stop, Telling};
use rohc_forms::FormKind;

/// The fields to which +T and -T of an extension belong.
fn plus_and_minus(kind: FormKind) -> (FieldName, FieldName) {
    match kind {
        FormKind::Uo1Id | FormKind::Uor2Id => (FieldName::IpId, FieldName::Ts),
        FormKind::Uor2Ts => (FieldName::Ts, FieldName::IpId),
        FormKind::Uo0 | FormKind::Uo1 | FormKind::Uo1Ts | FormKind::Uor2 => {
            (FieldName::Ts, FieldName::Ts)
        }
    }
}

/// The flags of the ip octet that announce octets, and the RND that it gives.
#[derive(Clone, Copy)]
struct IpFlags {
    tos: bool,
    ttl: bool,
    protocol: bool,
    rnd: bool,
}

impl Telling<'_> {
    /// Tells an extension of a packet of this format, and returns the RND in force behind it.
    pub(crate) fn extension(&mut self, kind: FormKind, rnd: bool) -> Result<bool, Stop>
        ensures kept { self.new.octets.now ≡ self.old.octets.now }
    {
        let (plus, minus) = plus_and_minus(kind);
        let number = self.tell(FieldName::Format, 2)?;
        if number == 3 {
            return self.extension_3(rnd);
        }
        self.tell(FieldName::Sn, 3)?;
        self.tell(plus, 3)?;
        self.tell_if(number == 2, plus, 8)?;
        self.tell_if(number != 0, minus, 8)?;
        Ok(rnd)
    }

    /// Tells an extension 3 behind its first two bits.
    fn extension_3(&mut self, rnd: bool) -> Result<bool, Stop>
        ensures kept { self.new.octets.now ≡ self.old.octets.now }
    {
        let sn = self.flag(FieldName::S)?;
        let ts = self.flag(FieldName::RTs)?;
        self.flag(FieldName::Tsc)?;
        let offset = self.flag(FieldName::I)?;
        let ip = self.flag(FieldName::Ip)?;
        let rtp = self.flag(FieldName::Rtp)?;
        let flags = if ip { Some(self.ip_octet()?) } else { None };
        self.tell_if(sn, FieldName::Sn, 8)?;
        if ts {
            self.value(FieldName::Ts)?;
        }
        if let Some(flags) = flags {
            self.tell_if(flags.tos, FieldName::Tos, 8)?;
            self.tell_if(flags.ttl, FieldName::Ttl, 8)?;
            self.tell_if(flags.protocol, FieldName::Protocol, 8)?;
        }
        self.tell_if(offset, FieldName::IpId, 16)?;
        if rtp {
            self.rtp_octets()?;
        }
        Ok(match flags {
            Some(flags) => flags.rnd,
            None => rnd,
        })
    }

    /// Tells the ip octet.
    fn ip_octet(&mut self) -> Result<IpFlags, Stop>
        ensures kept { self.new.octets.now ≡ self.old.octets.now }
    {
        let tos = self.flag(FieldName::TosFlag)?;
        let ttl = self.flag(FieldName::TtlFlag)?;
        self.flag(FieldName::Df)?;
        let protocol = self.flag(FieldName::Pr)?;
        self.flag(FieldName::Ipx)?;
        self.flag(FieldName::Nbo)?;
        let rnd = self.flag(FieldName::Rnd)?;
        self.flag(FieldName::Ip2)?;
        Ok(IpFlags {
            tos,
            ttl,
            protocol,
            rnd,
        })
    }

    /// Tells the rtp octet and what it announces.
    fn rtp_octets(&mut self) -> Result<(), Stop>
        ensures kept { self.new.octets.now ≡ self.old.octets.now }
    {
        self.tell(FieldName::Mode, 2)?;
        let payload_type = self.flag(FieldName::RPt)?;
        self.flag(FieldName::M)?;
        self.flag(FieldName::RX)?;
        self.flag(FieldName::Csrc)?;
        let stride = self.flag(FieldName::Tss)?;
        let time_stride = self.flag(FieldName::Tis)?;
        if payload_type {
            self.flag(FieldName::P)?;
            self.tell(FieldName::Pt, 7)?;
        }
        if stride {
            self.value(FieldName::TsStride)?;
        }
        if time_stride {
            self.value(FieldName::TimeStride)?;
        }
        Ok(())
    }
}
