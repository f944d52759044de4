//! The chains of an IR or IR-DYN (RFC 3095 5.7.7.4 to 5.7.7.6).

ghost use Rattle.std.specs.Prelude.{◌≡◌};

use crate::field::FieldName;
use crate::telling::{Stop, Telling};

impl Telling<'_> {
    /// Tells the static chains of IPv4, UDP and RTP.
    pub(crate) fn static_chain(&mut self) -> Result<(), Stop>
        ensures kept { self.new.octets.now ≡ self.old.octets.now }
    {
        self.row(&[
            (FieldName::Version, 4),
            (FieldName::Reserved, 4),
            (FieldName::Protocol, 8),
            (FieldName::Source, 32),
            (FieldName::Destination, 32),
            (FieldName::SourcePort, 16),
            (FieldName::DestinationPort, 16),
            (FieldName::Ssrc, 32),
        ])
    }

    /// Tells the dynamic chains of IPv4, UDP and RTP.
    pub(crate) fn dynamic_chain(&mut self) -> Result<(), Stop>
        ensures kept { self.new.octets.now ≡ self.old.octets.now }
    {
        self.row(&[
            (FieldName::Tos, 8),
            (FieldName::Ttl, 8),
            (FieldName::IpId, 16),
            (FieldName::Df, 1),
            (FieldName::Rnd, 1),
            (FieldName::Nbo, 1),
            (FieldName::Reserved, 5),
            (FieldName::ExtensionHeaders, 8),
            (FieldName::UdpSum, 16),
            (FieldName::Version, 2),
            (FieldName::P, 1),
        ])?;
        let flags = self.flag(FieldName::RX)?;
        self.row(&[
            (FieldName::Cc, 4),
            (FieldName::M, 1),
            (FieldName::Pt, 7),
            (FieldName::Sn, 16),
            (FieldName::Ts, 32),
            (FieldName::CsrcList, 8),
        ])?;
        if flags {
            self.flags_octet()?;
        }
        Ok(())
    }

    /// Tells the octet of flags of RTP's dynamic chain, and the strides.
    fn flags_octet(&mut self) -> Result<(), Stop>
        ensures kept { self.new.octets.now ≡ self.old.octets.now }
    {
        self.tell(FieldName::Reserved, 3)?;
        self.flag(FieldName::X)?;
        self.tell(FieldName::Mode, 2)?;
        let time_stride = self.flag(FieldName::Tis)?;
        let stride = self.flag(FieldName::Tss)?;
        if stride {
            self.value(FieldName::TsStride)?;
        }
        if time_stride {
            self.value(FieldName::TimeStride)?;
        }
        Ok(())
    }
}
