//! Field bits of an extension, which are appended to those of the base octets (RFC 3095 5.7.5).

ghost use Rattle.std.specs.Prelude.{◌≡◌, option_map};
ghost use Rattle.rohc_bits.specs.LowBits.{low_bits};
ghost use Rattle.rohc_forms.specs.Slices.{and_bits};
ghost use Rattle.rohc_forms.specs.Table.{Sn, Ts, Id, and_said, plus, minus};
ghost use Rattle.rohc_forms.specs.Packets.{said_by};

use crate::form::FormKind;
use crate::parts::Fields;
use rohc_bits::Bits;

/// `more` appended to the bits that were read before, if any were.
#[inline(always)]
fn behind(said: Option<Bits>, more: Bits) -> Option<Bits>
    ensures { option_map low_bits result ≡ and_bits (option_map low_bits said) (low_bits more) }
{
    match said {
        Some(said) => Some(said.append(more.value, more.count)),
        None => Some(more),
    }
}

impl Fields {
    /// These fields with more bits appended to the sequence number.
    #[inline(always)]
    pub(crate) fn and_sn(self, more: Bits) -> Fields
        ensures { said_by result ≡ and_said Sn (low_bits more) (said_by self) }
    {
        let sn = self.sn.append(more.value, more.count);
        Fields { sn, ..self }
    }

    /// These fields with more bits appended to the timestamp.
    #[inline(always)]
    pub(crate) fn and_ts(self, more: Bits) -> Fields
        ensures { said_by result ≡ and_said Ts (low_bits more) (said_by self) }
    {
        let ts = behind(self.ts, more);
        Fields { ts, ..self }
    }

    /// These fields with more bits appended to the Identification's offset.
    #[inline(always)]
    pub(crate) fn and_id(self, more: Bits) -> Fields
        ensures { said_by result ≡ and_said Id (low_bits more) (said_by self) }
    {
        let id = behind(self.id, more);
        Fields { id, ..self }
    }

    /// These fields with the +T bits of an extension appended.
    #[inline(always)]
    pub(crate) fn and_plus(self, kind: FormKind, more: Bits) -> Fields
        ensures { said_by result ≡ and_said (plus kind) (low_bits more) (said_by self) }
    {
        match kind {
            FormKind::Uo1Id | FormKind::Uor2Id => self.and_id(more),
            _ => self.and_ts(more),
        }
    }

    /// These fields with the -T bits of an extension appended.
    #[inline(always)]
    pub(crate) fn and_minus(self, kind: FormKind, more: Bits) -> Fields
        ensures { said_by result ≡ and_said (minus kind) (low_bits more) (said_by self) }
    {
        match kind {
            FormKind::Uor2Ts => self.and_id(more),
            _ => self.and_ts(more),
        }
    }
}
