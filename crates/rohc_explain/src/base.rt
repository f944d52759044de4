//! The base octets of a UO-0, UO-1 or UOR-2 (RFC 3095 5.7.1 to 5.7.4).

ghost use Rattle.std.specs.Prelude.{◌≡◌};
ghost use Rattle.rohc_explain.specs.Rows.{first_octet, behind_first};

use crate::field::FieldName;
use rohc_forms::FormKind;

/// The fields of the first octet, with how many bits each has.
pub(crate) fn first_octet(kind: FormKind) -> &'static [(FieldName, u8)]
    ensures { result.now ≡ first_octet kind }
{
    match kind {
        FormKind::Uo0 => &[
            (FieldName::Format, 1),
            (FieldName::Sn, 4),
            (FieldName::Crc, 3),
        ],
        FormKind::Uo1 => &[(FieldName::Format, 2), (FieldName::Ts, 6)],
        FormKind::Uo1Id => &[(FieldName::Format, 3), (FieldName::IpId, 5)],
        FormKind::Uo1Ts => &[(FieldName::Format, 3), (FieldName::Ts, 5)],
        FormKind::Uor2 => &[(FieldName::Format, 3), (FieldName::Ts, 5)],
        FormKind::Uor2Id => &[(FieldName::Format, 3), (FieldName::IpId, 5)],
        FormKind::Uor2Ts => &[(FieldName::Format, 3), (FieldName::Ts, 5)],
    }
}

/// The fields of the base octets behind the first one.
pub(crate) fn behind_first(kind: FormKind) -> &'static [(FieldName, u8)]
    ensures { result.now ≡ behind_first kind }
{
    match kind {
        FormKind::Uo0 => &[],
        FormKind::Uo1 | FormKind::Uo1Ts => &[
            (FieldName::M, 1),
            (FieldName::Sn, 4),
            (FieldName::Crc, 3),
        ],
        FormKind::Uo1Id => &[(FieldName::X, 1), (FieldName::Sn, 4), (FieldName::Crc, 3)],
        FormKind::Uor2 => &[
            (FieldName::Ts, 1),
            (FieldName::M, 1),
            (FieldName::Sn, 6),
            (FieldName::X, 1),
            (FieldName::Crc, 7),
        ],
        FormKind::Uor2Id | FormKind::Uor2Ts => &[
            (FieldName::Format, 1),
            (FieldName::M, 1),
            (FieldName::Sn, 6),
            (FieldName::X, 1),
            (FieldName::Crc, 7),
        ],
    }
}
