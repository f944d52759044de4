//! What a packet says meets the conditions of the functions that take it, with nothing proved by
//! hand.

ghost use Rattle.std.specs.Prelude.{◌≤◌, ◌<◌};
ghost use Rattle.std.specs.Option.{ForSome};
ghost use Rattle.rohc_forms.specs.Packets.{IsOther};

use rohc_forms::{FormKind, IdBits, Values, read_form};
use rohc_frame::{CidKind, Forward, HeadKind, cut};
use rohc_header::{Dynamic, Header, Static};
use rohc_lsb::{inferred_ts, ip_id, scaled, sn_value, unscaled};

/// The header that a packet means after the last one, and whether its check is the packet's.
fn header_behind(forward: &Forward<'_>, fixed: &Static, last: &Dynamic) -> Option<(Header, bool)>
    requires kind { IsOther forward.now.kind }
    requires payload_type { last.now.payload_type < 128 }
    requires some { ForSome last.now.stride (λ stride. 1 ≤ stride) }
    requires fits { ForSome last.now.stride (λ stride. stride ≤ 536870911) }
{
    let form = read_form(forward, last.rnd, last.udp_sum != 0, last.stride.is_some()).ok()?;
    let (sn, steps) = sn_value(last.sn, 0, form.sn);
    let ts = match (form.ts, form.tsc) {
        (None, _) => inferred_ts(last.ts, last.stride, steps),
        (Some(bits), Some(true)) => {
            let stride = match form.values {
                Some(
                    Values {
                        stride: Some(stride),
                        ..
                    },
                ) => stride,
                _ => last.stride.unwrap(),
            };
            scaled(last.ts, stride, bits)
        }
        (Some(bits), _) => unscaled(last.ts, bits),
    };
    let id = match form.id {
        IdBits::Whole(id) => id,
        IdBits::Offset(bits) => ip_id(sn, last.sn, last.id, last.nbo, Some(bits)),
        IdBits::Same => ip_id(sn, last.sn, last.id, last.nbo, None),
    };
    let payload_type = match form.values {
        Some(
            Values {
                payload_type: Some(payload_type),
                ..
            },
        ) => payload_type,
        _ => last.payload_type,
    };
    let moving = Dynamic {
        id,
        sn,
        ts,
        payload_type,
        rnd: matches!(form.id, IdBits::Whole(_)),
        marker: form.marker,
        udp_sum: match form.udp_sum {
            Some(sum) => sum,
            None => 0,
        },
        ..*last
    };
    let header = Header::build(fixed, &moving, form.payload.len())?;
    let check = match form.kind {
        FormKind::Uor2 | FormKind::Uor2Id | FormKind::Uor2Ts => header.check7(),
        _ => header.check3(),
    };
    Some((header, check == form.check))
}

/// The header before the first UO-0 of the worked examples.
const FIXED: Static = Static {
    source: [10, 0, 0, 1],
    destination: [10, 0, 0, 2],
    source_port: 5000,
    destination_port: 5002,
    ssrc: 1,
};

const LAST: Dynamic = Dynamic {
    tos: 0,
    ttl: 64,
    id: 1,
    df: false,
    rnd: false,
    nbo: true,
    udp_sum: 0,
    padding: false,
    extension: false,
    marker: false,
    payload_type: 0,
    sn: 1,
    ts: 160,
    stride: Some(160),
};

#[test]
fn a_header_from_a_packet(rt: HostRuntime) {
    let framed = cut(CidKind::Small, 15, &[0x10, 0xac]).expect(&rt, "one reading");
    let forward = framed.forward.expect(&rt, "a packet");
    let HeadKind::Other = forward.kind else {
        panic!(rt; "another kind");
    };
    let (header, is_checked) = header_behind(&forward, &FIXED, &LAST).expect(&rt, "a header");
    let expected = [
        0x45, 0x00, 0x00, 0x29, 0x00, 0x02, 0x00, 0x00, 0x40, 0x11, 0x66, 0xc0, 0x0a, 0x00, 0x00,
        0x01, 0x0a, 0x00, 0x00, 0x02, 0x13, 0x88, 0x13, 0x8a, 0x00, 0x15, 0x00, 0x00, 0x80, 0x00,
        0x00, 0x02, 0x00, 0x00, 0x01, 0x40, 0x00, 0x00, 0x00, 0x01,
    ];
    assert_eq!(rt; header.octets, expected);
    assert!(rt; is_checked);
}
