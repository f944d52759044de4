//! Extension 3 (RFC 3095 5.7.5).

ghost use Rattle.std.specs.Prelude.{◌≡◌, ◌<◌, ◌≤◌, option_map, IfOk};
ghost use Rattle.std.specs.Option.{ForSome};
ghost use Rattle.rohc_bits.specs.Reading.{Reads, ReadsAs};
ghost use Rattle.rohc_forms.specs.Given.{rnd_in_force, padding_in, payload_type_in, ip_values, rtp_values, marker_in};
ghost use Rattle.rohc_forms.specs.Extension.{ip_octet_at, sn_at, ts_at, behind_protocol, ip_given_at, offset_at, stride_at, behind_time_stride, behind_rtp_octet, rtp_given_at, behind_ip_octet};
ghost use Rattle.rohc_forms.specs.Octets.{read};
ghost use Rattle.rohc_forms.specs.Packets.{said_by, rtp_by, values_by, extended_by};

use crate::flag;
use crate::form::{FormKind, Values};
use crate::octets::{octet, optional_octet, optional_word, value};
use crate::parts::{Extension3, Fields, IpFlags, IpGiven, RtpFlags, RtpGiven};
use crate::refusal::FormRefusal;
use rohc_bits::reading::is_set;
use rohc_bits::{Bits, Cursor};

/// Reads the ip octet, if flag ip is set: TOS, TTL, DF, PR, IPX, NBO, RND, ip2.
#[tactic(auto, unfolding(crate::specs::Extension::ip_octet_at))]
pub(crate) fn ip_octet(
    present: bool,
    kind: FormKind,
    cursor: &mut Cursor<'_>,
) -> Result<Option<IpFlags>, FormRefusal>
    ensures { Reads result cursor.new (read (ip_octet_at present kind) cursor.old) }
{
    if !present {
        return Ok(None);
    }
    let flags = u32::from(octet(cursor)?);
    if is_set(flags, flag::IPX) {
        return Err(FormRefusal::ExtensionList);
    }
    let rnd = is_set(flags, flag::RND);
    if rnd && matches!(kind, FormKind::Uo1Id) {
        return Err(FormRefusal::RndInUo1);
    }
    if is_set(flags, flag::IP2) {
        return Err(FormRefusal::OuterHeader);
    }
    Ok(Some(IpFlags {
        tos: is_set(flags, flag::TOS),
        ttl: is_set(flags, flag::TTL),
        df: is_set(flags, flag::DF),
        protocol: is_set(flags, flag::PR),
        nbo: is_set(flags, flag::NBO),
        rnd,
    }))
}

/// The RND in force: the extension's, if it gives one, else the context's.
pub(crate) fn rnd_of(kept: bool, ip: Option<IpFlags>) -> bool
    ensures { result ≡ rnd_in_force kept ip }
{
    match ip {
        Some(ip) => ip.rnd,
        None => kept,
    }
}

/// Appends eight bits to the sequence number, if S is set.
#[tactic(auto, unfolding(crate::specs::Extension::sn_at))]
fn with_sn(present: bool, fields: Fields, cursor: &mut Cursor<'_>) -> Result<Fields, FormRefusal>
    ensures { ReadsAs said_by result cursor.new (read (sn_at present (said_by fields)) cursor.old) }
{
    if !present {
        return Ok(fields);
    }
    let low = octet(cursor)?;
    Ok(fields.and_sn(Bits::new(u32::from(low), 8)))
}

/// Appends bits to the timestamp, if R-TS is set.
#[tactic(auto, unfolding(crate::specs::Extension::ts_at))]
fn with_ts(present: bool, fields: Fields, cursor: &mut Cursor<'_>) -> Result<Fields, FormRefusal>
    ensures { ReadsAs said_by result cursor.new (read (ts_at present (said_by fields)) cursor.old) }
{
    if !present {
        return Ok(fields);
    }
    let low = value(cursor)?;
    Ok(fields.and_ts(low))
}

/// Reads the protocol, if PR is set. It must be UDP.
#[tactic(auto, unfolding(crate::specs::Extension::behind_protocol))]
fn skip_protocol(present: bool, cursor: &mut Cursor<'_>) -> Result<(), FormRefusal>
    ensures { Reads result cursor.new (read (behind_protocol present) cursor.old) }
{
    if present && octet(cursor)? != 17 {
        return Err(FormRefusal::Protocol);
    }
    Ok(())
}

/// Reads TOS, TTL and protocol, each if its flag in the ip octet is set.
#[tactic(auto, unfolding(crate::specs::Extension::ip_given_at))]
fn ip_given(ip: Option<IpFlags>, cursor: &mut Cursor<'_>) -> Result<Option<IpGiven>, FormRefusal>
    ensures { Reads result cursor.new (read (ip_given_at ip) cursor.old) }
{
    let Some(ip) = ip else {
        return Ok(None);
    };
    let tos = optional_octet(ip.tos, cursor)?;
    let ttl = optional_octet(ip.ttl, cursor)?;
    skip_protocol(ip.protocol, cursor)?;
    Ok(Some(IpGiven {
        tos,
        ttl,
        df: ip.df,
        nbo: ip.nbo,
        rnd: ip.rnd,
    }))
}

/// Reads the Identification's whole offset, if I is set. It replaces the offset bits that were read
/// before.
#[tactic(auto, unfolding(crate::specs::Extension::offset_at))]
fn with_offset(
    present: bool,
    fields: Fields,
    cursor: &mut Cursor<'_>,
) -> Result<Fields, FormRefusal>
    ensures { ReadsAs said_by result cursor.new (read (offset_at present (said_by fields)) cursor.old) }
{
    match optional_word(present, cursor)? {
        Some(offset) => Ok(Fields {
            id: Some(Bits::new(u32::from(offset), 16)),
            ..fields
        }),
        None => Ok(fields),
    }
}

/// Reads TS_STRIDE, if TSS is set.
#[tactic(auto, unfolding(crate::specs::Extension::stride_at))]
fn stride(present: bool, cursor: &mut Cursor<'_>) -> Result<Option<u32>, FormRefusal>
    ensures reads { Reads result cursor.new (read (stride_at present) cursor.old) }
    ensures some { IfOk result (λ stride. ForSome stride (λ n. 1 ≤ n)) }
    ensures fits { IfOk result (λ stride. ForSome stride (λ n. n ≤ 536870911)) }
{
    if !present {
        return Ok(None);
    }
    let stride = value(cursor)?.value;
    if stride == 0 {
        return Err(FormRefusal::ZeroStride);
    }
    Ok(Some(stride))
}

/// Reads TIME_STRIDE, if TIS is set, and drops it.
#[tactic(auto, unfolding(crate::specs::Extension::behind_time_stride))]
fn skip_time_stride(present: bool, cursor: &mut Cursor<'_>) -> Result<(), FormRefusal>
    ensures { Reads result cursor.new (read (behind_time_stride present) cursor.old) }
{
    if present {
        value(cursor)?;
    }
    Ok(())
}

/// RTP's padding flag, in the octet that R-PT announces.
fn padding(octet: Option<u8>) -> Option<bool>
    ensures { result ≡ padding_in octet }
{
    match octet {
        Some(octet) => Some(is_set(u32::from(octet), flag::P)),
        None => None,
    }
}

/// RTP's payload type, in the same octet.
fn payload_type(octet: Option<u8>) -> Option<u8>
    ensures value { result ≡ payload_type_in octet }
    ensures fits { ForSome result (λ n. n < 128) }
{
    match octet {
        Some(octet) => Some(octet & 0x7f),
        None => None,
    }
}

/// Reads what the rtp octet announces: the octet of P and PT, and the strides.
#[tactic(auto, unfolding(crate::specs::Extension::behind_rtp_octet))]
fn named_by(rtp: RtpFlags, cursor: &mut Cursor<'_>) -> Result<RtpGiven, FormRefusal>
    ensures { ReadsAs rtp_by result cursor.new (read (behind_rtp_octet rtp) cursor.old) }
{
    let octet = optional_octet(rtp.payload_type, cursor)?;
    let stride = stride(rtp.stride, cursor)?;
    skip_time_stride(rtp.time_stride, cursor)?;
    Ok(RtpGiven {
        marker: rtp.marker,
        extension: rtp.extension,
        padding: padding(octet),
        payload_type: payload_type(octet),
        stride,
    })
}

/// Reads the rtp octet (Mode, R-PT, M, R-X, CSRC, TSS, TIS), if flag rtp is set, and what it announces.
/// Modes 0, 1 and 2 have no effect.
#[tactic(auto, unfolding(crate::specs::Extension::rtp_given_at))]
fn rtp_given(present: bool, cursor: &mut Cursor<'_>) -> Result<Option<RtpGiven>, FormRefusal>
    ensures { ReadsAs (option_map rtp_by) result cursor.new (read (rtp_given_at present) cursor.old) }
{
    if !present {
        return Ok(None);
    }
    let octet = octet(cursor)?;
    if octet >> 6 == 3 {
        return Err(FormRefusal::ReliableMode);
    }
    let flags = u32::from(octet);
    if is_set(flags, flag::CSRC) {
        return Err(FormRefusal::Csrc);
    }
    let rtp = RtpFlags {
        payload_type: is_set(flags, flag::R_PT),
        marker: is_set(flags, flag::M),
        extension: is_set(flags, flag::R_X),
        stride: is_set(flags, flag::TSS),
        time_stride: is_set(flags, flag::TIS),
    };
    Ok(Some(named_by(rtp, cursor)?))
}

/// The values that the RTP part of the extension gives.
fn values_of_rtp(rtp: Option<RtpGiven>) -> Values
    ensures { values_by result ≡ rtp_values (option_map rtp_by rtp) }
{
    Values {
        tos: None,
        ttl: None,
        payload_type: rtp.and_then(|rtp| rtp.payload_type),
        stride: rtp.and_then(|rtp| rtp.stride),
        padding: rtp.and_then(|rtp| rtp.padding),
        df: None,
        nbo: None,
        rnd: None,
        extension: rtp.map(|rtp| rtp.extension),
    }
}

/// These values with those that the IP part of the extension gives.
fn with_ip(ip: Option<IpGiven>, values: Values) -> Values
    ensures { values_by result ≡ ip_values ip (values_by values) }
{
    match ip {
        Some(ip) => Values {
            tos: ip.tos,
            ttl: ip.ttl,
            payload_type: values.payload_type,
            stride: values.stride,
            padding: values.padding,
            df: Some(ip.df),
            nbo: Some(ip.nbo),
            rnd: Some(ip.rnd),
            extension: values.extension,
        },
        None => values,
    }
}

/// The marker: that of the rtp octet if there is one, else that of the base octets.
fn marker(base: bool, rtp: Option<RtpGiven>) -> bool
    ensures { result ≡ marker_in base (option_map rtp_by rtp) }
{
    match rtp {
        Some(rtp) => rtp.marker,
        None => base,
    }
}

/// Reads an extension 3 after its ip octet. `flags` is the first octet of the extension.
#[tactic(auto, unfolding(crate::specs::Extension::behind_ip_octet))]
pub(crate) fn behind_ip(
    flags: u32,
    stride_known: bool,
    ip: Option<IpFlags>,
    fields: Fields,
    cursor: &mut Cursor<'_>,
) -> Result<Extension3, FormRefusal>
    ensures { ReadsAs extended_by result cursor.new (read (behind_ip_octet flags stride_known ip (said_by fields)) cursor.old) }
{
    let fields = with_sn(is_set(flags, flag::S), fields, cursor)?;
    let fields = with_ts(is_set(flags, flag::R_TS), fields, cursor)?;
    let ip = ip_given(ip, cursor)?;
    let fields = with_offset(is_set(flags, flag::I), fields, cursor)?;
    let rtp = rtp_given(is_set(flags, flag::RTP), cursor)?;
    let given = values_of_rtp(rtp);
    if is_set(flags, flag::TSC) && !stride_known && given.stride.is_none() {
        return Err(FormRefusal::NoStride);
    }
    Ok(Extension3 {
        fields,
        marker: marker(fields.marker, rtp),
        values: with_ip(ip, given),
    })
}
