//! How packets lie in the frames of a capture: the framing of the options.

ghost use Rattle.std.specs.Prelude.{◌≡◌, ◌≤◌, None, Ok, IfOk, IfErr, IfSome, true};
ghost use Rattle.rohc_capture.specs.Framing.{usual};
ghost use Rattle.rohctl_ground.specs.Ending.{status_of};

use crate::rules::RuleWords;
use rohc_capture::Framing;
use rohctl_ground::{Ending, Misuse};

/// The first number that is an EtherType, and no length.
const FIRST_ETHER_TYPE: u16 = 1536;

/// A number, decimal or hexadecimal behind 0x.
fn number_of(text: &str) -> Option<u16> {
    match text.strip_prefix("0x") {
        Some(digits) => u16::from_str_radix(digits, 16).ok(),
        None => text.parse().ok(),
    }
}

/// Whether ROHC packets may lie behind this EtherType: it is no length, not that of IPv4, and no VLAN tag.
fn is_free(ether_type: u16) -> bool
    ensures { result ≡ true → 1536 ≤ ether_type }
{
    FIRST_ETHER_TYPE <= ether_type && !matches!(ether_type, 0x0800 | 0x8100 | 0x88a8)
}

/// The ending for a value that is no number that the option takes.
fn wrong_number<'a>(word: &'static str, given: &'a str, expected: &'static str) -> Ending<'a>
    ensures { status_of result ≡ 2 }
{
    Ending::Misuse(Misuse::Value {
        word,
        given,
        expected,
    })
}

/// The EtherType that is asked for, if one is.
pub(crate) fn ether_type_of<'a>(asked: &RuleWords<'a>) -> Result<Option<u16>, Ending<'a>>
    ensures none { asked.now.ethertype ≡ None → result ≡ Ok None }
    ensures free { IfOk result (λ found. IfSome found (λ n. 1536 ≤ n)) }
    ensures misuse { IfErr result (λ ending. status_of ending ≡ 2) }
{
    let Some(text) = asked.ethertype else {
        return Ok(None);
    };
    match number_of(text) {
        Some(number) if is_free(number) => Ok(Some(number)),
        _ => Err(wrong_number(
            "--ethertype",
            text,
            "a number from 0x0600 to 0xffff, as 0x88b5, and not that of IPv4 or of a VLAN tag",
        )),
    }
}

/// The link type that is asked for, if one is.
fn link_type_of<'a>(asked: &RuleWords<'a>) -> Result<Option<u16>, Ending<'a>>
    ensures none { asked.now.linktype ≡ None → result ≡ Ok None }
    ensures misuse { IfErr result (λ ending. status_of ending ≡ 2) }
{
    let Some(text) = asked.linktype else {
        return Ok(None);
    };
    match number_of(text) {
        Some(number) => Ok(Some(number)),
        None => Err(wrong_number(
            "--linktype",
            text,
            "the number of a link type, 0 to 65535, as 147",
        )),
    }
}

/// How many octets lie before each packet.
fn offset_of<'a>(asked: &RuleWords<'a>) -> Result<u16, Ending<'a>>
    ensures none { asked.now.offset ≡ None → result ≡ Ok 0 }
    ensures misuse { IfErr result (λ ending. status_of ending ≡ 2) }
{
    let Some(text) = asked.offset else {
        return Ok(0);
    };
    match number_of(text) {
        Some(number) => Ok(number),
        None => Err(wrong_number("--offset", text, "a number of octets, 0 to 65535")),
    }
}

/// The framing that is asked for: without options that of every capture. What an EtherType or a link type finds is a
/// packet of the capture's own link, so that a rule has to say which that is.
pub fn framing_of<'a>(asked: &RuleWords<'a>) -> Result<Framing, Ending<'a>>
    ensures usual { asked.now.ethertype ≡ None → asked.now.linktype ≡ None → asked.now.offset ≡ None → result ≡ Ok usual }
    ensures free { IfOk result (λ framing. IfSome framing.ether_type (λ n. 1536 ≤ n)) }
    ensures misuse { IfErr result (λ ending. status_of ending ≡ 2) }
{
    let ether_type = ether_type_of(asked)?;
    let link_type = link_type_of(asked)?;
    let offset = offset_of(asked)?;
    let is_own = ether_type.is_some() || link_type.is_some();
    if is_own && asked.link.is_none() && asked.vlan.is_none() {
        return Err(Ending::Misuse(Misuse::Missing {
            word: "--link or --vlan",
            expected: "the link of the packets that --ethertype or --linktype finds, as --link 1",
        }));
    }
    Ok(Framing {
        ether_type,
        link_type,
        offset,
    })
}
