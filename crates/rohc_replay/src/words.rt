//! Reading one line of a script.

ghost use Rattle.std.specs.Prelude.{◌≡◌, ◌≢◌, ℕ, List, ◌++◌, ◌<◌, ◌≤◌, ◌^◌, length, take, codes, All, IfSome, IfNone};
ghost use Rattle.std.specs.Fmt.{decimal};
ghost use Rattle.std.specs.Option.{SomeIff};
ghost use Rattle.hex.specs.Hex.{encode_lower};
ghost use Rattle.rohc_frame.specs.Laws.{IsOctet};
ghost use Rattle.rohc_replay.specs.Numeral.{IsNumberAt};
ghost use Rattle.rohc_concentrator.specs.Events.{Event};
ghost use Rattle.rohc_links.specs.Limits.{longest_packet};
ghost use Rattle.rohc_replay.specs.Script.{IsEvent, spelling, hex_text};
ghost use Rattle.rohc_replay.specs.Words.{event_in, size_in};

use crate::hex_octets::decode;
use crate::numeral::read_number;

/// The content of a good line. The octets of a packet are stored apart.
#[derive(Clone, Copy, PartialEq, Eq)]
pub enum Words {
    /// A packet of `size` octets arrives on a link at this time.
    Arrive { link: u16, moment: u64, size: usize },
    /// A link is reset.
    Reset { link: u16 },
}

/// Reads a line, and writes the octets of its packet to the start of `packet`.
///
/// Returns `None` exactly if the line is the text of no event.
pub fn read_words(line: &[u8], packet: &mut [u8]) -> Option<Words>
    requires { length packet.old ≡ longest_packet }
    ensures spelled { IfSome result (λ words. line.now ≡ spelling (event_in words packet.new)) }
    ensures good { IfSome result (λ words. IsEvent (event_in words packet.new)) }
    ensures fits { IfSome result (λ words. size_in words ≤ longest_packet) }
    ensures bad { IfNone result ((e : Event) → IsEvent e → line.now ≢ spelling e) }
{
    match after_arrive(line) {
        Some(text) => read_arrival(text, packet),
        None => {
            let link = read_link(line.strip_prefix(b"reset ")?)?;
            Some(Words::Reset { link })
        }
    }
}

/// What follows `arrive `, if the line starts so. A pattern takes half of what `strip_prefix` takes here.
fn after_arrive(line: &[u8]) -> Option<&[u8]>
    ensures some { IfSome result (λ text. line.entry.now ≡ codes "arrive " ++ text.now) }
    ensures none { IfNone result ((text : List ℕ) → line.entry.now ≢ codes "arrive " ++ text) }
{
    match line {
        [b'a', b'r', b'r', b'i', b'v', b'e', b' ', text @ ..] => Some(text),
        _ => None,
    }
}

/// Reads what follows `arrive `: a link, an arrival time and the octets of a packet.
fn read_arrival(text: &[u8], packet: &mut [u8]) -> Option<Words>
    requires { length packet.old ≡ longest_packet }
    ensures spelled { IfSome result (λ words.
        codes "arrive " ++ text.now ≡ spelling (event_in words packet.new)) }
    ensures good { IfSome result (λ words. IsEvent (event_in words packet.new)) }
    ensures fits { IfSome result (λ words. size_in words ≤ longest_packet) }
    ensures bad { IfNone result ((e : Event) → IsEvent e →
        codes "arrive " ++ text.now ≢ spelling e) }
{
    let (link, text) = read_field(text)?;
    let link = link_number(link)?;
    let (moment, text) = read_field(text)?;
    let size = read_octets(text, packet)?;
    Some(Words::Arrive { link, moment, size })
}

/// Reads what follows `reset `: a link.
fn read_link(text: &[u8]) -> Option<u16>
    ensures read { IfSome result (λ link. text.now ≡ decimal link) }
    ensures none { IfNone result ((link : ℕ) → link < 2 ^ 16 → text.now ≢ decimal link) }
{
    let (link, rest) = read_number(text)?;
    if rest.is_empty() {
        link_number(link)
    } else {
        None
    }
}

/// The number as that of a link, if it fits a `u16`.
fn link_number(number: u64) -> Option<u16>
    ensures { SomeIff result (number < 2 ^ 16) number }
{
    u16::try_from(number).ok()
}

/// Reads a number and the space after it, and returns it with the text after them.
fn read_field(text: &[u8]) -> Option<(u64, &[u8])>
    ensures read { IfSome result (λ r. IsNumberAt text.entry.now r.0 (codes " " ++ r.1.now)) }
    ensures none { IfNone result ((number : ℕ) (rest : List ℕ) →
        ¬ IsNumberAt text.entry.now number (codes " " ++ rest)) }
{
    let (number, rest) = read_number(text)?;
    let (space, rest) = rest.split_first()?;
    if *space == b' ' {
        Some((number, rest))
    } else {
        None
    }
}

/// Reads octets as pairs of lower case digits, or `-` for none, into the start of `packet`, and returns how
/// many they are. Returns `None` if the text has another form, or if `packet` has no room.
fn read_octets(text: &[u8], packet: &mut [u8]) -> Option<usize>
    ensures fits { IfSome result (λ size. size ≤ length packet.old) }
    ensures spelled { IfSome result (λ size. text.now ≡ hex_text (take size packet.new)) }
    ensures none { IfNone result ((octets : List ℕ) → length octets ≤ length packet.old →
        All IsOctet octets → text.now ≢ hex_text octets) }
{
    match text {
        [b'-'] => Some(0),
        _ => read_pairs(text, packet),
    }
}

/// Reads one or more octets as pairs of lower case digits into the start of `packet`, and returns how many
/// they are.
fn read_pairs(text: &[u8], packet: &mut [u8]) -> Option<usize>
    ensures fits { IfSome result (λ size. (0 < size) × (size ≤ length packet.old)) }
    ensures spelled { IfSome result (λ size. text.now ≡ encode_lower (take size packet.new)) }
    ensures none { IfNone result ((octets : List ℕ) → 0 < length octets → length octets ≤ length packet.old →
        All IsOctet octets → text.now ≢ encode_lower octets) }
{
    let size = text.len() / 2;
    if size == 0 || text.len() % 2 == 1 || packet.len() < size {
        return None;
    }
    if decode(text, &mut packet[..size]) {
        Some(size)
    } else {
        None
    }
}
