//! The words of an answer line.

ghost use Rattle.std.specs.Prelude.{◌≡◌, ◌≢◌, ℕ, List, ◌++◌, ◌∷◌, ◌<◌, ◌^◌, false, IfSome, IfNone};
ghost use Rattle.std.specs.List.{list_all};
ghost use Rattle.std.specs.Fmt.{decimal};
ghost use Rattle.rohc_totals.specs.Answer.{has_space, is_digit, is_hex};

use itoa::Buffer;
use memchr::memchr;
use std::str;

/// The text before the first space, and the text after it.
fn split_word(text: &[u8]) -> Option<(&[u8], &[u8])>
    ensures word { IfSome result (λ r. (text.entry.now ≡ r.0.now ++ 32 ∷ r.1.now) × (has_space r.0.now ≡ false)) }
    ensures none { IfNone result (has_space text.entry.now ≡ false) }
{
    match memchr(b' ', text) {
        Some(place) => Some((&text[..place], &text[place + 1..])),
        None => None,
    }
}

/// The number that a text is, as it is written in decimal.
fn number_in(text: &str) -> Option<u16>
    ensures read { IfSome result (λ n. text.now ≡ decimal n) }
    ensures none { IfNone result ((n : ℕ) → n < 2 ^ 16 → text.now ≢ decimal n) }
{
    match u16::from_str_radix(text, 10) {
        Ok(number) => {
            let mut buffer = Buffer::new();
            if buffer.format(number).as_bytes() == text.as_bytes() {
                Some(number)
            } else {
                None
            }
        }
        Err(_) => None,
    }
}

/// The number that a word is.
fn read_number(word: &[u8]) -> Option<u16>
    ensures read { IfSome result (λ n. word.now ≡ decimal n) }
    ensures none { IfNone result ((n : ℕ) → n < 2 ^ 16 → word.now ≢ decimal n) }
{
    match str::from_utf8(word) {
        Ok(text) => number_in(text),
        Err(_) => None,
    }
}

/// The number before the first space, and the text after it.
pub(crate) fn read_field(text: &[u8]) -> Option<(u16, &[u8])>
    ensures read { IfSome result (λ r. text.entry.now ≡ decimal r.0 ++ 32 ∷ r.1.now) }
    ensures fits { IfSome result (λ r. r.0 < 2 ^ 16) }
    ensures none { IfNone result ((n : ℕ) (rest : List ℕ) → n < 2 ^ 16 → text.entry.now ≢ decimal n ++ 32 ∷ rest) }
{
    let (word, rest) = split_word(text)?;
    match read_number(word) {
        Some(number) => Some((number, rest)),
        None => None,
    }
}

/// Whether the octet is `0` to `9` or `a` to `f`.
fn is_digit(octet: u8) -> bool
    ensures { result ≡ is_digit octet }
{
    matches!(octet, b'0'..=b'9' | b'a'..=b'f')
}

/// Whether each octet of the text is such a digit.
fn all_digits(text: &[u8]) -> bool
    ensures { result ≡ list_all is_digit text.now }
{
    let mut all = true;
    for octet in text {
        all = all & is_digit(*octet);
    }
    all
}

/// Whether the text is pairs of lower case digits, or `-`.
pub(crate) fn is_hex(text: &[u8]) -> bool
    ensures { result ≡ is_hex text.now }
{
    if text == b"-".as_slice() {
        return true;
    }
    !text.is_empty() && text.len() % 2 == 0 && all_digits(text)
}
