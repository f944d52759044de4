//! Decimal numbers in a script.

ghost use Rattle.std.specs.Prelude.{◌≡◌, ℕ, List, ◌+◌, ◌*◌, ◌<◌, ◌≤◌, ◌^◌, length, take, drop, false, IfSome, IfNone};
ghost use Rattle.std.specs.Option.{SomeIff};
ghost use Rattle.std.specs.Str.Parse.{AllDigits, digits_value};
ghost use Rattle.rohc_replay.specs.Numeral.{IsNumberAt, begins_with_digit, is_canonical};

/// The number with one more digit of this value appended, if it fits a `u64`.
fn with_digit(number: u64, digit: u8) -> Option<u64>
    ensures { SomeIff result (number * 10 + digit < 2 ^ 64) (number * 10 + digit) }
{
    number.checked_mul(10)?.checked_add(u64::from(digit))
}

/// Whether the digits are how a number is written: at least one digit, and no leading `0` before
/// others.
fn is_canonical(digits: &[u8]) -> bool
    ensures { result ≡ is_canonical digits.now }
{
    matches!(digits, [_] | [b'1'..=b'9', ..])
}

/// The number whose digits are the first octets of a text, with the text after them, if they are how it is
/// written.
fn number_of(text: &[u8], number: u64, size: usize) -> Option<(u64, &[u8])>
    requires within { size ≤ length text.now }
    requires digits { AllDigits 10 (take size text.now) }
    requires value { digits_value 10 (take size text.now) ≡ number }
    requires ends { begins_with_digit (drop size text.now) ≡ false }
    ensures read { IfSome result (λ r. IsNumberAt text.entry.now r.0 r.1.now) }
    ensures none { IfNone result ((number : ℕ) (rest : List ℕ) →
        ¬ IsNumberAt text.entry.now number rest) }
{
    let (digits, rest) = text.split_at(size);
    if is_canonical(digits) {
        Some((number, rest))
    } else {
        None
    }
}

/// How many digits always make a number that fits a `u64`.
const FITTING_DIGITS: usize = 19;

/// Reads the decimal number at the start of a text, and returns it with the text after it.
///
/// All digits at the start are taken. Returns `None` if there is none, if there is a leading `0`
/// before others, or if the number doesn't fit a `u64`.
pub(crate) fn read_number(text: &[u8]) -> Option<(u64, &[u8])>
    ensures read { IfSome result (λ r. IsNumberAt text.entry.now r.0 r.1.now) }
    ensures none { IfNone result ((number : ℕ) (rest : List ℕ) →
        ¬ IsNumberAt text.entry.now number rest) }
{
    let mut number = 0;
    let mut size = 0;
    // So few digits need no test whether the number still fits.
    while size < FITTING_DIGITS && size < text.len() && text[size].is_ascii_digit() {
        number = number * 10 + u64::from(text[size] - b'0');
        size += 1;
    }
    if size == FITTING_DIGITS {
        return read_great(text);
    }
    number_of(text, number, size)
}

/// Reads a number of any size, as `read_number` does.
// Not inlined, since nearly all numbers are small.
#[inline(never)]
fn read_great(text: &[u8]) -> Option<(u64, &[u8])>
    ensures read { IfSome result (λ r. IsNumberAt text.entry.now r.0 r.1.now) }
    ensures none { IfNone result ((number : ℕ) (rest : List ℕ) →
        ¬ IsNumberAt text.entry.now number rest) }
{
    let mut number = 0;
    let mut size = 0;
    while size < text.len() && text[size].is_ascii_digit() {
        number = with_digit(number, text[size] - b'0')?;
        size += 1;
    }
    number_of(text, number, size)
}
