//! Numbers and values, as a report writes them: no leading zero, no `+` and no `-0`.

ghost use Rattle.std.specs.Prelude.{◌≡◌, ◌<◌, ◌+◌, ◌*◌, true, IfSome};
ghost use Rattle.std.specs.Char.{is_ascii_digit, digit_value};
ghost use Rattle.report_line_reader.specs.Numbers.{has_plain_lead, unsigned_of, below_of, negative, positive, value_of};
ghost use Rattle.report_line_reader.specs.Numerals.{IsLeading, IsFirstNumeral};

use crate::spelling::spelled;

/// Whether the word is one byte, or more that do not begin with `0`.
fn has_plain_lead(word: &[u8]) -> bool
    ensures { result ≡ has_plain_lead word.now }
{
    match word {
        [] => false,
        [first, rest @ ..] => *first != b'0' || rest.is_empty(),
    }
}

/// A number that digits spell, and how many they are.
#[derive(Clone, Copy)]
pub(crate) struct Numeral {
    pub(crate) number: u64,
    pub(crate) digits: usize,
}

/// A number of this size or more gets no further digit in `leading`.
const LEADING_MAX: u64 = 1_000_000_000_000_000_000;

/// The number with one more digit behind it.
fn with_digit(number: u64, byte: u8) -> u64
    requires digit { is_ascii_digit byte ≡ true }
    requires small { number < LEADING_MAX }
    ensures { result ≡ number * 10 + digit_value byte }
{
    number * 10 + (byte - b'0') as u64
}

/// The number of the digits at the front: of all of them, if they are at most 18.
fn leading(bytes: &[u8]) -> Numeral
    ensures { IsLeading bytes.now result }
{
    let mut number = 0;
    for place in 0..bytes.len() {
        let byte = bytes[place];
        if !byte.is_ascii_digit() || number >= LEADING_MAX {
            return Numeral {
                number,
                digits: place,
            };
        }
        number = with_digit(number, byte);
    }
    Numeral {
        number,
        digits: bytes.len(),
    }
}

/// The number that the first word of a line tells, with its digits. None says nothing of the word.
pub(crate) fn first_numeral(bytes: &[u8]) -> Option<Numeral>
    ensures { IfSome result (IsFirstNumeral bytes.now) }
{
    let numeral = leading(bytes);
    let digits = numeral.digits;
    if !has_plain_lead(&bytes[..digits]) {
        return None;
    }
    if digits < bytes.len() && bytes[digits] != b' ' {
        return None;
    }
    Some(numeral)
}

/// The number that a word tells; None where it tells none below 2^64.
pub fn unsigned(word: &[u8]) -> Option<u64>
    ensures { result ≡ unsigned_of word.now }
{
    if !has_plain_lead(word) {
        return None;
    }
    spelled(word)
}

/// The number below `limit` that a word tells.
pub fn below(word: &[u8], limit: u64) -> Option<u64>
    ensures value { result ≡ below_of limit word.now }
    ensures within { IfSome result (λ n. n < limit) }
{
    let n = unsigned(word)?;
    if n < limit { Some(n) } else { None }
}

/// The value that a word tells; None where it tells none from -32768 to 32767.
pub fn value(word: &[u8]) -> Option<i16>
    ensures { result ≡ value_of word.now }
{
    match word {
        [] => None,
        [b'-', digits @ ..] => negative(unsigned(digits)?),
        [_, ..] => positive(unsigned(word)?),
    }
}

fn negative(n: u64) -> Option<i16>
    ensures { result ≡ negative n }
{
    if n == 0 || n > 32768 {
        return None;
    }
    Some(-1 - (n - 1) as i16)
}

fn positive(n: u64) -> Option<i16>
    ensures { result ≡ positive n }
{
    if n < 32768 { Some(n as i16) } else { None }
}
