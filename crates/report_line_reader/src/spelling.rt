//! The number that bytes spell.

ghost use Rattle.std.specs.Prelude.{◌≡◌, ◌<◌, ◌≤◌, ◌+◌, ◌*◌, ◌^◌, true, MatchOption};
ghost use Rattle.std.specs.Char.{is_ascii_digit, digit_value};
ghost use Rattle.report_line_reader.specs.Spelling.{spelled};

/// The number that the bytes spell, 0 for no bytes; None exactly if one of them is no digit or the number is 2^64 or more.
pub fn spelled(bytes: &[u8]) -> Option<u64>
    ensures { result ≡ spelled bytes.now }
{
    let mut number = 0;
    for place in 0..bytes.len() {
        number = with_digit(number, bytes[place])?;
    }
    Some(number)
}

/// The number with one more digit after it; None if the byte is no digit, or the number is then 2^64 or more.
fn with_digit(number: u64, byte: u8) -> Option<u64>
    ensures { MatchOption result (is_ascii_digit byte ≡ true → 2 ^ 64 ≤ number * 10 + digit_value byte)
        (λ n. (is_ascii_digit byte ≡ true) × (n ≡ number * 10 + digit_value byte) × (n < 2 ^ 64)) }
{
    if !byte.is_ascii_digit() {
        return None;
    }
    number.checked_mul(10)?.checked_add((byte - b'0') as u64)
}
