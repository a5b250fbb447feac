//! Images as hexadecimal text.

ghost use Rattle.std.specs.Prelude.{◌≡◌, ◌≤◌, ◌*◌, string_bytes, length, IsTrue, IfOk, Ok};
ghost use Rattle.std.specs.Char.{is_ascii_hexdigit};
ghost use Rattle.std.specs.List.{list_all};
ghost use Rattle.hex.specs.Hex.{encode_lower};
ghost use Rattle.capsule_codec.specs.HexText.{trimmed, is_hex, bytes_of_digits, image_in};

use mate_num::{IMAGE_MAX, Image, NoMemory};
use std::alloc::Global;

/// Why a text spells no image.
#[derive(Clone, Copy)]
pub enum HexFault {
    /// It isn't an even number of hexadecimal digits.
    BadHex,
    /// It has more than 2,112 digits, those of the longest image.
    TooLong,
}

/// The image's bytes in hexadecimal digits, two for each, in lower case. `NoMemory` is the only refusal.
pub fn to_hex(alloc: Global, image: &Image) -> Result<String, NoMemory>
    ensures digits { IfOk result (λ text. string_bytes text ≡ encode_lower image.now.items) }

    // The text spells this image.
    ensures again { IfOk result (λ text. image_in (string_bytes text) ≡ Ok image.now) }
{
    digits_of(alloc, image.as_slice())
}

fn digits_of(alloc: Global, bytes: &[u8]) -> Result<String, NoMemory>
    requires { length bytes.now ≤ IMAGE_MAX }
    ensures digits { IfOk result (λ text. string_bytes text ≡ encode_lower bytes.now) }
    ensures again { IfOk result (λ text. image_in (string_bytes text) ≡ Ok (record { items = bytes.now })) }
{
    Ok(hex::encode(alloc, bytes)?)
}

/// The image that the text spells in hexadecimal digits of either case. Trailing spaces, tabs, carriage
/// returns and line feeds are dropped.
pub fn from_hex(text: &[u8]) -> Result<Image, HexFault>
    ensures { result ≡ image_in text.now }
{
    let digits = trimmed(text);
    if digits.len() % 2 != 0 || !are_digits(digits) {
        return Err(HexFault::BadHex);
    }
    if digits.len() > 2 * IMAGE_MAX {
        return Err(HexFault::TooLong);
    }
    let mut bytes = [0; IMAGE_MAX];
    let bytes = &mut bytes[..digits.len() / 2];
    read_digits(digits, bytes);
    let Ok(image) = Image::try_from(&*bytes) else {
        unreachable!()
    };
    Ok(image)
}

/// Writes the bytes that the digits spell, two digits for each. There must be twice as many digits as bytes.
pub fn read_digits(digits: &[u8], bytes: &mut [u8])
    requires hex { IsTrue (is_hex digits.now) }
    requires room { length digits.now ≡ 2 * length bytes.old }
    ensures { bytes.new ≡ bytes_of_digits digits.now }
{
    let Ok(()) = hex::decode_to_slice(digits, bytes) else {
        unreachable!()
    };
}

// The text up to its last byte that is no blank.
fn trimmed(text: &[u8]) -> &[u8]
    ensures { result.now ≡ trimmed text.now }
{
    let mut rest = text;
    while let [front @ .., b' ' | b'\t' | b'\r' | b'\n'] = rest {
        rest = front;
    }
    rest
}

// Whether all bytes are hexadecimal digits.
fn are_digits(text: &[u8]) -> bool
    ensures { result ≡ list_all is_ascii_hexdigit text.now }
{
    text.iter().all(|byte| byte.is_ascii_hexdigit())
}
