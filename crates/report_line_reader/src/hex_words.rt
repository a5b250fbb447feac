//! Images and packets, as words of hexadecimal digits.

ghost use Rattle.std.specs.Prelude.{◌≡◌};
ghost use Rattle.std.specs.List.{list_all};
ghost use Rattle.report_line_reader.specs.Hex.{is_lower_digit, is_hex_word, image_of, packet_of};

use capsule_codec::read_digits;
use mate_num::{IMAGE_MAX, Image, PACKET_MAX, PacketBytes};

fn is_lower_digit(byte: u8) -> bool
    ensures { result ≡ is_lower_digit byte }
{
    (b'0' <= byte && byte <= b'9') || (b'a' <= byte && byte <= b'f')
}

/// Whether the word is one byte or more, in two digits each.
fn is_hex_word(word: &[u8]) -> bool
    ensures { result ≡ is_hex_word word.now }
{
    !word.is_empty() && word.len() % 2 == 0 && are_lower_digits(word)
}

fn are_lower_digits(bytes: &[u8]) -> bool
    ensures { result ≡ list_all is_lower_digit bytes.now }
{
    bytes.iter().all(|byte| is_lower_digit(*byte))
}

/// The image that a word tells: 1 to `IMAGE_MAX` bytes.
#[tactic(auto, using(crate::proofs::HexLemmas::digits_of_word))]
pub fn image_of(word: &[u8]) -> Option<Image>
    ensures { result ≡ image_of word.now }
{
    if !(is_hex_word(word) && word.len() <= 2 * IMAGE_MAX) {
        return None;
    }
    let mut bytes = [0; IMAGE_MAX];
    let bytes = &mut bytes[..word.len() / 2];
    read_digits(word, bytes);
    let Ok(image) = Image::try_from(&*bytes) else {
        unreachable!()
    };
    Some(image)
}

/// The packet that a word tells: 1 to `PACKET_MAX` bytes.
#[tactic(auto, using(crate::proofs::HexLemmas::digits_of_word))]
pub fn packet_of(word: &[u8]) -> Option<PacketBytes>
    ensures { result ≡ packet_of word.now }
{
    if !(is_hex_word(word) && word.len() <= 2 * PACKET_MAX) {
        return None;
    }
    let mut bytes = [0; PACKET_MAX];
    let bytes = &mut bytes[..word.len() / 2];
    read_digits(word, bytes);
    let Ok(packet) = PacketBytes::try_from(&*bytes) else {
        unreachable!()
    };
    Some(packet)
}
