//! Images and their texts.

ghost use Rattle.std.specs.Prelude.{◌≡◌, Err, length, slice_index};
ghost use Rattle.capsule_codec.specs.declared.decoding.CapsuleFault.TheVariants.{BadMagic, BadHandler, BadLength};
ghost use Rattle.capsule_codec.specs.declared.hex_text.HexFault.TheVariants.{BadHex};

use capsule_codec::{Capsule, CapsuleFault, HexFault, count, decode, encode, from_hex};
use mate_num::Image;
use vm_shape::{Description, builtin};

pub fn one_byte_is_no_image(desc: &Description) -> Result<Capsule, CapsuleFault>
    ensures { result ≡ Err BadMagic }
{
    decode(desc, &[77])
}

pub fn an_odd_digit_is_refused() -> Result<Image, HexFault>
    ensures { result ≡ Err BadHex }
{
    from_hex(b"4d4")
}

pub fn no_bytes_have_no_piece() -> u8
    ensures { result ≡ 0 }
{
    count(&Image::new())
}

pub fn one_byte_more_is_a_second_piece(image: &Image) -> u8
    requires { length image.now.items ≡ 25 }
    ensures { result ≡ 2 }
{
    count(image)
}

pub fn format_1_has_no_513_bytes(capsule: &Capsule) -> Image
    requires { length capsule.now.code.items ≡ 513 }
    ensures { slice_index result.items 4 ≡ 2 }
{
    encode(capsule)
}

/// An image of version 2 whose code is `HALT`, and one more byte.
pub fn a_byte_behind_the_code_is_refused() -> Result<Capsule, CapsuleFault>
    ensures { result ≡ Err BadLength }
{
    let image = [77, 65, 84, 69, 1, 0, 0, 0, 0, 1, 0, 0, 0, 2, 0, 1, 0, 0];
    decode(&builtin(), &image)
}

/// An image of version 0 for a second handler.
pub fn an_unknown_handler_is_refused_before_a_version() -> Result<Capsule, CapsuleFault>
    ensures { result ≡ Err BadHandler }
{
    let image = [77, 65, 84, 69, 1, 1, 0, 0, 0, 1, 0, 0, 0, 0, 0, 1, 0];
    decode(&builtin(), &image)
}
