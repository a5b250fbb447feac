//! From capsules to images.

ghost use Rattle.std.specs.Prelude.{◌≡◌, ◌+◌, ◌≤◌, ◌++◌, length, Ok};
ghost use Rattle.vm_shape.specs.declared.description.Description.{Description};
ghost use Rattle.hex.specs.Hex.{IsBytes};
ghost use Rattle.capsule_codec.specs.Image.{capsule_parts, parts_in_place, capsule_image, format_of, IsCapsule, IsOfMachine};
ghost use Rattle.capsule_codec.specs.Reading.{capsule_in};

use crate::capsule::{Capsule, CapsuleRef};
use mate_num::{IMAGE_MAX, Image, SHORT_CODE};

/// The bytes with which every image begins.
pub(crate) const MAGIC: [u8; 4] = *b"MATE";

/// The capsule's one image: the bytes in which it is stored and sent.
pub fn encode(capsule: &Capsule) -> Image
    ensures bytes { result.items ≡ capsule_image (capsule_parts capsule.now) }
    ensures fits { IsCapsule (capsule_parts capsule.now) }

    // A machine that the capsule is for decodes the image to this capsule.
    ensures again { (d : Description) → IsOfMachine d (capsule_parts capsule.now)
        → capsule_in d result.items ≡ Ok (capsule_parts capsule.now) }
{
    encode_in_place(&capsule.in_place())
}

/// The image of a capsule that is in place.
pub fn encode_in_place(capsule: &CapsuleRef<'_>) -> Image
    ensures bytes { result.items ≡ capsule_image (parts_in_place capsule.now) }
    ensures fits { IsCapsule (parts_in_place capsule.now) }
    ensures again { (d : Description) → IsOfMachine d (parts_in_place capsule.now)
        → capsule_in d result.items ≡ Ok (parts_in_place capsule.now) }
{
    let size = capsule.code.len();
    let format = if size <= SHORT_CODE { 1 } else { 2 };
    let mut image = Image::new();
    put(&mut image, &MAGIC);
    put(&mut image, &[format, capsule.handler.0]);
    put(&mut image, &capsule.vm_id.to_be_bytes());
    put(&mut image, &capsule.version.to_be_bytes());
    put(&mut image, &(size as u16).to_be_bytes());
    put(&mut image, capsule.code);
    image
}

// Appends the bytes; there must be room for them.
fn put(image: &mut Image, bytes: &[u8])
    requires { length image.old.items + length bytes.now ≤ IMAGE_MAX }
    ensures appended { image.new.items ≡ image.old.items ++ bytes.now }
    ensures fits { IsBytes bytes.now }
{
    let Ok(()) = image.try_extend_from_slice(bytes) else {
        unreachable!()
    };
}
