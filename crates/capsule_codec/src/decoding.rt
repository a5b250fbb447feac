//! From images to capsules.

ghost use Rattle.std.specs.Prelude.{◌≡◌, ◌+◌, ◌≤◌, length, IfOk, Ok};
ghost use Rattle.capsule_codec.specs.declared.capsule.Capsule.{Capsule};
ghost use Rattle.capsule_codec.specs.Image.{capsule_parts, parts_in_place, capsule_image, IsCapsule, IsOfMachine};
ghost use Rattle.capsule_codec.specs.Reading.{capsule_in, GivesCapsule, GivesInPlace, u16_at, u32_at, is_size};

use crate::capsule::{Capsule, CapsuleRef};
use crate::encoding::MAGIC;
use mate_num::{CODE_MAX, HandlerId, IMAGE_HEAD, SHORT_CODE};
use vm_shape::Description;

/// Why bytes are no capsule of the machine.
#[derive(Clone, Copy)]
pub enum CapsuleFault {
    /// There are fewer than four bytes, or the first four aren't `MATE`.
    BadMagic,
    /// The format is neither 1 nor 2.
    BadFormat,
    /// The capsule is for the machine with this number.
    OtherVm { id: u32 },
    /// The machine has no such handler.
    BadHandler,
    /// There are fewer bytes than a head has, or the code's length isn't one of the format, or isn't the number of
    /// bytes after the head.
    BadLength,
    /// The version is 0.
    BadVersion,
}

/// The capsule of the machine whose image the bytes are, or the first fault, in this order: `BadMagic`,
/// `BadLength` for fewer than `IMAGE_HEAD` bytes, `BadFormat`, `OtherVm`, `BadHandler`, `BadVersion`, `BadLength`.
pub fn decode(desc: &Description, bytes: &[u8]) -> Result<Capsule, CapsuleFault>
    ensures value { GivesCapsule result (capsule_in desc.now bytes.now) }

    // The bytes are the capsule's one image.
    ensures image { IfOk result (λ c. (bytes.now ≡ capsule_image (capsule_parts c)) × IsOfMachine desc.now (capsule_parts c)) }
    // The image of a capsule that is for the machine decodes to this capsule.
    ensures only { (c : Capsule) → IsCapsule (capsule_parts c) → IsOfMachine desc.now (capsule_parts c)
        → bytes.now ≡ capsule_image (capsule_parts c) → result ≡ Ok c }
{
    match read(desc, bytes) {
        Ok(capsule) => Ok(capsule.copy()),
        Err(fault) => Err(fault),
    }
}

/// What `decode` gives, with the code in place.
pub fn decode_in_place<'a>(
    desc: &Description,
    bytes: &'a [u8],
) -> Result<CapsuleRef<'a>, CapsuleFault>
    ensures value { GivesInPlace result (capsule_in desc.now bytes.now) }

    // The bytes are the capsule's one image.
    ensures image { IfOk result (λ c. (bytes.now ≡ capsule_image (parts_in_place c)) × IsOfMachine desc.now (parts_in_place c)) }
{
    read(desc, bytes)
}

fn read<'a>(desc: &Description, bytes: &'a [u8]) -> Result<CapsuleRef<'a>, CapsuleFault>
    ensures { GivesInPlace result (capsule_in desc.now bytes.now) }
{
    if !bytes.starts_with(&MAGIC) {
        return Err(CapsuleFault::BadMagic);
    }
    if bytes.len() < IMAGE_HEAD {
        return Err(CapsuleFault::BadLength);
    }
    let format = bytes[4];
    if format != 1 && format != 2 {
        return Err(CapsuleFault::BadFormat);
    }
    let id = u32_at(bytes, 6);
    if id != desc.vm_id {
        return Err(CapsuleFault::OtherVm { id });
    }
    let handler = HandlerId(bytes[5]);
    if usize::from(handler.0) >= desc.handlers.len() {
        return Err(CapsuleFault::BadHandler);
    }
    let version = u32_at(bytes, 10);
    if version == 0 {
        return Err(CapsuleFault::BadVersion);
    }
    let size = u16_at(bytes, 14);
    if !is_size(format, size) || usize::from(size) + IMAGE_HEAD != bytes.len() {
        return Err(CapsuleFault::BadLength);
    }
    Ok(CapsuleRef {
        vm_id: id,
        handler,
        version,
        code: &bytes[IMAGE_HEAD..],
    })
}

// Whether code of this size has this format, 1 or 2.
fn is_size(format: u8, size: u16) -> bool
    ensures { result ≡ is_size format size }
{
    let size = usize::from(size);
    if format == 1 {
        1 <= size && size <= SHORT_CODE
    } else {
        SHORT_CODE + 1 <= size && size <= CODE_MAX
    }
}

// The number in the two bytes from `place` on.
fn u16_at(bytes: &[u8], place: usize) -> u16
    requires { place + 2 ≤ length bytes.now }
    ensures { result ≡ u16_at bytes.now place }
{
    u16::from_be_bytes([bytes[place], bytes[place + 1]])
}

// The number in the four bytes from `place` on.
fn u32_at(bytes: &[u8], place: usize) -> u32
    requires { place + 4 ≤ length bytes.now }
    ensures { result ≡ u32_at bytes.now place }
{
    u32::from_be_bytes([
        bytes[place],
        bytes[place + 1],
        bytes[place + 2],
        bytes[place + 3],
    ])
}
