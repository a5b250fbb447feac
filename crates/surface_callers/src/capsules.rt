//! Capsules: code with its machine, handler and version; as bytes, in pieces, and in hexadecimal digits.

ghost use Rattle.std.specs.Prelude.{◌≤◌, length};

use arrayvec::ArrayVec;
use capsule_codec::{
    Capsule, CapsuleFault, HexFault, Piece, count, decode, encode, fragment, from_hex, to_hex,
};
use mate_num::{Code, HandlerId, Image, NoMemory};
use std::alloc::Global;
use vm_desc::Description;

/// The image of a capsule.
pub fn image_of(vm_id: u32, handler: HandlerId, version: u32, code: Code) -> Image
    requires numbered { 1 ≤ version }
    requires filled { 1 ≤ length code.items }
{
    encode(&Capsule {
        vm_id,
        handler,
        version,
        code,
    })
}

/// The version of the capsule whose image the digits spell, for this machine.
pub fn version_in_digits(desc: &Description, digits: &[u8]) -> Option<u32> {
    match from_hex(digits) {
        Ok(image) => version_of(desc, image.as_slice()),
        Err(HexFault::BadHex | HexFault::TooLong) => None,
    }
}

fn version_of(desc: &Description, bytes: &[u8]) -> Option<u32> {
    match decode(desc, bytes) {
        Ok(capsule) => Some(capsule.version),
        Err(CapsuleFault::OtherVm { id: _ }) => None,
        Err(CapsuleFault::BadMagic | CapsuleFault::BadFormat | CapsuleFault::BadHandler) => None,
        Err(CapsuleFault::BadLength | CapsuleFault::BadVersion) => None,
    }
}

/// How many bytes all fragments of an image have together.
pub fn bytes_in_pieces(image: &Image) -> usize {
    let mut bytes = 0usize;
    for index in 0..count(image) {
        let piece: Option<Piece> = fragment(image, index);
        if let Some(piece) = piece {
            let piece: ArrayVec<u8, 48> = piece;
            bytes = bytes.saturating_add(piece.len());
        }
    }
    bytes
}

/// The digits of an image.
pub fn digits_of(alloc: Global, image: &Image) -> Result<String, NoMemory> {
    to_hex(alloc, image)
}
