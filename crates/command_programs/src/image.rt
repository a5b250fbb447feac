//! The image of a capsule, as a program holds it.

ghost use Rattle.std.specs.Prelude.{◌≡◌};
ghost use Rattle.capsule_codec.specs.Image.{capsule_parts, parts_in_place, capsule_image, IsCapsule};
ghost use Rattle.command_steps.specs.Steps.{obtained};

use capsule_codec::{Capsule, CapsuleRef, encode_in_place};
use command_refusals::Refusal;
use mate_journal::StoredImage;
use std::alloc::Global;

/// The capsule's one image, on the heap.
pub(crate) fn stored_image(alloc: Global, capsule: &Capsule) -> Result<StoredImage, Refusal>
    ensures image { obtained (λ image. image.items ≡ capsule_image (capsule_parts capsule.now)) result }
    ensures fits { IsCapsule (capsule_parts capsule.now) }
{
    stored_in_place(alloc, &capsule.in_place())
}

/// That of a capsule that is in place.
#[inline(never)]
pub(crate) fn stored_in_place(
    alloc: Global,
    capsule: &CapsuleRef<'_>,
) -> Result<StoredImage, Refusal>
    ensures image { obtained (λ image. image.items ≡ capsule_image (parts_in_place capsule.now)) result }
    ensures fits { IsCapsule (parts_in_place capsule.now) }
{
    match StoredImage::new(alloc, &encode_in_place(capsule)) {
        Ok(image) => Ok(image),
        Err(_) => Err(Refusal::NoMemory),
    }
}
