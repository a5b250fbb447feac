//! An image, as a node keeps it.

ghost use Rattle.std.specs.Prelude.{◌≡◌, ◌≤◌, [], length, IfOk};
ghost use Rattle.mate_num.specs.declared.bounds.TheConstants.{IMAGE_MAX};

use mate_num::{Image, NoMemory};
use std::alloc::Global;
use std::marker::Model;

/// An image in the memory of its own length, since most are far shorter than the longest. Contracts see the image.
#[derive(Drop)]
pub struct KeptImage {
    bytes: Vec<u8>,
}

impl Model for KeptImage {
    ghost use Rattle.std.specs.Prelude.{◌≤◌, ℕ, length};
    ghost use Rattle.arrayvec.specs.ArrayVec.{ArrayVec};
    ghost use Rattle.mate_num.specs.declared.bounds.TheConstants.{IMAGE_MAX};

    ghost Value = { ArrayVec ℕ };

    ghost view = { λ k. record { items = k.bytes.items } };

    ghost invariant = { λ k. length k.bytes.items ≤ IMAGE_MAX };
}

impl KeptImage {
    /// An image without bytes. It takes no memory.
    pub(crate) fn none(alloc: Global) -> KeptImage
        ensures { result.items ≡ [] }
    {
        KeptImage {
            bytes: Vec::new(alloc),
        }
    }

    /// A copy of the image.
    pub(crate) fn of(alloc: Global, image: &Image) -> Result<KeptImage, NoMemory>
        ensures { IfOk result (λ kept. kept ≡ image.now) }
    {
        let bytes = image.as_slice();
        let mut kept = Vec::with_capacity(alloc, bytes.len())?;
        kept.extend_from_slice(bytes)?;
        Ok(KeptImage { bytes: kept })
    }

    /// The image as it is sent. It takes no memory. It is inlined and filled in its place, since its room is large to move.
    #[inline(always)]
    pub(crate) fn image(&self) -> Image
        ensures { result ≡ self.now }
    {
        let mut image = Image::new();
        let Ok(()) = image.try_extend_from_slice(self.bytes.as_slice()) else {
            unreachable!()
        };
        image
    }
}
