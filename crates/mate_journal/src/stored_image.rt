//! An image on the heap.

ghost use Rattle.std.specs.Prelude.{◌≡◌, ◌≤◌, length, IfOk};
ghost use Rattle.mate_num.specs.declared.bounds.TheConstants.{IMAGE_MAX};

use mate_num::{Image, NoMemory};
use std::alloc::Global;
use std::marker::Model;

/// An image that takes no more memory than its bytes. Contracts see the image.
#[derive(Drop)]
pub struct StoredImage {
    bytes: Vec<u8>,
}

impl Model for StoredImage {
    ghost use Rattle.std.specs.Prelude.{◌≤◌, ℕ, length};
    ghost use Rattle.arrayvec.specs.ArrayVec.{ArrayVec};
    ghost use Rattle.mate_num.specs.declared.bounds.TheConstants.{IMAGE_MAX};

    ghost Value = { ArrayVec ℕ };

    ghost view = { λ s. record { items = s.bytes.items } };

    ghost invariant = { λ s. length s.bytes.items ≤ IMAGE_MAX };
}

impl StoredImage {
    /// A copy of the image.
    pub fn new(alloc: Global, image: &Image) -> Result<StoredImage, NoMemory>
        ensures { IfOk result (λ stored. stored ≡ image.now) }
    {
        let bytes = image.as_slice();
        let mut stored = Vec::with_capacity(alloc, bytes.len())?;
        stored.extend_from_slice(bytes)?;
        Ok(StoredImage { bytes: stored })
    }

    pub fn as_slice(&self) -> &[u8]
        ensures value { result.now ≡ self.now.items }
        ensures fits { length result.now ≤ IMAGE_MAX }
    {
        self.bytes.as_slice()
    }

    /// The image as a value of its own. It takes no memory.
    pub fn image(&self) -> Image
        ensures { result ≡ self.now }
    {
        let Ok(image) = Image::try_from(self.bytes.as_slice()) else {
            unreachable!()
        };
        image
    }
}
