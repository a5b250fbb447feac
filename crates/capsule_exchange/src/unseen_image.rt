//! An image that is kept elsewhere. It exists in proofs alone.

ghost use Rattle.std.specs.Prelude.{◌≡◌, [], ℕ};
ghost use Rattle.std.specs.Borrow.{ftrue};
ghost use Rattle.arrayvec.specs.ArrayVec.{ArrayVec};

use mate_num::Image;
use std::marker::Model;

/// An image that is nowhere here in memory. It takes no bytes, and nothing is known of it but what clauses say.
#[derive(Drop)]
pub struct UnseenImage {
    pub ghost image: { ArrayVec ℕ },
}

impl Model for UnseenImage {
    ghost also_owns = { λ _. ftrue };
}

impl UnseenImage {
    /// An image without bytes.
    pub(crate) fn none() -> UnseenImage
        ensures { result.image.items ≡ [] }
    {
        UnseenImage {}
    }

    /// This image. It does nothing.
    pub(crate) fn of(_image: &Image) -> UnseenImage
        ensures { result.image ≡ _image.now }
    {
        UnseenImage {}
    }
}
