//! What is noted of an image that is kept elsewhere.

ghost use Rattle.std.specs.Prelude.{◌≡◌, ◌≤◌, []};
ghost use Rattle.mate_num.specs.declared.bounds.TheConstants.{FRAGMENTS_MAX};
ghost use Rattle.capsule_codec.specs.Fragments.{count_of};

use crate::unseen_image::UnseenImage;
use capsule_codec::count;
use mate_num::Image;
use std::marker::Model;

/// How many fragments an image has that is kept elsewhere. Contracts see the image.
#[derive(Drop)]
pub struct NotedImage {
    count: u8,
    unseen: UnseenImage,
}

impl Model for NotedImage {
    ghost use Rattle.std.specs.Prelude.{◌≡◌, ◌≤◌, ℕ};
    ghost use Rattle.arrayvec.specs.ArrayVec.{ArrayVec};
    ghost use Rattle.mate_num.specs.declared.bounds.TheConstants.{FRAGMENTS_MAX};
    ghost use Rattle.capsule_codec.specs.Fragments.{count_of};

    ghost Value = { ArrayVec ℕ };

    ghost view = { λ n. record { items = n.unseen.image.items } };

    ghost invariant = { λ n. (n.count ≡ count_of n.unseen.image.items) × (n.count ≤ FRAGMENTS_MAX) };
}

impl NotedImage {
    /// An image without bytes.
    pub(crate) fn none() -> NotedImage
        ensures { result.items ≡ [] }
    {
        NotedImage {
            count: 0,
            unseen: UnseenImage::none(),
        }
    }

    /// What is noted of the image.
    pub(crate) fn of(image: &Image) -> NotedImage
        ensures { result ≡ image.now }
    {
        NotedImage {
            count: count(image),
            unseen: UnseenImage::of(image),
        }
    }

    /// How many fragments the image has.
    pub(crate) fn count(&self) -> u8
        ensures value { result ≡ count_of self.now.items }
        ensures high { result ≤ FRAGMENTS_MAX }
    {
        self.count
    }
}
