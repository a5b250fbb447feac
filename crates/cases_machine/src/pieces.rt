//! The pieces of an image of this many bytes: how many, the length of the last, and whether they make the image.

use capsule_codec::{count, fragment};
use mate_num::Image;
use std::alloc::{AllocError, Global};

pub fn answer(alloc: Global, case: &str) -> Result<String, AllocError> {
    let Ok(len) = case.parse::<u16>() else {
        return "no length".to_string(alloc);
    };
    let image = image_of(len);
    let mut joined = Image::new();
    let mut last = 0;
    for index in 0..count(&image) {
        if let Some(piece) = fragment(&image, index) {
            last = piece.len();
            let _ = joined.try_extend_from_slice(piece.as_slice());
        }
    }
    let beyond = fragment(&image, count(&image)).is_some();
    format!(in alloc; "{} {last} {} {beyond}", count(&image), joined == image)
}

/// An image of `len` bytes, which count from 0.
fn image_of(len: u16) -> Image {
    let mut image = Image::new();
    for index in 0..len {
        let _ = image.try_push((index % 256) as u8);
    }
    image
}
