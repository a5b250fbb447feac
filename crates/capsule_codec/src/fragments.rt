//! The pieces in which an image is sent.

ghost use Rattle.std.specs.Prelude.{◌≡◌, ◌<◌, ◌≤◌, length};
ghost use Rattle.std.specs.Option.{SomeIff};
ghost use Rattle.mate_num.specs.declared.bounds.TheConstants.{FRAGMENTS_MAX};
ghost use Rattle.capsule_codec.specs.Fragments.{piece_len, count_of, piece_at};

use arrayvec::ArrayVec;
use mate_num::{Image, SHORT_IMAGE};

/// The length of a piece of a short image, in bytes.
pub const SHORT_PIECE: usize = 24;

/// The length of a piece of any other image, in bytes.
pub const PIECE_MAX: usize = 48;

/// A piece of an image.
pub type Piece = ArrayVec<u8, PIECE_MAX>;

/// How many pieces the image has: `FRAGMENTS_MAX` at most.
pub fn count(image: &Image) -> u8
    ensures value { result ≡ count_of image.now.items }
    ensures high { result ≤ FRAGMENTS_MAX }
{
    image.len().div_ceil(piece_len(image)) as u8
}

/// The piece of the image at `index`, from 0; None exactly if `index` is `count` or more.
///
/// A piece has `SHORT_PIECE` bytes if the image has at most `SHORT_IMAGE` bytes, else `PIECE_MAX`. The last one is the rest.
pub fn fragment(image: &Image, index: u8) -> Option<Piece>
    ensures { SomeIff result (index < count_of image.now.items) (record { items = piece_at image.now.items index }) }
{
    let size = piece_len(image);
    let from = usize::from(index) * size;
    if from >= image.len() {
        return None;
    }
    let rest = &image.as_slice()[from..];
    let Ok(piece) = Piece::try_from(&rest[..size.min(rest.len())]) else {
        unreachable!()
    };
    Some(piece)
}

// The length of the image's pieces but the last one, in bytes.
fn piece_len(image: &Image) -> usize
    ensures { result ≡ piece_len (length image.now.items) }
{
    if image.len() <= SHORT_IMAGE {
        SHORT_PIECE
    } else {
        PIECE_MAX
    }
}
