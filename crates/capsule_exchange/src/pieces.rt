//! The pieces of an image that are collected, by index.

ghost use Rattle.std.specs.Prelude.{◌≡◌, ◌+◌, ◌≤◌, ◌++◌, length, false, is_some, Some, if◌then◌else◌};
ghost use Rattle.std.specs.List.{flat_map, list_all};
ghost use Rattle.mate_num.specs.declared.bounds.TheConstants.{FRAGMENTS_MAX, IMAGE_MAX};
ghost use Rattle.capsule_codec.specs.declared.fragments.TheConstants.{PIECE_MAX};
ghost use Rattle.capsule_exchange.specs.Table.{table};
ghost use Rattle.capsule_exchange.specs.Happenings.{gaps, mask_of, whole, piece_bytes};

use crate::kept_piece::KeptPiece;
use mate_num::{FRAGMENTS_MAX, Image};

/// No piece at any index.
pub(crate) fn no_pieces() -> [Option<KeptPiece>; FRAGMENTS_MAX]
    ensures { result ≡ table (λ _. None) }
{
    Default::default()
}

/// No mark at any index.
pub(crate) fn no_marks() -> [bool; FRAGMENTS_MAX]
    ensures { result ≡ table (λ _. false) }
{
    [false; FRAGMENTS_MAX]
}

/// Bit i for each index i with no piece.
pub(crate) fn missing_mask(places: &[Option<KeptPiece>]) -> u32
    requires { length places.now ≤ FRAGMENTS_MAX }
    ensures { result ≡ mask_of (gaps places.now) }
{
    let mut mask = 0;
    for i in 0..places.len() {
        if places[i].is_none() {
            mask |= 1 << i;
        }
    }
    mask
}

/// The pieces put together in the place of other bytes: whether none is missing. If one is, these stay.
pub(crate) fn join_into(places: &[Option<KeptPiece>], image: &mut Image) -> bool
    requires { length places.now ≤ FRAGMENTS_MAX }
    ensures whole { (if result then Some image.new else None) ≡ whole places.now }
    ensures kept { result ≡ false → image.new ≡ image.old }
{
    if !is_whole(places) {
        return false;
    }
    write_bytes(places, image);
    true
}

/// Whether no piece is missing.
pub(crate) fn is_whole(places: &[Option<KeptPiece>]) -> bool
    ensures { result ≡ list_all is_some places.now }
{
    places.iter().all(|place| place.is_some())
}

// Writes the bytes of the pieces, in order, in the place of others.
fn write_bytes(places: &[Option<KeptPiece>], image: &mut Image)
    requires { length places.now ≤ FRAGMENTS_MAX }
    ensures { image.new.items ≡ flat_map piece_bytes places.now }
{
    image.clear();
    for place in places {
        append(image, place);
    }
}

// Appends the bytes of the piece, if there is one; there must be room for them.
fn append(image: &mut Image, place: &Option<KeptPiece>)
    requires { length image.old.items + PIECE_MAX ≤ IMAGE_MAX }
    ensures bytes { image.new.items ≡ image.old.items ++ piece_bytes place.now }
    ensures high { length image.new.items ≤ length image.old.items + PIECE_MAX }
{
    let Some(piece) = place else {
        return;
    };
    let Ok(()) = image.try_extend_from_slice(piece.as_slice()) else {
        unreachable!()
    };
}
