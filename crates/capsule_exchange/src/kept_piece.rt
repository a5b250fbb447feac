//! A piece of an image, as a node keeps it.

ghost use Rattle.std.specs.Prelude.{◌≡◌, ◌≤◌, length};
ghost use Rattle.capsule_codec.specs.declared.fragments.TheConstants.{PIECE_MAX};

use capsule_codec::{PIECE_MAX, Piece};
use std::marker::Model;

/// A piece in 49 bytes, since a node has places for many. Contracts see the piece.
#[derive(Drop)]
pub struct KeptPiece {
    // The piece's bytes, and any others after them.
    bytes: [u8; PIECE_MAX],
    // How many of them are the piece's.
    len: u8,
}

impl Model for KeptPiece {
    ghost use Rattle.std.specs.Prelude.{◌≡◌, ◌≤◌, ℕ, length, take};
    ghost use Rattle.arrayvec.specs.ArrayVec.{ArrayVec};
    ghost use Rattle.capsule_codec.specs.declared.fragments.TheConstants.{PIECE_MAX};

    ghost Value = { ArrayVec ℕ };

    ghost view = { λ p. record { items = take p.len p.bytes } };

    ghost invariant = { λ p. (p.len ≤ PIECE_MAX) × (length p.bytes ≡ PIECE_MAX) };
}

impl KeptPiece {
    /// A copy of the piece.
    pub(crate) fn of(piece: &Piece) -> KeptPiece
        ensures { result ≡ piece.now }
    {
        let mut bytes = [0; PIECE_MAX];
        bytes[..piece.len()].copy_from_slice(piece.as_slice());
        KeptPiece {
            bytes,
            len: piece.len() as u8,
        }
    }

    /// The bytes.
    pub(crate) fn as_slice(&self) -> &[u8]
        ensures value { result.now ≡ self.now.items }
        ensures fits { length result.now ≤ PIECE_MAX }
    {
        &self.bytes[..self.len as usize]
    }
}
