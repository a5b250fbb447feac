//! Capsules: a handler's code with its version, as bytes, as fragments to send, and as hexadecimal text.
#![tactic(auto)]

pub mod capsule;
pub mod decoding;
pub mod encoding;
pub mod fragments;
pub mod hex_text;
pub mod in_place;
pub mod laws;

pub use capsule::{Capsule, CapsuleRef};
pub use decoding::{CapsuleFault, decode, decode_in_place};
pub use encoding::{encode, encode_in_place};
pub use fragments::{PIECE_MAX, Piece, SHORT_PIECE, count, fragment};
pub use hex_text::{HexFault, from_hex, read_digits, to_hex};
pub use laws::{one_image, pieces_make_the_image};
