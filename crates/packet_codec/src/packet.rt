//! A radio packet.

ghost use Rattle.std.specs.Prelude.{◌≡◌, []};
ghost use Rattle.packet_codec.specs.declared.packet.Packet.TheVariants.{App};

use arrayvec::ArrayVec;
use capsule_codec::Piece;
use mate_num::{HANDLERS_MAX, HandlerId, Payload};

/// What a node sends. It is right for a machine if its handlers, numbers and lengths are the machine's, as said at each field.
#[derive(Debug, Drop)]
pub enum Packet {
    /// The version that the sender holds of each handler, in order, 0 for none.
    Vector {
        versions: ArrayVec<u32, HANDLERS_MAX>,
    },
    /// Fragments that the sender lacks of a version, from 1 on, of a handler: bit `i` of `missing` asks for fragment
    /// `i`, of at most `FRAGMENTS_MAX`, and at least one bit is set.
    Status {
        handler: HandlerId,
        version: u32,
        missing: u32,
    },
    /// A piece of an image: number `index`, from 0, of `count`, at most `FRAGMENTS_MAX`. It has 1 to `SHORT_PIECE`
    /// bytes, or 1 to `PIECE_MAX` if `large` is true. Every piece but the last one has as many as it can.
    Fragment {
        handler: HandlerId,
        version: u32,
        index: u8,
        count: u8,
        large: bool,
        bytes: Piece,
    },
    /// The values that a script sends.
    App {
        payload: Payload,
    },
}

/// The message without values.
impl Default for Packet {
    ghost is_default = { λ p. p ≡ App (record { items = [] }) };

    fn default() -> Packet {
        Packet::App {
            payload: Payload::new(),
        }
    }
}
