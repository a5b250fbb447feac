//! The exchange of capsules.

ghost use Rattle.std.specs.Prelude.{◌≡◌, ◌∷◌, [], None, false};
ghost use Rattle.capsule_exchange.specs.Happenings.{Installs};
ghost use Rattle.capsule_exchange.specs.Knowledge.{knowledge};

use arrayvec::ArrayVec;
use capsule_codec::Piece;
use capsule_exchange::Exchange;
use mate_num::{HandlerId, Image};
use packet_codec::Packet;

pub fn nothing_is_held_at_first() -> u32
    ensures { result ≡ 0 }
{
    let exchange = Exchange::new(2);
    exchange.held(HandlerId(0))
}

/// A node of one handler that holds version 2 of it.
fn a_holder() -> Exchange
    ensures { result ≡ knowledge 1 (Installs 0 2 (7 ∷ []) ∷ []) }
{
    let mut exchange = Exchange::new(1);
    let mut image = Image::new();
    image.push(7);
    exchange.installed(HandlerId(0), 2, &image);
    exchange
}

pub fn another_version_is_not_marked() -> bool
    ensures { result ≡ false }
{
    let mut exchange = a_holder();
    let packet = Packet::Status {
        handler: HandlerId(0),
        version: 1,
        missing: 1,
    };
    exchange.hear(&packet);
    exchange.marked()
}

pub fn an_equal_version_is_not_asked_for() -> usize
    ensures { result ≡ 0 }
{
    let mut exchange = a_holder();
    let mut versions = ArrayVec::new();
    versions.push(2);
    let heard = exchange.hear(&Packet::Vector { versions });
    heard.asks.len()
}

/// The target is version 4.
pub fn a_fragment_of_another_version_completes_nothing() -> Option<Image>
    ensures { result ≡ None }
{
    let mut exchange = a_holder();
    let mut versions = ArrayVec::new();
    versions.push(4);
    exchange.hear(&Packet::Vector { versions });
    let mut bytes = Piece::new();
    bytes.push(7);
    let packet = Packet::Fragment {
        handler: HandlerId(0),
        version: 3,
        index: 0,
        count: 1,
        large: false,
        bytes,
    };
    exchange.hear(&packet);
    exchange.complete(HandlerId(0))
}
