//! What an event does beyond its node's journal.

ghost use Rattle.std.specs.Prelude.{◌≡◌};
ghost use Rattle.world_state.specs.Motes.{plain_effect};

use crate::first::First;
use arrayvec::ArrayVec;
use packet_codec::Packet;

/// What an event does beyond the entries of its node. A call that has such an effect is given one that is nothing, and
/// writes into it.
#[derive(Drop)]
pub struct Effect {
    /// What is recorded of the air first.
    pub first: First,
    /// Whether an interval of the node's timer begins.
    pub begins: bool,
    /// Whether an era begins, so that the answers that were waited for come no more.
    pub cuts: bool,
    /// Whether the node was reset, so that a pump that was due comes no more.
    pub resets: bool,
    /// The packets that the node sends, apart from messages.
    pub sends: ArrayVec<Packet, 8>,
}

impl Effect {
    /// Nothing.
    pub fn none() -> Effect
        ensures { result ≡ plain_effect }
    {
        Effect {
            first: First::nothing(),
            begins: false,
            cuts: false,
            resets: false,
            sends: ArrayVec::new(),
        }
    }

    /// Nothing again.
    pub fn clear(&mut self)
        ensures { self.new ≡ plain_effect }
    {
        self.first.clear();
        self.begins = false;
        self.cuts = false;
        self.resets = false;
        self.sends.clear();
    }
}
