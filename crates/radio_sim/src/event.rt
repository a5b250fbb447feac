//! What waits for its time in a world.

ghost use Rattle.std.specs.Prelude.{◌≡◌, ◌<◌};
ghost use Rattle.event_queue.specs.declared.group.TheConstants.{GROUPS};

use mate_num::{ContextId, HandlerId, PacketBytes};

/// The cause of an event to come.
#[derive(Drop)]
pub enum Event {
    /// The line at this position of the plan.
    Planned(u32),
    /// The period of a timer handler ends.
    Period {
        node: u8,
        handler: HandlerId,
    },
    /// The point of the node's interval.
    Fire {
        node: u8,
    },
    /// The end of the node's interval.
    Expire {
        node: u8,
    },
    /// The node sends a fragment that was asked for.
    Pump {
        node: u8,
    },
    /// An asked call of an invocation is answered with the value.
    Due {
        node: u8,
        ctx: ContextId,
        inv: u32,
        value: i16,
    },
    /// The packet of transmission `number` arrives over the link at this position.
    Deliver {
        link: u32,
        number: u32,
        bytes: PacketBytes,
    },
}

/// Events of one node that are cancelled together.
#[derive(Clone, Copy)]
pub enum Cancel {
    /// The point and the end of its interval.
    Timer(u8),
    /// Its next fragment.
    Pump(u8),
    /// The answers that it waits for.
    Answers(u8),
}

impl Cancel {
    ghost use Rattle.radio_sim.specs.Events.{cancel_number};

    /// The number of the group.
    pub fn number(self) -> u16
        ensures value { result ≡ cancel_number self }
        ensures below { result < GROUPS }
    {
        match self {
            Cancel::Timer(node) => u16::from(node),
            Cancel::Pump(node) => 256 + u16::from(node),
            Cancel::Answers(node) => 512 + u16::from(node),
        }
    }
}
