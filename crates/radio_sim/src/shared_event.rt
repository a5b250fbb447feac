//! Events with packets that are shared.

ghost use Rattle.std.specs.Prelude.{◌≡◌, IfOk};

use crate::event::{Cancel, Event};
use crate::shared::SharedPacket;
use crate::wire::copy_of;
use event_queue::Grouped;
use mate_num::{ContextId, HandlerId, NoMemory};
use std::alloc::Global;

/// An event, as the radio keeps it: a packet is in one place for all links that deliver it.
#[derive(Drop)]
pub enum SharedEvent {
    Planned(u32),
    Period {
        node: u8,
        handler: HandlerId,
    },
    Fire {
        node: u8,
    },
    Expire {
        node: u8,
    },
    Pump {
        node: u8,
    },
    Due {
        node: u8,
        ctx: ContextId,
        inv: u32,
        value: i16,
    },
    Deliver {
        link: u32,
        number: u32,
        bytes: SharedPacket,
    },
}

impl SharedEvent {
    ghost use Rattle.radio_sim.specs.Events.{shared, cancelled_by};

    /// The event. Only a delivery takes memory: its packet is read for no machine.
    pub fn of(alloc: Global, event: Event) -> Result<SharedEvent, NoMemory>
        ensures { IfOk result (λ kept. kept ≡ shared event) }
    {
        match event {
            Event::Planned(line) => Ok(SharedEvent::Planned(line)),
            Event::Period { node, handler } => Ok(SharedEvent::Period { node, handler }),
            Event::Fire { node } => Ok(SharedEvent::Fire { node }),
            Event::Expire { node } => Ok(SharedEvent::Expire { node }),
            Event::Pump { node } => Ok(SharedEvent::Pump { node }),
            Event::Due {
                node,
                ctx,
                inv,
                value,
            } => Ok(SharedEvent::Due {
                node,
                ctx,
                inv,
                value,
            }),
            Event::Deliver {
                link,
                number,
                bytes,
            } => Ok(SharedEvent::Deliver {
                link,
                number,
                bytes: SharedPacket::unread(alloc, bytes)?,
            }),
        }
    }

    /// The event with a packet of its own.
    pub fn event(&self) -> Event
        ensures { shared result ≡ self.now }
    {
        match self {
            SharedEvent::Planned(line) => Event::Planned(*line),
            SharedEvent::Period { node, handler } => Event::Period {
                node: *node,
                handler: *handler,
            },
            SharedEvent::Fire { node } => Event::Fire { node: *node },
            SharedEvent::Expire { node } => Event::Expire { node: *node },
            SharedEvent::Pump { node } => Event::Pump { node: *node },
            SharedEvent::Due {
                node,
                ctx,
                inv,
                value,
            } => Event::Due {
                node: *node,
                ctx: *ctx,
                inv: *inv,
                value: *value,
            },
            SharedEvent::Deliver {
                link,
                number,
                bytes,
            } => Event::Deliver {
                link: *link,
                number: *number,
                bytes: copy_of(bytes.bytes()),
            },
        }
    }

    /// Which cancel takes the event, if one does.
    pub fn cancelled_by(&self) -> Option<Cancel>
        ensures { result ≡ cancelled_by self.now }
    {
        match self {
            SharedEvent::Fire { node } | SharedEvent::Expire { node } => Some(Cancel::Timer(*node)),
            SharedEvent::Pump { node } => Some(Cancel::Pump(*node)),
            SharedEvent::Due { node, .. } => Some(Cancel::Answers(*node)),
            SharedEvent::Planned(_) | SharedEvent::Period { .. } | SharedEvent::Deliver { .. } =>
                None,
        }
    }
}

impl Grouped for SharedEvent {
    ghost use Rattle.radio_sim.specs.Events.{group_of};
    ghost use Rattle.std.specs.Prelude.{refl};
    ghost use Rattle.radio_sim.specs.declared.shared_event.SharedEvent.TheVariants.{Planned};

    ghost group_of = { group_of };

    ghost numbered_of = { λ line. Planned line };

    ghost stays = { λ line. refl };

    fn group(&self) -> Option<u16> {
        let cancel = self.cancelled_by()?;
        Some(cancel.number())
    }

    fn numbered(number: u32) -> SharedEvent {
        SharedEvent::Planned(number)
    }
}
