//! What waits in a radio's queue: one event, or all that a transmission delivers.

ghost use Rattle.std.specs.Prelude.{◌≡◌, ◌≢◌, [], ◌∷◌, map, IfOk};
ghost use Rattle.radio_sim.specs.Events.{cancelled_by};
ghost use Rattle.radio_sim.specs.Flight.{first_and_rest};
ghost use Rattle.radio_sim.specs.Waiting.{delivery_event, first_event, events_of};

use crate::event::Cancel;
use crate::shared::SharedPacket;
use crate::shared_event::SharedEvent;
use event_queue::Grouped;
use mate_num::{ContextId, HandlerId, NoMemory};
use std::alloc::Global;
use std::collections::VecDeque;
use std::marker::Model;

/// The packet of transmission `number` on its way over the link at this position.
#[derive(Drop)]
pub struct Delivery {
    pub link: u32,
    pub number: u32,
    pub bytes: SharedPacket,
}

impl Delivery {
    /// The event in which it arrives.
    pub fn into_event(self) -> SharedEvent
        ensures { result ≡ delivery_event self }
    {
        let Delivery {
            link,
            number,
            bytes,
        } = self;
        SharedEvent::Deliver {
            link,
            number,
            bytes,
        }
    }
}

/// Deliveries in one place, so that they are moved at once, and their memory with them.
pub type Deliveries = Box<VecDeque<Delivery>>;

/// No deliveries.
pub fn no_deliveries(alloc: Global) -> Result<Deliveries, NoMemory>
    ensures { IfOk result (λ list. list.value.items ≡ []) }
{
    match Box::new(alloc, VecDeque::new(alloc)) {
        Ok(list) => Ok(list),
        Err(_) => Err(NoMemory),
    }
}

/// What a transmission delivers, over one link at least, in the order of the links.
#[derive(Drop)]
pub struct Flight {
    list: Deliveries,
}

impl Model for Flight {
    ghost use Rattle.std.specs.Prelude.{◌≢◌, []};
    ghost use Rattle.radio_sim.specs.Flight.{FirstAndRest, first_and_rest};

    ghost Value = { FirstAndRest };

    ghost view = { λ f. first_and_rest f.list.value.items };

    ghost invariant = { λ f. f.list.value.items ≢ [] };
}

impl Flight {
    /// The deliveries, of which there is one at least.
    pub fn of(list: Deliveries) -> Flight
        requires { list.value.items ≢ [] }
        ensures { result ≡ first_and_rest list.value.items }
    {
        Flight { list }
    }

    /// One delivery alone. It isn't inlined, so that whatever else is scheduled is scheduled in few instructions.
    #[inline(never)]
    fn alone(alloc: Global, delivery: Delivery) -> Result<Flight, NoMemory>
        ensures { IfOk result (λ flight. flight ≡ record { first = delivery; rest = [] }) }
    {
        let mut list = no_deliveries(alloc)?;
        list.as_mut().push_back(delivery)?;
        Ok(Flight::of(list))
    }

    /// The deliveries again.
    pub fn into_list(self) -> Deliveries
        ensures { result.value.items ≡ self.first ∷ self.rest }
    {
        let Flight { list } = self;
        list
    }
}

/// What waits for its time: an event that isn't a delivery, or all deliveries of a transmission, which come one after another.
#[derive(Drop)]
pub enum Waiting {
    Planned(u32),
    Period {
        node: u8,
        handler: HandlerId,
    },
    Fire {
        node: u8,
    },
    Expire {
        node: u8,
    },
    Pump {
        node: u8,
    },
    Due {
        node: u8,
        ctx: ContextId,
        inv: u32,
        value: i16,
    },
    Flight(Flight),
}

impl Waiting {
    /// The event waits. Only a delivery takes memory.
    pub fn of_event(alloc: Global, event: SharedEvent) -> Result<Waiting, NoMemory>
        ensures { IfOk result (λ waiting. events_of waiting ≡ event ∷ []) }
    {
        match event {
            SharedEvent::Planned(line) => Ok(Waiting::Planned(line)),
            SharedEvent::Period { node, handler } => Ok(Waiting::Period { node, handler }),
            SharedEvent::Fire { node } => Ok(Waiting::Fire { node }),
            SharedEvent::Expire { node } => Ok(Waiting::Expire { node }),
            SharedEvent::Pump { node } => Ok(Waiting::Pump { node }),
            SharedEvent::Due {
                node,
                ctx,
                inv,
                value,
            } => Ok(Waiting::Due {
                node,
                ctx,
                inv,
                value,
            }),
            SharedEvent::Deliver {
                link,
                number,
                bytes,
            } => {
                let first = Delivery {
                    link,
                    number,
                    bytes,
                };
                Ok(Waiting::Flight(Flight::alone(alloc, first)?))
            }
        }
    }

    /// Which cancel takes the events, if one does.
    fn cancelled_by(&self) -> Option<Cancel>
        ensures { result ≡ cancelled_by (first_event self.now) }
    {
        match self {
            Waiting::Fire { node } | Waiting::Expire { node } => Some(Cancel::Timer(*node)),
            Waiting::Pump { node } => Some(Cancel::Pump(*node)),
            Waiting::Due { node, .. } => Some(Cancel::Answers(*node)),
            Waiting::Planned(_) | Waiting::Period { .. } | Waiting::Flight(_) => None,
        }
    }
}

impl Grouped for Waiting {
    ghost use Rattle.radio_sim.specs.Waiting.{waiting_group};
    ghost use Rattle.std.specs.Prelude.{refl};
    ghost use Rattle.radio_sim.specs.declared.waiting.Waiting.TheVariants.{Planned};

    ghost group_of = { waiting_group };

    ghost numbered_of = { λ line. Planned line };

    ghost stays = { λ line. refl };

    fn group(&self) -> Option<u16> {
        let cancel = self.cancelled_by()?;
        Some(cancel.number())
    }

    fn numbered(number: u32) -> Waiting {
        Waiting::Planned(number)
    }
}
