//! The radio of a world.

ghost use Rattle.std.specs.Prelude.{◌≡◌, ◌+◌, ◌<◌, ◌≤◌, ◌^◌, [], ◌∷◌, ◌++◌, ℕ, drop, filter, slice_index_or, length, MatchOption};
ghost use Rattle.std.specs.Prelude.{MatchResult, List, IfNone, IfOk, OnOk};
ghost use Rattle.event_queue.specs.Agenda.{scheduled, scheduled_all, is_other, Adds, AddsAll, Comes};
ghost use Rattle.script_steps.specs.World.{IsRightWorld};
ghost use Rattle.std.specs.List.{All};
ghost use Rattle.mate_num.specs.declared.bounds.TheConstants.{HOUR};
ghost use Rattle.script_steps.specs.declared.world.Link.{Link};
ghost use Rattle.radio_sim.specs.declared.radio.TheConstants.{NODES};
ghost use Rattle.radio_sim.specs.Events.{shared, group_of, cancel_number};
ghost use Rattle.radio_sim.specs.declared.waiting.Delivery.{Delivery as Coming};
ghost use Rattle.radio_sim.specs.Waiting.{first_event, later_deliveries, radio_agenda, IsOnTime};
ghost use Rattle.radio_sim.specs.Wires.{losts, delivered};
ghost use Rattle.radio_sim.specs.Sending.{sent_record, AreLeaving, IsFurther};

use crate::event::{Cancel, Event};
use crate::past::PastAir;
use crate::rooms::Rooms;
use crate::shared::SharedPacket;
use crate::shared_event::SharedEvent;
use crate::waiting::{Deliveries, Flight, Waiting, no_deliveries};
use crate::wire::{Sending, Wire, Wires, copy_of};
use event_queue::{Queue, Timed};
use mate_journal::{Air, Aired, Airs};
use mate_num::{NoMemory, PacketBytes, Stamp};
use script_steps::{Link, World};
use std::alloc::Global;
use std::marker::Model;
use std::mem;
use vm_shape::Description;

/// How many numbers of nodes there are.
const NODES: usize = 256;

/// What waits in a world, its links, and what happened on the air. Contracts see these as an `Ether`, with all that happened on
/// the air; memory has what was recorded since the last `forget`.
#[derive(Drop)]
pub struct Radio {
    alloc: Global,
    queue: Queue<Waiting>,
    /// When the last event came, in ms.
    came: u32,
    /// What is still to come then of the transmission whose packet came last.
    coming: Deliveries,
    rooms: Rooms,
    past: PastAir,
    // how many records are gone
    gone: usize,
    air: Airs,
    /// How many packets were sent.
    sent: u32,
    /// How long a packet is on its way, in ms.
    delay: u32,
    /// The links that leave each node.
    wires: Vec<Wires>,
}

impl Model for Radio {
    ghost use Rattle.radio_sim.specs.Radio.{Ether, IsRightRadio};

    ghost Value = { Ether };

    ghost use Rattle.std.specs.Prelude.{◌++◌};
    ghost use Rattle.radio_sim.specs.Waiting.{radio_agenda};

    ghost view = { λ r. record {
      agenda = radio_agenda r.coming.value.items r.queue;
      air = r.past.air
          ++ r.air;
      gone = r.gone;
      sent = r.sent;
      delay = r.delay;
      wires = r.wires.items;
    } };

    ghost invariant = { λ r. IsRightRadio r.queue r.came r.past.air r.gone r.air r.sent r.delay r.wires.items };
}

impl Radio {
    ghost use Rattle.std.specs.Prelude.{List};
    ghost use Rattle.script_steps.specs.declared.world.World.{World};
    ghost use Rattle.radio_sim.specs.Radio.{StartsRadio, wires_of, transmitted, IsEtherOf};
    ghost use Rattle.radio_sim.specs.declared.shared_event.SharedEvent.TheVariants.{Planned};

    /// The radio of a world, in which nothing waits and nothing was sent.
    pub fn new(alloc: Global, world: &World, desc: &Description) -> Result<Radio, NoMemory>
        requires { IsRightWorld desc.now world.now }
        ensures { IfOk result (λ radio. StartsRadio world.now desc.now radio) }
    {
        let wires = wires_of(alloc, world.random, world.links.as_slice())?;
        let queue = Queue::new(alloc, world.until)?;
        let coming = no_deliveries(alloc)?;
        Ok(Radio {
            alloc,
            queue,
            came: 0,
            coming,
            rooms: Rooms::new(alloc),
            past: PastAir::new(),
            gone: 0,
            air: Airs::new(alloc),
            sent: 0,
            delay: desc.radio.delay,
            wires,
        })
    }

    /// Schedules an event, behind all that come by its time. One that would come after the world's end is not kept.
    /// `NoMemory` leaves the radio as it was.
    pub fn schedule(&mut self, time: u32, event: Event) -> Result<(), NoMemory>
        requires { self.old.agenda.now ≤ time }
        ensures list { MatchResult result (λ _. self.new ≡ record self.old { agenda = scheduled self.old.agenda time (shared event) })
            (λ _. self.new ≡ self.old) }
        ensures due { OnOk result (Adds self.old.agenda time (shared event) self.new.agenda) }
        ensures now { self.new.agenda.now ≡ self.old.agenda.now }
    {
        let kept = SharedEvent::of(self.alloc, event)?;
        self.schedule_shared(time, kept)
    }

    /// Schedules an event, as `schedule` does. A packet is kept as it was read.
    pub fn schedule_shared(&mut self, time: u32, event: SharedEvent) -> Result<(), NoMemory>
        requires { self.old.agenda.now ≤ time }
        ensures list { MatchResult result (λ _. self.new ≡ record self.old { agenda = scheduled self.old.agenda time event })
            (λ _. self.new ≡ self.old) }
        ensures due { OnOk result (Adds self.old.agenda time event self.new.agenda) }
        ensures now { self.new.agenda.now ≡ self.old.agenda.now }
    {
        let waiting = Waiting::of_event(self.alloc, event)?;
        self.queue.schedule(time, waiting)?;
        Ok(())
    }

    /// Schedules a line of the script, as `schedule` does. Lines that are scheduled so before all else, in order of their numbers and times,
    /// take four bytes each.
    pub fn plan(&mut self, time: u32, line: u32) -> Result<(), NoMemory>
        requires { self.old.agenda.now ≤ time }
        ensures list { MatchResult result (λ _. self.new ≡ record self.old { agenda = scheduled self.old.agenda time (Planned line) })
            (λ _. self.new ≡ self.old) }
        ensures due { OnOk result (Adds self.old.agenda time (Planned line) self.new.agenda) }
        ensures now { self.new.agenda.now ≡ self.old.agenda.now }
    {
        self.queue.schedule_numbered(time, line)?;
        Ok(())
    }

    /// The node sends a packet in the event `at`. It has the next number. On each link that leaves the node, in their
    /// order, the next word of the link decides: the packet is lost, or it comes `delay` ms later. `NoMemory` leaves the
    /// radio as it was.
    pub fn transmit(&mut self, node: u8, bytes: &PacketBytes, at: Stamp) -> Result<(), NoMemory>
        requires ahead { self.old.agenda.now ≤ at.time }
        requires hour { at.time ≤ HOUR }
        requires few { length self.old.air < 4000000000 }
        ensures sends { MatchResult result (λ _. self.new
            ≡ transmitted self.old (record { at = at; node = node; number = self.old.sent + 1 }) bytes.now) (λ _. self.new ≡ self.old) }
        ensures due { OnOk result (AddsAll self.old.agenda (at.time + self.old.delay)
            (delivered (record { at = at; node = node; number = self.old.sent + 1 }) bytes.now (wires_of self.old node)) self.new.agenda) }
        ensures now { self.new.agenda.now ≡ self.old.agenda.now }
        ensures stands { OnOk result ((world : World) (senders : List ℕ) → IsEtherOf world senders self.old
            → IsEtherOf world (senders ++ node ∷ []) self.new) }
    {
        let packet = SharedPacket::unread(self.alloc, copy_of(bytes))?;
        self.transmit_shared(node, copy_of(bytes), packet, at)
    }

    /// The node sends a packet in the event `at`, as `transmit` does. Its bytes are read once, for the machine, and moved
    /// into the record, and not copied.
    pub fn transmit_own(
        &mut self,
        desc: &Description,
        node: u8,
        bytes: PacketBytes,
        at: Stamp,
    ) -> Result<(), NoMemory>
        requires ahead { self.old.agenda.now ≤ at.time }
        requires hour { at.time ≤ HOUR }
        requires few { length self.old.air < 4000000000 }
        ensures sends { MatchResult result (λ _. self.new
            ≡ transmitted self.old (record { at = at; node = node; number = self.old.sent + 1 }) bytes) (λ _. self.new ≡ self.old) }
        ensures due { OnOk result (AddsAll self.old.agenda (at.time + self.old.delay)
            (delivered (record { at = at; node = node; number = self.old.sent + 1 }) bytes (wires_of self.old node)) self.new.agenda) }
        ensures now { self.new.agenda.now ≡ self.old.agenda.now }
        ensures stands { OnOk result ((world : World) (senders : List ℕ) → IsEtherOf world senders self.old
            → IsEtherOf world (senders ++ node ∷ []) self.new) }
    {
        let packet = self.rooms.packet(desc, &bytes)?;
        self.transmit_shared(node, bytes, packet, at)
    }

    // The node sends the bytes, which the packet has, too.
    #[inline(always)]
    fn transmit_shared(
        &mut self,
        node: u8,
        bytes: PacketBytes,
        packet: SharedPacket,
        at: Stamp,
    ) -> Result<(), NoMemory>
        requires same { packet ≡ bytes }
        requires ahead { self.old.agenda.now ≤ at.time }
        requires hour { at.time ≤ HOUR }
        requires few { length self.old.air < 4000000000 }
        ensures sends { MatchResult result (λ _. self.new
            ≡ transmitted self.old (record { at = at; node = node; number = self.old.sent + 1 }) bytes) (λ _. self.new ≡ self.old) }
        ensures due { OnOk result (AddsAll self.old.agenda (at.time + self.old.delay)
            (delivered (record { at = at; node = node; number = self.old.sent + 1 }) bytes (wires_of self.old node)) self.new.agenda) }
        ensures now { self.new.agenda.now ≡ self.old.agenda.now }
        ensures stands { OnOk result ((world : World) (senders : List ℕ) → IsEtherOf world senders self.old
            → IsEtherOf world (senders ++ node ∷ []) self.new) }
    {
        let sending = Sending {
            at,
            node,
            number: self.sent + 1,
        };
        let before = self.air.len();
        let wires = &mut self.wires[node as usize];
        let result = send(
            wires,
            packet,
            sending,
            bytes,
            self.delay,
            &mut self.rooms,
            &mut self.queue,
            &mut self.air,
        );
        if result.is_err() {
            self.air.cut(before);
            return Err(NoMemory);
        }
        wires.turn();
        self.sent += 1;
        Ok(())
    }

    /// Takes out the first event with its time. None if no event waits, which changes nothing.
    pub fn next(&mut self) -> Option<(u32, Event)>
        ensures first { MatchOption result (self.old.agenda.items ≡ [])
            (λ first. Comes self.old.agenda (record { time = first.0; item = shared first.1 }) self.new.agenda) }
        ensures others { self.new ≡ record self.old { agenda = self.new.agenda } }
        ensures none { IfNone result (self.new ≡ self.old) }
    {
        let mut event = SharedEvent::Planned(0);
        let time = self.next_into(&mut event)?;
        Some((time, event.event()))
    }

    /// Takes out the first event, in the place of another one: its time. None if no event waits, which changes nothing. So the parts of an
    /// event are written where they are read: a processor waits if it reads as a whole what it just wrote in parts.
    pub fn next_into(&mut self, event: &mut SharedEvent) -> Option<u32>
        ensures first { MatchOption result (self.old.agenda.items ≡ [])
            (λ time. Comes self.old.agenda (record { time = time; item = event.new }) self.new.agenda) }
        ensures others { self.new ≡ record self.old { agenda = self.new.agenda } }
        ensures none { IfNone result (self.new ≡ self.old) }
        ensures kept { IfNone result (event.new ≡ event.old) }
    {
        if let Some(delivery) = self.coming.as_mut().pop_front() {
            *event = delivery.into_event();
            return Some(self.came);
        }
        let Timed { time, item } = self.queue.next()?;
        self.came = time;
        *event = come(item, &mut self.coming, &mut self.rooms);
        Some(time)
    }

    /// Cancels events of a node: the others stay, in their order.
    pub fn cancel(&mut self, which: Cancel)
        ensures { self.new ≡ record self.old {
          agenda = record self.old.agenda
              { items = filter (is_other group_of (cancel_number which)) self.old.agenda.items };
        } }
    {
        self.queue.cancel(which.number());
    }

    /// How many records were made.
    pub fn aired(&self) -> usize
        ensures { result ≡ length self.now.air }
    {
        self.gone + self.air().len()
    }

    /// What happened on the air since the last `forget`.
    pub fn air(&self) -> &[Aired]
        ensures { result.now ≡ drop self.now.gone self.now.air }
    {
        self.air.as_slice()
    }

    /// Hands out what happened on the air, if nothing was forgotten.
    pub fn into_air(self) -> Airs
        requires { self.gone ≡ 0 }
        ensures { result ≡ self.air }
    {
        self.air
    }

    /// Forgets what happened on the air until now: its memory is free for what comes.
    pub fn forget(&mut self)
        requires { length self.old.air < 4000000000 }
        ensures { self.new ≡ record self.old { gone = length self.old.air } }
    {
        self.gone += self.air.len();
        self.past = PastAir::with(&self.past, &self.air);
        self.air.cut(0);
    }

    /// Notes what happened on the air. `NoMemory` leaves the radio as it was. It is inlined, so that the record is written in its place
    /// at once.
    #[inline(always)]
    pub fn note(&mut self, aired: Aired) -> Result<(), NoMemory>
        ensures { MatchResult result (λ _. self.new ≡ record self.old { air = self.old.air ++ aired ∷ [] }) (λ _. self.new ≡ self.old) }
    {
        self.air.push(aired)
    }
}

/// The event that comes first of what waited; what comes behind it is in `coming` then.
fn come(waiting: Waiting, coming: &mut Deliveries, rooms: &mut Rooms) -> SharedEvent
    requires { coming.old.value.items ≡ [] }
    ensures first { result ≡ first_event waiting }
    ensures later { coming.new.value.items ≡ later_deliveries waiting }
{
    match waiting {
        Waiting::Planned(line) => SharedEvent::Planned(line),
        Waiting::Period { node, handler } => SharedEvent::Period { node, handler },
        Waiting::Fire { node } => SharedEvent::Fire { node },
        Waiting::Expire { node } => SharedEvent::Expire { node },
        Waiting::Pump { node } => SharedEvent::Pump { node },
        Waiting::Due {
            node,
            ctx,
            inv,
            value,
        } => SharedEvent::Due {
            node,
            ctx,
            inv,
            value,
        },
        Waiting::Flight(flight) => {
            let mut list = flight.into_list();
            let Some(first) = list.as_mut().pop_front() else {
                unreachable!()
            };
            rooms.keep(mem::replace(coming, list));
            first.into_event()
        }
    }
}

/// Records the packet and what the links lose, and schedules what they deliver.
fn send(
    wires: &Wires,
    packet: SharedPacket,
    sending: Sending,
    bytes: PacketBytes,
    delay: u32,
    rooms: &mut Rooms,
    queue: &mut Queue<Waiting>,
    air: &mut Airs,
) -> Result<(), NoMemory>
    requires same { packet ≡ bytes }
    requires ahead { queue.old.now ≤ sending.at.time }
    requires room { sending.at.time + delay < 2 ^ 32 }
    ensures queue { MatchResult result (λ _. (coming : List Coming) → radio_agenda coming queue.new
        ≡ scheduled_all (radio_agenda coming queue.old) (sending.at.time + delay) (delivered sending bytes wires.now))
        (λ _. queue.new ≡ queue.old) }
    ensures air { IfOk result (λ _. air.new ≡ air.old ++ sent_record sending bytes ∷ [] ++ losts sending wires.now) }
    ensures kept { IsFurther air.old air.new }
    ensures due { OnOk result ((coming : List Coming) → AddsAll (radio_agenda coming queue.old) (sending.at.time + delay)
        (delivered sending bytes wires.now) (radio_agenda coming queue.new)) }
    ensures now { queue.new.now ≡ queue.old.now }
    ensures ahead { IsOnTime queue.old → IsOnTime queue.new }
{
    air.push(Aired {
        stamp: sending.at,
        node: sending.node,
        air: Air::Sent {
            number: sending.number,
            bytes,
        },
    })?;
    let mut list = rooms.take()?;
    wires.carry(sending, &packet, air, list.as_mut())?;
    if list.as_ref().is_empty() {
        rooms.keep(list);
        return Ok(());
    }
    let flight = Waiting::Flight(Flight::of(list));
    queue.schedule(sending.at.time + delay, flight)?;
    Ok(())
}

/// The links that leave each node, each with its stream of words.
fn wires_of(alloc: Global, random: u64, links: &[Link]) -> Result<Vec<Wires>, NoMemory>
    requires few { length links.now < 2 ^ 32 }
    requires near { All (λ (l : Link). l.from < NODES) links.now }
    ensures nodes { IfOk result (λ wires. length wires.items ≡ NODES) }
    ensures leaving { IfOk result (λ wires. AreLeaving random links.now wires.items) }
{
    let mut wires = none_leaving(alloc)?;
    for (position, link) in links.iter().enumerate() {
        wires[link.from as usize].push(Wire::new(random, position as u32, *link))?;
    }
    Ok(wires)
}

/// No link for each node.
fn none_leaving(alloc: Global) -> Result<Vec<Wires>, NoMemory>
    ensures nodes { IfOk result (λ wires. length wires.items ≡ NODES) }
    ensures empty { IfOk result (λ wires. (node : ℕ) → slice_index_or wires.items node [] ≡ []) }
{
    let mut wires = Vec::with_capacity(alloc, NODES)?;
    for _ in 0..NODES {
        wires.push(Wires::new(alloc))?;
    }
    Ok(wires)
}
