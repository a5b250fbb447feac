//! The queue: items and their times, in order.

ghost use Rattle.std.specs.Prelude.{◌≡◌, ◌<◌, ◌≤◌, [], filter, MatchOption, MatchResult, OnOk, IfNone, IfOk};
ghost use Rattle.event_queue.specs.declared.group.TheConstants.{GROUPS};
ghost use Rattle.event_queue.specs.Agenda.{scheduled, is_other, Adds, Comes};
ghost use Rattle.event_queue.specs.Wheel.{IsWheel, Seeks, SeeksBefore};

use crate::group::Grouped;
use crate::plan::Plan;
use crate::wheel::Wheel;
use mate_num::NoMemory;
use std::alloc::Global;
use std::marker::Model;

/// An item that comes at a time, in ms.
#[derive(Drop)]
pub struct Timed<T: Grouped> {
    pub time: u32,
    pub item: T,
}

/// Items that wait for their times, up to `until` ms. Contracts see them as a list in order of time, and at one time in the
/// order in which they were scheduled, with the time of the last one that came.
#[derive(Drop)]
pub struct Queue<T: Grouped> {
    until: u32,
    plan: Plan,
    // (in a place of its own: it is large, and whoever makes a queue moves it)
    wheel: Box<Wheel<T>>,
}

impl<T: Grouped> Model for Queue<T> {
    ghost use Rattle.event_queue.specs.Agenda.{Agenda};
    ghost use Rattle.event_queue.specs.View.{agenda_of, IsRightQueue};

    ghost Value = { Agenda T };

    ghost view = { λ q. agenda_of T.group_of T.numbered_of q.until q.plan q.wheel.value };

    ghost invariant = { λ q. IsRightQueue T.group_of q.until q.plan q.wheel.value };
}

impl<T: Grouped> Queue<T> {
    /// An empty queue, which keeps what is scheduled up to `until`.
    #[inline(never)]
    pub fn new(alloc: Global, until: u32) -> Result<Queue<T>, NoMemory>
        requires { until < 4194304 }
        ensures { IfOk result (λ q. q ≡ record { until = until; now = 0; items = [] }) }
    {
        match Box::new(alloc, Wheel::new(alloc)?) {
            Ok(wheel) => Ok(Queue {
                until,
                plan: Plan::new(alloc),
                wheel,
            }),
            Err(_) => Err(NoMemory),
        }
    }

    /// Schedules an item, behind all that come by its time. One that would come after `until` is not kept. `NoMemory` leaves
    /// the queue as it was.
    pub fn schedule(&mut self, time: u32, item: T) -> Result<(), NoMemory>
        requires { self.old.now ≤ time }
        ensures list { MatchResult result (λ _. self.new ≡ scheduled self.old time item) (λ _. self.new ≡ self.old) }
        ensures due { OnOk result (Adds self.old time item self.new) }
        ensures now { self.new.now ≡ self.old.now }
    {
        if time > self.until {
            return Ok(());
        }
        self.wheel.as_mut().put(time, item)
    }

    /// Schedules the item that this number tells, as `schedule` does. If it has the next number, comes at or after all those before it,
    /// and nothing else waits, then no place is taken for it, and no more than its time is kept.
    pub fn schedule_numbered(&mut self, time: u32, number: u32) -> Result<(), NoMemory>
        requires { self.old.now ≤ time }
        ensures list { MatchResult result (λ _. self.new ≡ scheduled self.old time (T.numbered_of number)) (λ _. self.new ≡ self.old) }
        ensures due { OnOk result (Adds self.old time (T.numbered_of number) self.new) }
        ensures now { self.new.now ≡ self.old.now }
    {
        if time <= self.until && self.plan.takes(time, number) && self.wheel.as_ref().is_idle() {
            return self.plan.push(time);
        }
        self.schedule(time, T::numbered(number))
    }

    /// Takes out the first item with its time. None where there is no item, which changes nothing.
    pub fn next(&mut self) -> Option<Timed<T>>
        ensures first { MatchOption result (self.old.items ≡ []) (λ first. Comes self.old first self.new) }
        ensures none { IfNone result (self.new ≡ self.old) }
    {
        let until = self.until;
        let wheel = self.wheel.as_mut();
        let Some(time) = self.plan.first() else {
            if wheel.is_idle() {
                return None;
            }
            let now = wheel.at;
            let Some(item) = seek(wheel, until) else {
                wheel.rewind(now);
                return None;
            };
            return Some(Timed {
                time: wheel.at,
                item,
            });
        };
        if let Some(item) = seek_before(wheel, time) {
            return Some(Timed {
                time: wheel.at,
                item,
            });
        }
        let item = T::numbered(self.plan.pop());
        Some(Timed { time, item })
    }

    /// Cancels the items of a group: the others stay, in their order.
    pub fn cancel(&mut self, group: u16)
        requires { group < GROUPS }
        ensures { self.new ≡ record self.old { items = filter (is_other T.group_of group) self.old.items } }
    {
        self.wheel.as_mut().cancel(group);
    }
}

/// Turns the wheel to the first item by `until`, and takes it.
fn seek<T: Grouped>(wheel: &mut Wheel<T>, until: u32) -> Option<T>
    requires right { IsWheel T.group_of wheel.old }
    requires ahead { wheel.old.at ≤ until }
    requires below { until < 4194304 }
    ensures { Seeks T.group_of until wheel.old result wheel.new }
{
    let item = seek_before(wheel, until);
    if item.is_some() {
        return item;
    }
    wheel.take_first()
}

/// Turns the wheel to the first item that comes before `end`, and takes it; if none does, to `end`. It is inlined, so that an item isn't
/// moved.
#[inline(always)]
fn seek_before<T: Grouped>(wheel: &mut Wheel<T>, end: u32) -> Option<T>
    requires right { IsWheel T.group_of wheel.old }
    requires ahead { wheel.old.at ≤ end }
    requires below { end < 4194304 }
    ensures { SeeksBefore T.group_of end wheel.old result wheel.new }
{
    while wheel.at < end {
        let item = wheel.take_first();
        if item.is_some() {
            return item;
        }
        wheel.advance(end);
    }
    None
}
