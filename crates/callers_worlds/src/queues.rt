//! What waits for its time.

ghost use Rattle.std.specs.Prelude.{◌≡◌, IfOk, true};

use event_queue::{Queue, Timed};
use mate_num::NoMemory;
use radio_sim::{Cancel, SharedEvent};
use std::alloc::Global;

/// A slot whose order is turned when its block comes: of two events at a far time the one scheduled first comes first.
pub fn far_equals_keep_their_order(alloc: Global) -> Result<u32, NoMemory>
    ensures { IfOk result (λ line. line ≡ 1) }
{
    let mut queue: Queue<SharedEvent> = Queue::new(alloc, 5000)?;
    queue.schedule(4096, SharedEvent::Planned(1))?;
    queue.schedule(4096, SharedEvent::Planned(2))?;
    let Some(Timed { item, .. }) = queue.next() else {
        unreachable!()
    };
    let SharedEvent::Planned(line) = item else {
        unreachable!()
    };
    Ok(line)
}

/// A slot that takes items at its front would give the second one.
pub fn near_equals_keep_their_order(alloc: Global) -> Result<u32, NoMemory>
    ensures { IfOk result (λ line. line ≡ 1) }
{
    let mut queue: Queue<SharedEvent> = Queue::new(alloc, 5000)?;
    queue.schedule(5, SharedEvent::Planned(1))?;
    queue.schedule(5, SharedEvent::Planned(2))?;
    let Some(Timed { item, .. }) = queue.next() else {
        unreachable!()
    };
    let SharedEvent::Planned(line) = item else {
        unreachable!()
    };
    Ok(line)
}

/// A wheel that puts far items into another slot when their block comes would give another time.
pub fn a_far_event_comes_at_its_time(alloc: Global) -> Result<u32, NoMemory>
    ensures { IfOk result (λ time. time ≡ 4096) }
{
    let mut queue: Queue<SharedEvent> = Queue::new(alloc, 5000)?;
    queue.schedule(4096, SharedEvent::Planned(1))?;
    let Some(Timed { time, .. }) = queue.next() else {
        unreachable!()
    };
    Ok(time)
}

/// A queue that leaves its last time out, or a wheel that stops before the last slot, would give nothing.
pub fn the_last_time_comes(alloc: Global) -> Result<bool, NoMemory>
    ensures { IfOk result (λ comes. comes ≡ true) }
{
    let mut queue: Queue<SharedEvent> = Queue::new(alloc, 5000)?;
    queue.schedule(5000, SharedEvent::Planned(1))?;
    Ok(queue.next().is_some())
}

/// A cancel of another group would leave the event.
pub fn a_cancelled_event_is_gone(alloc: Global) -> Result<bool, NoMemory>
    ensures { IfOk result (λ gone. gone ≡ true) }
{
    let mut queue: Queue<SharedEvent> = Queue::new(alloc, 5000)?;
    queue.schedule(5, SharedEvent::Pump { node: 1 })?;
    queue.cancel(Cancel::Pump(1).number());
    Ok(queue.next().is_none())
}

/// A cancel of a neighbouring group would take the event.
pub fn another_nodes_event_stays(alloc: Global) -> Result<bool, NoMemory>
    ensures { IfOk result (λ comes. comes ≡ true) }
{
    let mut queue: Queue<SharedEvent> = Queue::new(alloc, 5000)?;
    queue.schedule(5, SharedEvent::Pump { node: 1 })?;
    queue.cancel(Cancel::Pump(0).number());
    Ok(queue.next().is_some())
}
