//! Many events. `COUNT STEP` schedules COUNT of them, number i from 1 at the time `i * STEP` modulo the world's end,
//! and takes all: the answer has how many came, the first and the last time, the sum of the times, whether they never
//! fell, and whether nothing came after them.

use crate::bench::Bench;
use mate_num::{HandlerId, NoMemory};
use radio_sim::Event;
use std::alloc::Global;

pub fn answer(alloc: Global, bench: &mut Bench, asked: &str) -> Result<String, NoMemory> {
    let (count, step) = asked.split_once(' ').unwrap_or((asked, ""));
    let (Ok(count), Ok(step)) = (count.parse::<u32>(), step.parse::<u32>()) else {
        return Ok("no numbers".to_string(alloc)?);
    };
    for number in 1..=count {
        schedule(bench, number, step)?;
    }
    taken(alloc, bench, count)
}

fn schedule(bench: &mut Bench, number: u32, step: u32) -> Result<(), NoMemory> {
    let until = u64::from(bench.world.until).max(1);
    let time = u64::from(number) * u64::from(step) % until;
    let Ok(time) = u32::try_from(time) else {
        return Ok(());
    };
    bench.schedule(
        time,
        Event::Period {
            node: 0,
            handler: HandlerId(0),
        },
    )?;
    Ok(())
}

/// Takes all events.
fn taken(alloc: Global, bench: &mut Bench, count: u32) -> Result<String, NoMemory> {
    let mut first = None;
    let mut last = 0;
    let mut came: u32 = 0;
    let mut sum: u64 = 0;
    let mut falls: u32 = 0;
    for _ in 0..count {
        let Some((time, _)) = bench.next() else {
            break;
        };
        first = first.or(Some(time));
        falls = falls.saturating_add(u32::from(time < last));
        last = time;
        came = came.saturating_add(1);
        sum = sum.saturating_add(u64::from(time));
    }
    let first = first.unwrap_or(0);
    let rest = if bench.next().is_none() {
        "none"
    } else {
        "more"
    };
    Ok(format!(in alloc; "{came} {first} {last} {sum} {falls} {rest}")?)
}
