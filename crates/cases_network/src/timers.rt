//! Timers: the shortest interval, the doublings, k, the number of the generator, the node and the start, and then what
//! happens, each with its time: `c` is a consistent packet, `i` an inconsistent one, `r` a reset, `a` another start,
//! and `e` the end of the interval. `f` is the point with suppression and `F` the point without it. The answers are the
//! first interval, and for each step the interval that it begins, written `beginning+length@point`, what is done at the
//! point, or `-`. A step with `COUNT*` before it is taken COUNT times, and has one answer.

ghost use Rattle.std.specs.Prelude.{◌≤◌, IfSome, IsTrue};
ghost use Rattle.mate_num.specs.declared.bounds.TheConstants.{HOUR};
ghost use Rattle.vm_shape.specs.Limits.{is_trickle};

use mate_num::HOUR;
use std::alloc::{AllocError, Global};
use trickle_timer::{Fire, Trickle};
use vm_shape::TrickleSet;

pub fn answer(alloc: Global, case: &str) -> Result<String, AllocError> {
    let Some((head, steps)) = case.split_once(" : ") else {
        return "no steps".to_string(alloc);
    };
    let Some(mut timer) = started(head) else {
        return "no timer".to_string(alloc);
    };
    let mut line = interval_of(alloc, &timer)?;
    for step in steps.split(' ') {
        line.push_str(" ")?;
        line.push_str(repeated(alloc, &mut timer, step)?.as_str())?;
    }
    Ok(line)
}

/// The timer that a line begins with.
fn started(head: &str) -> Option<Trickle> {
    let mut words = head.split(' ');
    let imin = number(words.next());
    let doublings = number(words.next());
    let set = settings(imin, doublings, number(words.next()))?;
    let random = words.next()?.parse::<u64>().ok()?;
    let node = number(words.next());
    let now = number(words.next());
    if node >= 64 || now > HOUR {
        return None;
    }
    Some(Trickle::start(set, random, node as u8, now))
}

/// The number that a word spells; if it spells none, the largest of all, which is in no range.
fn number(word: Option<&str>) -> u32 {
    match word {
        Some(word) => word.parse::<u32>().unwrap_or(u32::MAX),
        None => u32::MAX,
    }
}

/// Settings in their ranges.
fn settings(imin: u32, doublings: u32, k: u32) -> Option<TrickleSet>
    ensures { IfSome result (λ set. IsTrue (is_trickle set)) }
{
    let even = imin % 2 == 0 && 2 <= imin && imin <= 60_000;
    if even && doublings <= 16 && 1 <= k && k < 256 && (imin << doublings) <= HOUR {
        return Some(TrickleSet {
            imin,
            doublings: doublings as u8,
            k: k as u8,
        });
    }
    None
}

/// The running interval.
fn interval_of(alloc: Global, timer: &Trickle) -> Result<String, AllocError> {
    format!(in alloc; "{}+{}@{}", timer.begin(), timer.length(), timer.point())
}

/// What the timer answers to a step: to the last one, if it is taken several times.
fn repeated(alloc: Global, timer: &mut Trickle, step: &str) -> Result<String, AllocError> {
    let (count, step) = step.split_once('*').unwrap_or(("1", step));
    let mut answer = String::new(alloc);
    for _ in 0..count.parse::<u32>().unwrap_or(0) {
        answer = taken(alloc, timer, step)?;
    }
    Ok(answer)
}

/// What the timer answers to one step.
fn taken(alloc: Global, timer: &mut Trickle, step: &str) -> Result<String, AllocError> {
    let (kind, digits) = step.split_at_checked(1).unwrap_or(("", ""));
    match kind {
        "f" => return fired(alloc, timer.fire(true)),
        "F" => return fired(alloc, timer.fire(false)),
        "e" => return ended(alloc, timer),
        _ => {}
    }
    let now = number(Some(digits));
    if now > HOUR {
        return "no time".to_string(alloc);
    }
    if now < timer.begin() {
        return "before the interval".to_string(alloc);
    }
    if begins(timer, kind, now) {
        interval_of(alloc, timer)
    } else {
        "-".to_string(alloc)
    }
}

fn fired(alloc: Global, fire: Fire) -> Result<String, AllocError> {
    match fire {
        Fire::Send => "send".to_string(alloc),
        Fire::Keep => "keep".to_string(alloc),
    }
}

fn ended(alloc: Global, timer: &mut Trickle) -> Result<String, AllocError> {
    let end = timer.begin() + timer.length();
    if end > HOUR {
        return "past the hour".to_string(alloc);
    }
    timer.expire(end);
    interval_of(alloc, timer)
}

/// Whether an interval begins.
fn begins(timer: &mut Trickle, kind: &str, now: u32) -> bool
    requires hour { now ≤ HOUR }
    requires within { timer.old.running.begin ≤ now }
{
    match kind {
        "c" => timer.hear(true, now),
        "i" => timer.hear(false, now),
        "r" => timer.reset(now),
        _ => {
            timer.again(now);
            true
        }
    }
}
