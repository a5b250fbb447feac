//! A Trickle timer, from its start to the end of an interval.

ghost use Rattle.std.specs.Prelude.{◌≡◌, ◌+◌, ◌<◌, ◌≤◌, IsTrue};
ghost use Rattle.mate_num.specs.declared.bounds.TheConstants.{HOUR, NODES_MAX};
ghost use Rattle.vm_shape.specs.Limits.{is_trickle};

use trickle_timer::{Fire, Trickle};
use vm_desc::TrickleSet;

/// A timer that starts at 0, and what it does at its first point.
pub fn a_timer(set: TrickleSet, random: u64, node: u8) -> (Trickle, bool)
    requires settings { IsTrue (is_trickle set) }
    requires node { node < NODES_MAX }
{
    let mut timer = Trickle::start(set, random, node, 0);
    let _point: u32 = timer.point();
    let sends = match timer.fire(true) {
        Fire::Send => true,
        Fire::Keep => false,
    };
    (timer, sends)
}

/// A packet is received. True if an interval began.
pub fn heard(timer: &mut Trickle, consistent: bool, now: u32) -> bool
    requires hour { now ≤ HOUR }
    requires within { timer.old.running.begin ≤ now }
{
    timer.hear(consistent, now)
}

/// Intervals begin anew: where the running one isn't the shortest, or in any case.
pub fn begun_anew(timer: &mut Trickle, now: u32, surely: bool)
    requires hour { now ≤ HOUR }
    requires within { timer.old.running.begin ≤ now }
{
    if surely {
        timer.again(now);
    } else {
        let _began: bool = timer.reset(now);
    }
}

/// The running interval ends.
pub fn ended(timer: &mut Trickle, now: u32)
    requires hour { now ≤ HOUR }
    requires end { now ≡ timer.old.running.begin + timer.old.running.length }
{
    timer.expire(now);
}

/// The running interval: when it began, in ms, and its length.
pub fn interval_of(timer: &Trickle) -> (u32, u32) {
    (timer.begin(), timer.length())
}
