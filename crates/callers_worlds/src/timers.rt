//! Trickle timers.

ghost use Rattle.std.specs.Prelude.{◌≡◌, ◌≤◌, false};
ghost use Rattle.trickle_timer.specs.declared.timer.Fire.TheVariants.{Send, Keep};

use trickle_timer::{Fire, Trickle};
use vm_shape::TrickleSet;

/// A timer that is silent after two consistent packets or more, with intervals of 100 to 400 ms, in the interval that
/// begins at 0.
fn a_timer() -> Trickle
    ensures set { result.set ≡ record { imin = 100; doublings = 2; k = 2 } }
    ensures begin { result.running.begin ≡ 0 }
    ensures length { result.running.length ≡ 100 }
    ensures heard { result.running.heard ≡ 0 }
{
    let set = TrickleSet {
        imin: 100,
        doublings: 2,
        k: 2,
    };
    Trickle::start(set, 7, 3, 0)
}

pub fn a_node_sends_without_suppression(timer: &mut Trickle) -> Fire
    ensures { result ≡ Send }
{
    timer.fire(false)
}

pub fn k_packets_keep_a_node_silent() -> Fire
    ensures { result ≡ Keep }
{
    let mut timer = a_timer();
    timer.hear(true, 10);
    timer.hear(true, 20);
    timer.fire(true)
}

pub fn one_less_than_k_does_not() -> Fire
    ensures { result ≡ Send }
{
    let mut timer = a_timer();
    timer.hear(true, 10);
    timer.fire(true)
}

pub fn an_interval_doubles() -> u32
    ensures { result ≡ 200 }
{
    let mut timer = a_timer();
    timer.expire(100);
    timer.length()
}

pub fn the_longest_interval_stays() -> u32
    ensures { result ≡ 400 }
{
    let mut timer = a_timer();
    timer.expire(100);
    timer.expire(300);
    timer.expire(700);
    timer.length()
}

pub fn the_shortest_interval_is_not_begun_again() -> bool
    ensures { result ≡ false }
{
    let mut timer = a_timer();
    timer.reset(10)
}

pub fn a_point_lies_in_the_second_half() -> u32
    ensures { 50 ≤ result }
{
    a_timer().point()
}
