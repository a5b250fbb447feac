//! One node's timer: the interval that runs, its point, and what was received in it.

ghost use Rattle.std.specs.Prelude.{◌≡◌, ◌+◌, ◌/◌, ◌%◌, ◌^◌, ◌<◌, ◌≤◌, ◌&&◌, [], List, not, nat_lt, nat_le, IsTrue, if◌then◌else◌};
ghost use Rattle.mate_num.specs.declared.bounds.TheConstants.{HOUR, NODES_MAX};
ghost use Rattle.rand_pcg.specs.Pcg.{pcg32};
ghost use Rattle.vm_shape.specs.Limits.{is_trickle, longest};
ghost use Rattle.trickle_timer.specs.Intervals.{Reset, Again, Expired};

use rand_core::utils::NextWord;
use rand_pcg::Lcg64Xsh32;
use std::marker::Model;
use vm_shape::TrickleSet;

/// What a node does at the point of its interval.
#[derive(Clone, Copy)]
pub enum Fire {
    /// It sends the versions that it holds.
    Send,
    /// It is silent, since it received at least k consistent packets in the interval.
    Keep,
}

/// A running timer. Times are in ms, up to an hour. The steps that are named below are those of RFC 6206, section 4.2.
#[derive(Drop)]
pub struct Trickle {
    set: TrickleSet,
    words: Lcg64Xsh32,
    begin: u32,
    length: u32,
    point: u32,
    heard: u16,
}

impl Model for Trickle {
    ghost use Rattle.trickle_timer.specs.Timer.{Timer, IsRightTimer};

    ghost Value = { Timer };

    ghost use Rattle.trickle_timer.specs.Fields.{timer_of};

    ghost view = { timer_of };

    ghost invariant = { λ t. IsRightTimer (timer_of t) };
}

/// Draws the point of an interval of this length, in ms, that begins now (step 2 of RFC 6206, section 4.2).
fn draw(words: &mut Lcg64Xsh32, length: u32, now: u32) -> u32
    requires two { 2 ≤ length }
    requires room { now + length < 2 ^ 32 }
    ensures value { result ≡ now + (length / 2 + (pcg32 words.old).0 % (length / 2)) }
    ensures rest { words.new ≡ (pcg32 words.old).1 }
{
    let half = length / 2;
    now + (half + words.next_word() % half)
}

impl Trickle {
    ghost use Rattle.trickle_timer.specs.Intervals.{Start};
    ghost use Rattle.trickle_timer.specs.Timer.{after_happening, begun_timer, started_timer, packet_event, TimerContinues, IsTimerOf, IsRightTimer, Decides};

    /// The timer of a node: its first interval begins at `now`, with the shortest length. Each interval takes the
    /// next word of the generator that begins at `random`, in the stream `2 * node`.
    pub fn start(set: TrickleSet, random: u64, node: u8, now: u32) -> Trickle
        requires settings { IsTrue (is_trickle set) }
        requires node { node < NODES_MAX }
        requires hour { now ≤ HOUR }
        ensures first { result ≡ started_timer (record { set = set; random = random; node = node; time = now }) }
        ensures stands { IsTimerOf (record { set = set; random = random; node = node; time = now }) [] result }
    {
        let mut words = Lcg64Xsh32::new(random, 2 * u64::from(node));
        let point = draw(&mut words, set.imin, now);
        Trickle {
            set,
            words,
            begin: now,
            length: set.imin,
            point,
            heard: 0,
        }
    }

    /// A packet is received. A consistent one is counted, up to 65,535. Any other begins an interval of the shortest
    /// length, unless the running one has that length (steps 3 and 6). True exactly if an interval begins.
    pub fn hear(&mut self, consistent: bool, now: u32) -> bool
        requires hour { now ≤ HOUR }
        requires within { self.old.running.begin ≤ now }
        ensures begun { result ≡ (not consistent && nat_lt self.old.set.imin self.old.running.length) }
        ensures next { TimerContinues self.old self.new (record { event = packet_event consistent; time = now }) }
    {
        if consistent {
            self.heard = self.heard.saturating_add(1);
            false
        } else {
            self.reset(now)
        }
    }

    /// Begins an interval of the shortest length, unless the running one has that length. True exactly if one begins.
    pub fn reset(&mut self, now: u32) -> bool
        requires hour { now ≤ HOUR }
        requires within { self.old.running.begin ≤ now }
        ensures begun { result ≡ nat_lt self.old.set.imin self.old.running.length }
        ensures next { TimerContinues self.old self.new (record { event = Reset; time = now }) }
    {
        if self.length > self.set.imin {
            self.again(now);
            true
        } else {
            false
        }
    }

    /// What the node does at the point: it is silent exactly if `suppress` is true and at least k packets were
    /// counted in the interval (step 4).
    pub fn fire(&mut self, suppress: bool) -> Fire
        ensures rule { Decides self.old suppress result }
        ensures same { self.new ≡ self.old }
    {
        if suppress && self.heard >= u16::from(self.set.k) {
            Fire::Keep
        } else {
            Fire::Send
        }
    }

    /// The interval ends; one twice as long begins, or one of the longest length if that is shorter (step 5).
    pub fn expire(&mut self, now: u32)
        requires hour { now ≤ HOUR }
        requires end { now ≡ self.old.running.begin + self.old.running.length }
        ensures next { TimerContinues self.old self.new (record { event = Expired; time = now }) }
    {
        let longest = self.set.longest();
        self.begin_with((2 * self.length).min(longest), now);
    }

    /// Begins an interval of the shortest length.
    pub fn again(&mut self, now: u32)
        requires hour { now ≤ HOUR }
        requires within { self.old.running.begin ≤ now }
        ensures next { TimerContinues self.old self.new (record { event = Again; time = now }) }
    {
        self.begin_with(self.set.imin, now);
    }

    /// When the running interval began, in ms.
    pub fn begin(&self) -> u32
        ensures value { result ≡ self.now.running.begin }
        ensures right { IsRightTimer self.now }
    {
        self.begin
    }

    /// The length of the running interval, in ms: it ends that long after its beginning.
    pub fn length(&self) -> u32
        ensures value { result ≡ self.now.running.length }
        ensures right { IsRightTimer self.now }
    {
        self.length
    }

    /// The time in ms at which the node sends or is silent, in the second half of the running interval.
    pub fn point(&self) -> u32
        ensures value { result ≡ self.now.running.point }
        ensures right { IsRightTimer self.now }
    {
        self.point
    }

    /// Begins an interval of this length.
    fn begin_with(&mut self, length: u32, now: u32)
        requires hour { now ≤ HOUR }
        requires least { self.old.set.imin ≤ length }
        requires most { length ≤ longest self.old.set }
        ensures { self.new ≡ begun_timer self.old.set self.old.words length now }
    {
        self.point = draw(&mut self.words, length, now);
        self.begin = now;
        self.length = length;
        self.heard = 0;
    }
}
