//! Numbered items that are planned ahead, in order of time.

ghost use Rattle.std.specs.Prelude.{◌≡◌, ◌<◌, ◌≤◌, ◌==◌, ◌&&◌, ℕ, [], length, nat_le, slice_get, IsTrue, MatchResult};
ghost use Rattle.event_queue.specs.Plan.{PlansLast, KeepsPlan, TakesPlanned};

use mate_num::NoMemory;
use std::alloc::Global;

/// The times of items that are numbered from 0, in order of time. Only the times are kept: a number tells the rest of its item.
#[derive(Drop)]
pub struct Plan {
    /// How many of them came: the number of the next one.
    pub next: usize,
    /// The time of the last one; 0 if there is none.
    pub last: u32,
    /// The times of all.
    pub times: Vec<u32>,
}

impl Plan {
    /// Nothing is planned. It takes no memory.
    pub fn new(alloc: Global) -> Plan
        ensures next { result.next ≡ 0 }
        ensures last { result.last ≡ 0 }
        ensures times { result.times.items ≡ [] }
    {
        Plan {
            next: 0,
            last: 0,
            times: Vec::new(alloc),
        }
    }

    /// The time of the next one, if one is to come.
    pub fn first(&self) -> Option<u32>
        ensures { result ≡ slice_get self.now.times.items self.now.next }
    {
        match self.times.as_slice().get(self.next) {
            Some(time) => Some(*time),
            None => None,
        }
    }

    /// Whether an item of this number goes behind the others at this time.
    pub fn takes(&self, time: u32, number: u32) -> bool
        ensures value { result ≡ (nat_le self.now.last time && (length self.now.times.items == number)) }
        ensures behind { IsTrue result → (self.now.last ≤ time) × (length self.now.times.items ≡ number) }
    {
        self.last <= time && self.times.len() == number as usize
    }

    /// Puts the next number behind the others, at a time. `NoMemory` leaves the plan as it was.
    pub fn push(&mut self, time: u32) -> Result<(), NoMemory>
        ensures { MatchResult result (λ _. PlansLast self.old time self.new) (λ _. KeepsPlan self.old self.new) }
    {
        self.times.push(time)?;
        self.last = time;
        Ok(())
    }

    /// The next one comes: its number.
    pub fn pop(&mut self) -> u32
        requires some { self.old.next < length self.old.times.items }
        requires few { length self.old.times.items ≤ 4294967296 }
        ensures number { result ≡ self.old.next }
        ensures takes { TakesPlanned self.old self.new }
    {
        let number = self.next as u32;
        self.next += 1;
        number
    }
}
