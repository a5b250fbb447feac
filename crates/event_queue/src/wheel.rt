//! Items by their times, on a wheel of two levels. The near level has a slot for each ms of the block of 2,048 ms in which
//! the wheel stands, and the far level one for each block to come. A far slot is spread over the near ones when its block
//! comes. Slots are lists of places, so that memory is taken only where more items wait than ever before.

ghost use Rattle.std.specs.Prelude.{◌≡◌, ◌≢◌, ◌+◌, ◌/◌, ◌%◌, ◌<◌, ◌≤◌, ℕ, [], true, length, map, IfSome, IfNone, IsTrue, MatchResult, OnOk, IfOk};
ghost use Rattle.event_queue.specs.declared.group.TheConstants.{GROUPS};
ghost use Rattle.event_queue.specs.Links.{list_at};
ghost use Rattle.event_queue.specs.Wheel.{is_current, live_item, list_for, IsPast, wheel_due, near, far, IsWheel, IsTurning, PutsLast, KeepsView, TakesFirst, Turns, Cancels, cleared, cleared_item};

use crate::chains::Chains;
use crate::group::{GROUPS, Grouped};
use crate::marks::Marks;
use mate_num::NoMemory;
use std::alloc::Global;

/// How many slots a level has, and how many ms a block.
const SLOTS: u32 = 2048;

/// The list of the places at which nothing waits.
const FREE: usize = 0;

/// All lists: the free places, the near slots and the far ones.
const LISTS: usize = 4097;

/// What waits at a place, if anything. It was cancelled where its group now has another generation.
#[derive(Drop)]
pub struct Entry<T: Grouped> {
    pub time: u32,
    pub generation: u32,
    pub item: Option<T>,
}

/// A wheel that stands at a time: all before it came.
#[derive(Drop)]
pub struct Wheel<T: Grouped> {
    pub at: u32,
    pub chains: Chains,
    pub entries: Vec<Entry<T>>,
    /// How often each group was cancelled.
    pub generations: [u32; GROUPS],
    /// The near slots where something may wait.
    pub marks: Marks,
}

/// The list of the near slot of a time.
fn near_list(time: u32) -> usize
    ensures value { result ≡ near time }
    ensures within { result < 2049 }
{
    1 + (time % SLOTS) as usize
}

/// The list of the far slot of a time.
fn far_list(time: u32) -> usize
    requires { time < 4194304 }
    ensures value { result ≡ far time }
    ensures within { result < 4097 }
{
    2049 + (time / SLOTS) as usize
}

/// The list in which an item of a time waits, on a wheel that stands at another.
fn list_for(at: u32, time: u32) -> usize
    requires { time < 4194304 }
    ensures value { result ≡ list_for at time }
    ensures within { result < 4097 }
    ensures used { 0 < result }
{
    if time / SLOTS == at / SLOTS {
        near_list(time)
    } else {
        far_list(time)
    }
}

/// The generation of an item of a group that comes now.
fn generation_of(generations: &[u32; GROUPS], group: Option<u16>) -> u32
    requires { IfSome group (λ g. g < GROUPS) }
    ensures current { is_current generations.now group result ≡ true }
    ensures past { IsPast generations.now result group }
{
    match group {
        None => 0,
        Some(group) => generations[group as usize],
    }
}

/// Whether an item of this group and generation was not cancelled.
fn is_current(generations: &[u32; GROUPS], group: Option<u16>, generation: u32) -> bool
    requires { IfSome group (λ g. g < GROUPS) }
    ensures { result ≡ is_current generations.now group generation }
{
    match group {
        None => true,
        Some(group) => generations[group as usize] == generation,
    }
}

/// The item that waited at a place, unless it was cancelled.
fn live<T: Grouped>(generations: &[u32; GROUPS], generation: u32, item: Option<T>) -> Option<T>
    ensures { result ≡ live_item T.group_of generations.now generation item }
{
    let item = item?;
    if is_current(generations, item.group(), generation) {
        Some(item)
    } else {
        None
    }
}

impl<T: Grouped> Wheel<T> {
    /// A wheel at time 0, on which nothing waits.
    pub fn new(alloc: Global) -> Result<Wheel<T>, NoMemory>
        ensures right { IfOk result (λ w. IsWheel T.group_of w) }
        ensures at { IfOk result (λ w. w.at ≡ 0) }
        ensures none { IfOk result (λ w. (t : ℕ) → wheel_due T.group_of w t ≡ []) }
    {
        let chains = Chains::new(alloc, LISTS)?;
        Ok(Wheel {
            at: 0,
            chains,
            entries: Vec::new(alloc),
            generations: [0; GROUPS],
            marks: Marks::new(),
        })
    }

    /// Makes sure that there is an entry for a further place.
    fn add_entry(&mut self) -> Result<(), NoMemory>
        requires { IsWheel T.group_of self.old }
        ensures keeps { KeepsView T.group_of self.old self.new }
        ensures same { self.new.generations ≡ self.old.generations }
        ensures chains { self.new.chains ≡ self.old.chains }
        ensures room { OnOk result (self.new.chains.total < length self.new.entries.items) }
    {
        if self.entries.len() > self.chains.total() {
            return Ok(());
        }
        self.entries.push(Entry {
            time: 0,
            generation: 0,
            item: None,
        })?;
        Ok(())
    }

    /// Makes sure that there is a free place.
    fn reserve(&mut self) -> Result<(), NoMemory>
        requires { IsWheel T.group_of self.old }
        ensures keeps { KeepsView T.group_of self.old self.new }
        ensures same { self.new.generations ≡ self.old.generations }
        ensures free { OnOk result (list_at self.new.chains 0 ≢ []) }
    {
        if self.chains.first(FREE).is_some() {
            return Ok(());
        }
        self.add_entry()?;
        self.chains.grow(FREE)?;
        Ok(())
    }

    /// Puts an item last at a time that hasn't passed, where there is a free place.
    fn put_free(&mut self, time: u32, item: T)
        requires right { IsWheel T.group_of self.old }
        requires free { list_at self.old.chains 0 ≢ [] }
        requires ahead { self.old.at ≤ time }
        requires below { time < 4194304 }
        ensures { PutsLast T.group_of self.old time item self.new }
    {
        let generation = generation_of(&self.generations, item.group());
        let list = list_for(self.at, time);
        let place = self.chains.move_first(FREE, list);
        self.marks.set_list(list);
        self.entries[place as usize] = Entry {
            time,
            generation,
            item: Some(item),
        };
    }

    /// Puts an item last at a time that hasn't passed.
    pub fn put(&mut self, time: u32, item: T) -> Result<(), NoMemory>
        requires right { IsWheel T.group_of self.old }
        requires ahead { self.old.at ≤ time }
        requires below { time < 4194304 }
        ensures { MatchResult result (λ _. PutsLast T.group_of self.old time item self.new) (λ _. KeepsView T.group_of self.old self.new) }
    {
        self.reserve()?;
        self.put_free(time, item);
        Ok(())
    }

    /// Empties the first place of the time at which the wheel stands.
    fn pop(&mut self) -> Option<T>
        requires right { IsWheel T.group_of self.old }
        requires some { list_at self.old.chains (near self.old.at) ≢ [] }
        ensures takes { TakesFirst T.group_of self.old result self.new }
        ensures fewer { length (list_at self.new.chains (near self.old.at)) < length (list_at self.old.chains (near self.old.at)) }
    {
        let place = self.chains.move_first(near_list(self.at), FREE);
        let entry = &mut self.entries[place as usize];
        let generation = entry.generation;
        let item = entry.item.take();
        live(&self.generations, generation, item)
    }

    /// Whether no place is taken, not even by something cancelled. Nothing waits then.
    pub fn is_idle(&self) -> bool
        requires { IsWheel T.group_of self.now }
        ensures { IsTrue result → (t : ℕ) → wheel_due T.group_of self.now t ≡ [] }
    {
        self.chains.has_all(FREE)
    }

    /// Takes the first item of the time at which the wheel stands. It is inlined, so that the item isn't moved.
    #[inline(always)]
    pub fn take_first(&mut self) -> Option<T>
        requires { IsWheel T.group_of self.old }
        ensures takes { TakesFirst T.group_of self.old result self.new }
        ensures none { IfNone result (wheel_due T.group_of self.old self.old.at ≡ []) }
    {
        while self.chains.first(near_list(self.at)).is_some() {
            let item = self.pop();
            if item.is_some() {
                return item;
            }
        }
        self.marks.clear(self.at % SLOTS);
        None
    }

    /// Goes on to the next time at which something may be due, at most `until`, where nothing is due at the time at which
    /// the wheel stands.
    pub fn advance(&mut self, until: u32)
        requires right { IsWheel T.group_of self.old }
        requires done { wheel_due T.group_of self.old self.old.at ≡ [] }
        requires ahead { self.old.at < until }
        requires below { until < 4194304 }
        ensures turns { Turns T.group_of self.old self.new.at self.new }
        ensures on { self.old.at < self.new.at }
        ensures within { self.new.at ≤ until }
    {
        let slot = self.at % SLOTS;
        let next = self.at - slot + self.marks.next(slot);
        if next > until {
            self.at = until;
            return;
        }
        self.at = next;
        if next % SLOTS == 0 {
            self.spread();
        }
    }

    /// Moves what waits in the far slot of the time at which the wheel stands to the near slots.
    fn spread(&mut self)
        requires { IsTurning T.group_of self.old }
        ensures { Turns T.group_of self.old self.old.at self.new }
    {
        let from = far_list(self.at);
        while let Some(place) = self.chains.first(from) {
            let to = near_list(self.entries[place as usize].time);
            self.chains.move_first(from, to);
            self.marks.set_list(to);
        }
    }

    /// Goes back to a time, where nothing waits at all.
    pub fn rewind(&mut self, at: u32)
        requires right { IsWheel T.group_of self.old }
        requires none { (t : ℕ) → wheel_due T.group_of self.old t ≡ [] }
        requires back { at ≤ self.old.at }
        ensures { Turns T.group_of self.old at self.new }
    {
        self.at = at;
    }

    /// Cancels the items of a group: those that come later are of the next generation.
    pub fn cancel(&mut self, group: u16)
        requires right { IsWheel T.group_of self.old }
        requires below { group < GROUPS }
        ensures { Cancels T.group_of self.old group self.new }
    {
        let generation = self.generations[group as usize];
        if generation == u32::MAX {
            clear(&mut self.entries, group);
            self.generations[group as usize] = 0;
        } else {
            self.generations[group as usize] = generation + 1;
        }
    }
}

/// The item, unless it is of the group.
fn without<T: Grouped>(item: Option<T>, group: u16) -> Option<T>
    ensures { result ≡ cleared_item T.group_of group item }
{
    let item = item?;
    if item.group() == Some(group) {
        None
    } else {
        Some(item)
    }
}

/// Clears the items of a group, so that its generations can begin anew.
fn clear<T: Grouped>(entries: &mut Vec<Entry<T>>, group: u16)
    ensures { entries.new.items ≡ map (cleared T.group_of group) entries.old.items }
{
    for entry in entries.iter_mut() {
        entry.item = without(entry.item.take(), group);
    }
}
