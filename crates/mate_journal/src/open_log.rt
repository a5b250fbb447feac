//! The log.

ghost use Rattle.std.specs.Prelude.{◌≡◌, ◌≤◌, ◌<◌, ◌+◌, ◌∷◌, ◌++◌, [], length, OnOk};
ghost use Rattle.mate_journal.specs.Log.{IsSameLog, IsEmpty};
ghost use Rattle.mate_journal.specs.declared.entry.Entry.TheVariants as told;
ghost use Rattle.mate_journal.specs.OpenLog.{nothing_gone, gone_of, NamesNothing, IsKept};

use crate::past::Past;
use crate::{NodeLog, Stamped};
use mate_num::{HandlerId, Image, NoMemory, Stamp, Store};
use std::alloc::Global;
use std::marker::Model;

/// What happened on one node, in order. After a `reserve` it is written without memory. Contracts see all of it; in memory are
/// the entries since the last `forget`.
#[derive(Drop)]
pub struct OpenLog {
    past: Past,
    // how many entries are gone
    gone: usize,
    kept: NodeLog,
}

impl Model for OpenLog {
    ghost use Rattle.std.specs.Prelude.{◌≡◌, ◌<◌, length};
    ghost use Rattle.mate_journal.specs.OpenLog.{OpenView, joined, gone_of, IsKeptWithEntries};

    ghost Value = { OpenView };

    ghost view = { λ l. record { all = joined l.past.log l.kept; gone = gone_of l.past.log } };

    ghost invariant = { λ l. (l.gone ≡ length l.past.log.entries) × (l.gone < 4000000000) × IsKeptWithEntries l.kept };
}

impl OpenLog {
    /// The empty log. It takes no memory.
    pub fn new(alloc: Global) -> OpenLog
        ensures empty { IsEmpty result.all }
        ensures gone { result.gone ≡ nothing_gone }
    {
        OpenLog {
            past: Past::new(),
            gone: 0,
            kept: NodeLog::new(alloc),
        }
    }

    /// How many entries were recorded.
    pub fn told(&self) -> usize
        ensures { result ≡ length self.now.all.entries }
    {
        self.gone + self.kept.entries().len()
    }

    /// How many more entries, of whatever kind, it takes without memory.
    pub fn spare(&self) -> usize
        ensures { result ≡ self.now.all.spare }
    {
        self.kept.spare()
    }

    /// Makes room for n more entries of whatever kind. `NoMemory` leaves the log as it was, but for its room.
    pub fn reserve(&mut self, n: usize) -> Result<(), NoMemory>
        ensures same { IsSameLog self.new.all self.old.all }
        ensures gone { self.new.gone ≡ self.old.gone }
        ensures kept { self.old.all.spare ≤ self.new.all.spare }
        ensures room { OnOk result (n ≤ self.new.all.spare) }
    {
        self.kept.reserve(n)
    }

    /// Appends an entry that names neither an image nor a store.
    pub fn push(&mut self, stamped: Stamped)
        requires room { 1 ≤ self.old.all.spare }
        requires names { NamesNothing stamped.entry }
        ensures entries { self.new.all.entries ≡ self.old.all.entries ++ stamped ∷ [] }
        ensures images { self.new.all.images ≡ self.old.all.images }
        ensures stores { self.new.all.stores ≡ self.old.all.stores }
        ensures spare { self.old.all.spare ≤ self.new.all.spare + 1 }
        ensures gone { self.new.gone ≡ self.old.gone }
    {
        self.kept.push(stamped);
    }

    /// Appends a store and the entry that shows it.
    pub fn push_seen(&mut self, at: Stamp, store: Store)
        requires room { 1 ≤ self.old.all.spare }
        requires count { length self.old.all.stores < 4100000000 }
        ensures entries { self.new.all.entries ≡ self.old.all.entries
            ++ record { stamp = at; entry = told.Seen (length self.old.all.stores) } ∷ [] }
        ensures images { self.new.all.images ≡ self.old.all.images }
        ensures stores { self.new.all.stores ≡ self.old.all.stores ++ store ∷ [] }
        ensures spare { self.old.all.spare ≤ self.new.all.spare + 1 }
        ensures gone { self.new.gone ≡ self.old.gone }
    {
        self.kept.push_seen(at, store);
    }

    /// Appends a copy of an image and the entry that installs it.
    pub fn push_install(&mut self, at: Stamp, handler: HandlerId, version: u32, image: &Image)
        requires room { 1 ≤ self.old.all.spare }
        requires count { length self.old.all.images < 4100000000 }
        ensures entries { self.new.all.entries ≡ self.old.all.entries
            ++ record { stamp = at; entry = told.Install handler version (length self.old.all.images) } ∷ [] }
        ensures images { self.new.all.images ≡ self.old.all.images ++ image.now ∷ [] }
        ensures stores { self.new.all.stores ≡ self.old.all.stores }
        ensures spare { self.old.all.spare ≤ self.new.all.spare + 1 }
        ensures gone { self.new.gone ≡ self.old.gone }
    {
        self.kept.push_install(at, handler, version, image);
    }

    /// Forgets all entries so far: their memory is free for those that come.
    pub fn forget(&mut self)
        requires { length self.old.all.entries < 4000000000 }
        ensures same { IsSameLog self.new.all self.old.all }
        ensures gone { self.new.gone ≡ gone_of self.old.all }
        ensures room { self.old.all.spare ≤ self.new.all.spare }
    {
        let entries = self.kept.entries().len();
        if entries == 0 {
            return;
        }
        self.gone += entries;
        self.past = Past::with(&self.past, &self.kept);
        self.kept.cut(0, 0, 0);
    }

    /// If all was forgotten: takes the room of another empty log, and leaves that one its own. So one room serves many logs
    /// that are written in turn.
    pub fn trade(&mut self, room: &mut NodeLog)
        requires gone { self.old.gone ≡ gone_of self.old.all }
        requires empty { IsEmpty room.old }
        ensures same { self.new ≡ record self.old { all = record self.old.all { spare = room.old.spare } } }
        ensures empty { IsEmpty room.new }
        ensures room { room.new.spare ≡ self.old.all.spare }
    {
        self.kept.trade(room);
    }

    /// The entries since the last `forget`.
    pub fn kept(&self) -> &NodeLog
        ensures { IsKept self.now result.now }
    {
        &self.kept
    }

    /// All entries, if nothing was forgotten.
    pub fn whole(&self) -> &NodeLog
        requires { self.now.gone ≡ nothing_gone }
        ensures { result.now ≡ self.now.all }
    {
        &self.kept
    }

    /// The same, handed out.
    pub fn into_whole(self) -> NodeLog
        requires { self.gone ≡ nothing_gone }
        ensures { result ≡ self.all }
    {
        let OpenLog {
            past: _,
            gone: _,
            kept,
        } = self;
        kept
    }
}
