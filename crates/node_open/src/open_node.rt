//! A node whose log can be forgotten in part: its heap and contexts, what is installed for its handlers, and its log.

ghost use Rattle.std.specs.Prelude.{◌≡◌, ◌<◌, ◌≤◌, ◌+◌, ◌*◌, [], length, All, MatchBool, MatchOption, MatchResult, IfOk, OnOk};
ghost use Rattle.mate_num.specs.declared.bounds.TheConstants.{CODE_MAX, CONTEXTS_MAX};
ghost use Rattle.mate_journal.specs.Log.{IsEmpty};
ghost use Rattle.mate_journal.specs.Journal.{held as held_version};
ghost use Rattle.mate_journal.specs.Pace.{Pace, no_pace};
ghost use Rattle.mate_journal.specs.NodeScript.{IsReadyIn};
ghost use Rattle.journal_laws.specs.Progress.{IsSomeReady};
ghost use Rattle.node_state.specs.Meaning.{machine_in};
ghost use Rattle.node_state.specs.Keeps.{IsTimely};
ghost use Rattle.node_state.specs.Starting.{Rests};
ghost use Rattle.node_calls.specs.Pacing.{SettlesWithin};
ghost use Rattle.node_calls.specs.Calls.{NobodyWaits};
ghost use Rattle.mate_journal.specs.OpenLog.{nothing_gone, gone_of, IsKept};
ghost use Rattle.mate_journal.specs.Entries.{IsEntryInRange};
ghost use Rattle.mate_journal.specs.declared.entry.Stamped.{Stamped as Entered};
ghost use Rattle.node_open.specs.Journal.{KeepsJournal};
ghost use Rattle.node_open.specs.Start.{AreNewParts};
ghost use Rattle.node_open.specs.declared.open_node.TheConstants.{SETTLING_ENTRIES, TURN_ENTRIES};

use crate::shared_machine::SharedMachine;
use crate::standing::{Asked, NotReady, Standing};
use journal_laws::asks_devices_in_order;
use mate_journal::{NodeLog, OpenLog, Stamped};
use mate_num::{CONTEXTS_MAX, ContextId, HandlerId, Image, NoMemory, Stamp};
use node_calls::{settle, take_turn};
use node_heap::Heap;
use node_state::{Contexts, Handlers, Parts};
use std::alloc::Global;
use std::marker::Model;
use vm_shape::Description;

/// The most entries that one turn makes: its invocation asks or ends, and then one invocation may start in each of the
/// other contexts.
pub const TURN_ENTRIES: usize = CONTEXTS_MAX;

/// The most entries that are made until no invocation is ready: in each context one starts, and then asks or ends.
pub const SETTLING_ENTRIES: usize = 2 * CONTEXTS_MAX;

/// A node whose entries can be forgotten. Contracts see the node with its whole log, and how much of it is gone. After a
/// `reserve`, and for an `install` a `make_places`, its calls take no memory.
///
/// Each call that takes a stamp has the conditions that neither the event nor the time of the stamp is below those of the
/// last entry, that the time is the last entry's if the event is, and that there is room for the entries.
pub struct OpenNode {
    pub(crate) machine: SharedMachine,
    pub(crate) parts: Parts,
}

impl Drop for OpenNode {
    fn drop(self) {
        let OpenNode {
            machine: _machine,
            parts: _parts,
        } = self;
    }
}

impl Model for OpenNode {
    ghost use Rattle.node_open.specs.View.{NodeView};

    ghost Value = { NodeView };

    ghost use Rattle.node_open.specs.Inside.{view_of, IsResting};

    ghost view = { view_of };

    ghost invariant = { IsResting };
}

/// What holds of the log of a node that rests.
fn keeps_journal(description: &Description, parts: &Parts)
    requires { Rests description.now parts.now }
    ensures { KeepsJournal description.now (machine_in description.now) parts.now.log.all }
{
    let _description = description;
    let _parts = parts;
    asks_devices_in_order();
}

/// The parts of a node at its start.
fn new_parts(alloc: Global, description: &Description) -> Result<Parts, NoMemory>
    ensures { IfOk result (AreNewParts description.now) }
{
    Ok(Parts {
        heap: Heap::new(
            description.shared.len() as u8,
            description.buffers.len() as u8,
        ),
        contexts: Contexts::new(alloc, usize::from(description.contexts()))?,
        handlers: Handlers::new(alloc, description.handlers.len())?,
        posts: 0,
        log: OpenLog::new(alloc),
    })
}

impl OpenNode {
    ghost use Rattle.node_open.specs.View.{heard_of, HasPace, HasPlaces, Tells, IsSameNode};
    ghost use Rattle.node_open.specs.Calls.{HasStepped, IsNoneReady, StandsAs, IsAsked, IsImageOf, TellFrom};

    /// A node of this machine. Nothing is installed, all variables are 0, all buffers are empty, and no entry was made. It has no
    /// places for programs of its own.
    pub fn new(alloc: Global, description: &Description) -> Result<OpenNode, NoMemory>
        ensures { IfOk result (λ made. (made.description ≡ description.now) × IsEmpty made.log × HasPace made no_pace
            × (made.gone ≡ nothing_gone)) }
    {
        OpenNode::on(alloc, SharedMachine::new(alloc, description)?)
    }

    /// Such a node of a machine that nodes share.
    pub fn on(alloc: Global, machine: SharedMachine) -> Result<OpenNode, NoMemory>
        ensures { IfOk result (λ made. (made.description ≡ machine) × IsEmpty made.log × HasPace made no_pace
            × (made.gone ≡ nothing_gone)) }
    {
        let parts = new_parts(alloc, machine.description())?;
        Ok(OpenNode { machine, parts })
    }

    /// Makes room for n more entries. `NoMemory` leaves all of the node but its room as it was.
    pub fn reserve(&mut self, n: usize) -> Result<(), NoMemory>
        ensures same { IsSameNode self.old self.new }
        ensures pace { (p : Pace) → HasPace self.old p → HasPace self.new p }
        ensures room { OnOk result (n ≤ self.new.log.spare) }
    {
        self.parts.log.reserve(n)
    }

    /// Makes a place for a program of the node's own for each handler, 7.5 KB each, where there is none. `NoMemory` leaves all of the
    /// node but its places as it was.
    pub fn make_places(&mut self) -> Result<(), NoMemory>
        ensures same { self.new ≡ record self.old { places = self.new.places } }
        ensures pace { (p : Pace) → HasPace self.old p → HasPace self.new p }
        ensures places { OnOk result (HasPlaces self.new) }
        ensures more { self.old.places ≤ self.new.places }
    {
        self.parts.handlers.make_room()
    }

    /// How many more entries, of whatever kind, it can make without memory.
    pub fn spare(&self) -> usize
        ensures { result ≡ self.now.log.spare }
    {
        self.parts.log.spare()
    }

    /// The invocation in the context executes n instructions, or fewer if it calls a function or ends before. Answers how
    /// many. `NotReady` comes exactly if no ready invocation is in the context, and leaves the node as it was.
    pub fn step(&mut self, ctx: ContextId, n: u32, at: Stamp) -> Result<u32, NotReady>
        requires context { ctx.0 < CONTEXTS_MAX }
        requires some { 0 < n }
        requires timely { IsTimely at self.old.log }
        requires room { TURN_ENTRIES ≤ self.old.log.spare }
        ensures { MatchResult result
            (λ ran. Tells self.old self.new at (HasStepped (machine_in self.old.description)
            (heard_of self.old) ctx n ran))
            (λ _. (IsReadyIn (heard_of self.old) ctx → ⊥) × (self.new ≡ self.old)) }
    {
        if !self.parts.contexts.is_ready(ctx) {
            return Err(NotReady);
        }
        Ok(take_turn(self.machine.description(), &mut self.parts, at, ctx, n))
    }

    /// Turns of the description's quantum follow one another, each to the invocation that is longest without one, until
    /// none is ready.
    pub fn settle(&mut self, at: Stamp)
        requires timely { IsTimely at self.old.log }
        requires room { SETTLING_ENTRIES ≤ self.old.log.spare }
        ensures { Tells self.old self.new at (SettlesWithin (machine_in self.old.description)
            ((self.old.description.turns + 1) * CODE_MAX) (heard_of self.old)) }
    {
        settle(self.machine.description(), &mut self.parts, at);
    }

    /// Whether an invocation is ready.
    pub fn is_ready(&self) -> bool
        ensures { MatchBool result (IsSomeReady (heard_of self.now)) (IsNoneReady (heard_of self.now) × (self.now.line ≡ [])) }
    {
        self.parts.contexts.first_ready().is_some()
    }

    /// What can go on. A `step` in a context that it names as `Can` is never refused.
    pub fn standing(&self) -> Standing
        ensures { StandsAs (heard_of self.now) result }
    {
        if let Some(ctx) = self.parts.contexts.first_ready() {
            return Standing::Can(ctx);
        }
        match self.parts.contexts.first_waiting() {
            Some(ctx) => Standing::Outside(ctx),
            None => Standing::Idle,
        }
    }

    /// The call whose answer the invocation in the context waits for; None exactly if none waits there.
    pub fn asked(&self, ctx: ContextId) -> Option<Asked>
        requires { ctx.0 < CONTEXTS_MAX }
        ensures { MatchOption result (NobodyWaits (heard_of self.now) ctx) (IsAsked (heard_of self.now) ctx) }
    {
        let (fun, args) = self.parts.contexts.asked(ctx)?;
        let inv = self.parts.contexts.seat(ctx)?.inv;
        Some(Asked { inv, fun, args })
    }

    /// The version that is installed for the handler, 0 for none.
    pub fn held(&self, handler: HandlerId) -> u32
        ensures { result ≡ held_version (heard_of self.now) handler }
    {
        self.parts.handlers.version(handler)
    }

    /// The image that is installed for the handler; None exactly if none is.
    pub fn image(&self, handler: HandlerId) -> Option<&Image>
        ensures { MatchOption result (held_version (heard_of self.now) handler
            ≡ 0) (λ image. IsImageOf (heard_of self.now) handler image.now) }
    {
        match self.parts.handlers.get(handler) {
            Some(held) => Some(&held.image),
            None => None,
        }
    }

    /// How many entries were made, those that are forgotten included.
    pub fn told(&self) -> usize
        ensures count { result ≡ length self.now.log.entries }
        ensures gone { self.now.gone.entries ≤ result }
    {
        let _kept = self.parts.log.kept();
        self.parts.log.told()
    }

    /// Forgets all entries that were made until now: their memory is free for those that come.
    pub fn forget(&mut self)
        requires { length self.old.log.entries < 4000000000 }
        ensures same { IsSameNode (record self.old { gone = gone_of self.old.log }) self.new }
        ensures pace { (p : Pace) → HasPace self.old p → HasPace self.new p }
    {
        self.parts.log.forget();
    }

    /// Takes the room of another empty log, and leaves that one its own, if all entries are forgotten. So nodes that are
    /// called in turn share one room.
    pub fn trade(&mut self, room: &mut NodeLog)
        requires gone { self.old.gone ≡ gone_of self.old.log }
        requires empty { IsEmpty room.old }
        ensures same { self.new ≡ record self.old { log = record self.old.log { spare = room.old.spare } } }
        ensures pace { (p : Pace) → HasPace self.old p → HasPace self.new p }
        ensures empty { IsEmpty room.new }
        ensures room { room.new.spare ≡ self.old.log.spare }
    {
        self.parts.log.trade(room);
    }

    /// The log of the entries that were made since the last `forget`.
    pub fn kept(&self) -> &NodeLog
        ensures kept { IsKept (record { all = self.now.log; gone = self.now.gone }) result.now }
        ensures keeps { KeepsJournal self.now.description (machine_in self.now.description) self.now.log }
    {
        keeps_journal(self.machine.description(), &self.parts);
        self.parts.log.kept()
    }

    /// The entries from this position on. Positions count those that are forgotten, too.
    pub fn told_since(&self, from: usize) -> &[Stamped]
        requires kept { self.now.gone.entries ≤ from }
        requires within { from ≤ length self.now.log.entries }
        ensures count { from + length result.now ≡ length self.now.log.entries }
        ensures tell { TellFrom from self.now.log result.now }
        ensures range { All (λ (e : Entered). IsEntryInRange self.now.description e.entry) result.now }
    {
        let entries = self.kept().entries();
        let gone = self.told() - entries.len();
        &entries[from - gone..]
    }

    /// The whole log, if nothing was forgotten.
    pub fn log(&self) -> &NodeLog
        requires { self.now.gone ≡ nothing_gone }
        ensures same { result.now ≡ self.now.log }
        ensures keeps { KeepsJournal self.now.description (machine_in self.now.description) self.now.log }
    {
        keeps_journal(self.machine.description(), &self.parts);
        self.parts.log.whole()
    }

    /// The same, handed out.
    pub fn into_log(self) -> NodeLog
        requires { self.gone ≡ nothing_gone }
        ensures same { result ≡ self.log }
        ensures keeps { KeepsJournal self.description (machine_in self.description) self.log }
    {
        keeps_journal(self.machine.description(), &self.parts);
        let OpenNode {
            machine: _machine,
            parts,
        } = self;
        parts.log.into_whole()
    }
}
