//! A node on the heap.

ghost use Rattle.std.specs.Prelude.{◌≡◌, ◌<◌, ◌≤◌, ◌+◌, ◌^◌, ℕ, length, take, IfOk, OnOk};
ghost use Rattle.mate_num.specs.declared.bounds.TheConstants.{CONTEXTS_MAX};
ghost use Rattle.vm_shape.specs.Whole.{context_count};
ghost use Rattle.mate_journal.specs.Log.{GoesOn};
ghost use Rattle.mate_journal.specs.NodeScript.{ShowsOnce};
ghost use Rattle.mate_journal.specs.Pace.{Pace};
ghost use Rattle.node_state.specs.Meaning.{machine_in};
ghost use Rattle.mate_journal.specs.Ranges.{HasStampRange};
ghost use Rattle.node_state.specs.Keeps.{IsTimely};
ghost use Rattle.script_steps.specs.Steps.{IsRightStep};
ghost use Rattle.node_open.specs.Calls.{Pacing};
ghost use Rattle.node_open.specs.Journal.{KeepsJournal};
ghost use Rattle.node_open.specs.View.{heard_of, HasPace, IsSameNode, Tells};
ghost use Rattle.journal_laws.specs.InRange.{IsInRange};
ghost use Rattle.node_programs.specs.Right.{AreRightPrograms};
ghost use Rattle.node_programs.specs.ScriptSteps.{step_of};
ghost use Rattle.node_runs.specs.Running.{IsReadyFor, MakesOn};
ghost use Rattle.mate_journal.specs.OpenLog.{gone_of, nothing_gone, IsKept};
ghost use Rattle.report_writer.specs.Tally.{IsLogTally, IsUpTo};
ghost use Rattle.node_runs.specs.Keeping.{IsNewNode, StaysAsToldTo};

use crate::events::make_step;
use journal_laws::{LogSize, log_is_in_range_from, stamp_is_in_range};
use mate_journal::{NodeLog, StoredPrograms};
use mate_num::{NoMemory, Stamp};
use node_open::{OpenNode, SharedMachine};
use report_writer::LogTally;
use script_steps::Step;
use std::alloc::Global;
use std::marker::Model;
use vm_shape::Description;

/// What becomes of entries when their lines are written.
#[derive(Clone, Copy)]
pub enum Written {
    Kept,
    Forgotten,
}

/// A node on the heap: it is too large to be moved about on the stack. It has places for programs of its own. Contracts see the node.
#[derive(Drop)]
pub struct HeapNode {
    node: Box<OpenNode>,
}

impl Model for HeapNode {
    ghost use Rattle.node_open.specs.View.{NodeView};

    ghost Value = { NodeView };

    ghost use Rattle.node_runs.specs.Keeping.{KeepsPlaces};

    ghost view = { λ held. held.node.value };

    ghost invariant = { KeepsPlaces };
}

impl HeapNode {
    /// A node on which nothing happened. The codes of the programs are ready on it.
    #[inline(never)]
    pub fn new(
        alloc: Global,
        desc: &Description,
        programs: &StoredPrograms,
    ) -> Result<HeapNode, NoMemory>
        ensures { IfOk result (IsNewNode desc.now) }
    {
        let machine = SharedMachine::with_codes(alloc, desc, programs)?;
        let mut node = OpenNode::on(alloc, machine)?;
        node.make_places()?;
        match Box::new(alloc, node) {
            Ok(node) => Ok(HeapNode { node }),
            Err(_) => Err(NoMemory),
        }
    }

    /// Makes room for n more entries.
    pub fn reserve(&mut self, n: usize) -> Result<(), NoMemory>
        ensures same { IsSameNode self.old self.new }
        ensures pace { (p : Pace) → HasPace self.old p → HasPace self.new p }
        ensures room { OnOk result (n ≤ self.new.log.spare) }
        ensures ranges { IsInRange self.old.log self.old.gone → IsInRange self.new.log self.new.gone }
    {
        self.node.reserve(n)
    }

    /// Makes the step, as one event with this stamp.
    pub fn make(&mut self, step: &Step, programs: &StoredPrograms, at: Stamp)
        requires ready { IsReadyFor self.old at }
        requires right { IsRightStep self.old.description (length programs.now) step.now }
        requires programs { AreRightPrograms self.old.description programs.now }
        requires contexts { context_count self.old.description ≤ CONTEXTS_MAX }
        ensures tells { Tells self.old self.new at (MakesOn self.old (step_of programs.now step.now)) }
        ensures ranges { IsInRange self.old.log self.old.gone → IsInRange self.new.log self.new.gone }
        ensures stamp { HasStampRange at }
        ensures goes_on { GoesOn self.old.log self.new.log }
    {
        stamp_is_in_range(&at);
        let size = LogSize::of(self.node.kept());
        make_step(&mut self.node, step, programs, at);
        log_is_in_range_from(self.node.kept(), size);
    }

    /// Records the shared variables and buffers as they are.
    pub fn seen(&mut self, at: Stamp)
        requires timely { IsTimely at self.old.log }
        requires few { length self.old.log.entries < 4000000000 }
        requires room { 1 ≤ self.old.log.spare }
        ensures tells { Tells self.old self.new at
            (Pacing (ShowsOnce (machine_in self.old.description) (heard_of self.old))) }
        ensures ranges { IsInRange self.old.log self.old.gone → IsInRange self.new.log self.new.gone }
        ensures goes_on { GoesOn self.old.log self.new.log }
    {
        let size = LogSize::of(self.node.kept());
        self.node.seen(at);
        log_is_in_range_from(self.node.kept(), size);
    }

    /// Forgets the entries that were made, if they are to be forgotten, and makes room for n more.
    pub fn make_room(&mut self, written: Written, n: usize) -> Result<(), NoMemory>
        requires { length self.old.log.entries < 4000000000 }
        ensures same { IsSameNode (record self.old { gone = self.new.gone }) self.new }
        ensures pace { (p : Pace) → HasPace self.old p → HasPace self.new p }
        ensures room { OnOk result (n ≤ self.new.log.spare) }
        ensures gone { StaysAsToldTo written self.old.gone self.new.gone }
        ensures ranges { IsInRange self.old.log self.old.gone → IsInRange self.new.log self.new.gone }
    {
        self.let_go(written);
        self.reserve(n)
    }

    /// Forgets the entries that were made, if they are to be forgotten.
    fn let_go(&mut self, written: Written)
        requires { length self.old.log.entries < 4000000000 }
        ensures same { IsSameNode (record self.old { gone = self.new.gone }) self.new }
        ensures pace { (p : Pace) → HasPace self.old p → HasPace self.new p }
        ensures gone { StaysAsToldTo written self.old.gone self.new.gone }
        ensures ranges { IsInRange self.old.log self.old.gone → IsInRange self.new.log self.new.gone }
    {
        match written {
            Written::Kept => {}
            Written::Forgotten => self.node.forget(),
        }
    }

    /// Counts the entries at hand, forgets them, and makes room for n more.
    pub fn count(&mut self, tally: &mut LogTally, n: usize) -> Result<(), NoMemory>
        requires few { length self.old.log.entries < 4000000000 }
        requires up { IsUpTo (2 ^ 56) tally.old }
        ensures same { IsSameNode (record self.old { gone = gone_of self.old.log }) self.new }
        ensures pace { (p : Pace) → HasPace self.old p → HasPace self.new p }
        ensures room { OnOk result (n ≤ self.new.log.spare) }
        ensures ranges { IsInRange self.old.log self.old.gone → IsInRange self.new.log self.new.gone }
        ensures tallies { (handlers : ℕ) → IsLogTally handlers tally.old (take self.old.gone.entries self.old.log.entries)
            → IsLogTally handlers tally.new self.old.log.entries }
    {
        self.count_kept(tally);
        self.forget();
        self.reserve(n)
    }

    /// Counts the entries at hand.
    pub fn count_kept(&self, tally: &mut LogTally)
        requires { IsUpTo (2 ^ 63) tally.old }
        ensures tallies { (handlers : ℕ) → IsLogTally handlers tally.old (take self.now.gone.entries self.now.log.entries)
            → IsLogTally handlers tally.new self.now.log.entries }
        ensures up { (n : ℕ) → IsUpTo n tally.old → IsUpTo (n + 2 ^ 57) tally.new }
    {
        tally.add_all(self.node.kept().entries());
    }

    /// Forgets the entries that were made.
    fn forget(&mut self)
        requires { length self.old.log.entries < 4000000000 }
        ensures same { IsSameNode (record self.old { gone = gone_of self.old.log }) self.new }
        ensures pace { (p : Pace) → HasPace self.old p → HasPace self.new p }
        ensures ranges { IsInRange self.old.log self.old.gone → IsInRange self.new.log self.new.gone }
    {
        self.node.forget();
    }

    /// How many entries were made.
    pub fn told(&self) -> usize
        ensures count { result ≡ length self.now.log.entries }
        ensures keeps { KeepsJournal self.now.description (machine_in self.now.description) self.now.log }
    {
        let _kept = self.node.kept();
        self.node.told()
    }

    /// The log of the entries that were made since the last ones were forgotten.
    pub fn kept(&self) -> &NodeLog
        ensures kept { IsKept (record { all = self.now.log; gone = self.now.gone }) result.now }
        ensures keeps { KeepsJournal self.now.description (machine_in self.now.description) self.now.log }
    {
        self.node.kept()
    }

    /// The whole log, handed out, if nothing was forgotten.
    #[inline(never)]
    pub fn into_log(self) -> NodeLog
        requires { self.gone ≡ nothing_gone }
        ensures same { result ≡ self.log }
        ensures keeps { KeepsJournal self.description (machine_in self.description) self.log }
    {
        let HeapNode { node } = self;
        Box::into_inner(node).into_log()
    }
}
