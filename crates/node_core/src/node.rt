//! A node with its whole log.

ghost use Rattle.std.specs.Prelude.{◌≡◌, ◌<◌, ◌≤◌, ◌+◌, ◌*◌, ◌∷◌, [], length, MatchOption, MatchResult, IfOk, OnOk};
ghost use Rattle.mate_num.specs.declared.bounds.TheConstants.{CODE_MAX, CONTEXTS_MAX};
ghost use Rattle.mate_journal.specs.declared.report.TheConstants.{ENTRIES_MAX};
ghost use Rattle.mate_journal.specs.Log.{IsEmpty};
ghost use Rattle.mate_journal.specs.Journal.{Void, held as held_version};
ghost use Rattle.mate_journal.specs.Pace.{Pace, no_pace};
ghost use Rattle.mate_journal.specs.NodeScript.{IsReadyIn, AnswersCall, ShowsOnce, Resets};
ghost use Rattle.node_state.specs.Meaning.{machine_in};
ghost use Rattle.node_state.specs.Keeps.{IsTimely};
ghost use Rattle.node_calls.specs.Pacing.{SettlesWithin};
ghost use Rattle.node_calls.specs.Calls.{NobodyWaits};
ghost use Rattle.node_calls.specs.Posting.{PostGives};
ghost use Rattle.node_calls.specs.Installing.{InstallsBytes, Refuses};
ghost use Rattle.node_open.specs.Journal.{KeepsJournal};
ghost use Rattle.node_open.specs.declared.open_node.TheConstants.{SETTLING_ENTRIES, TURN_ENTRIES};

use mate_journal::{NodeLog, VoidCause};
use mate_num::{ContextId, HandlerId, Image, NoMemory, Payload, Stamp};
use node_calls::{InstallFault, PostAnswer};
use node_open::{Asked, NotReady, OpenNode, Standing};
use split_phase::NotWaiting;
use std::alloc::Global;
use std::marker::Model;
use vm_shape::Description;

/// A node. Its calls are those of `OpenNode`, over a log of which nothing is gone.
#[derive(Drop)]
pub struct Node {
    // nothing of its log is gone, and it has places for programs of its own
    node: OpenNode,
}

impl Model for Node {
    ghost use Rattle.node_open.specs.View.{NodeView};

    ghost Value = { NodeView };

    ghost use Rattle.node_core.specs.Inside.{IsWholeNode};

    ghost view = { λ n. n.node };

    ghost invariant = { IsWholeNode };
}

impl Node {
    ghost use Rattle.node_open.specs.View.{heard_of, HasPace, Tells, IsSameNode};
    ghost use Rattle.node_open.specs.Calls.{Pacing, HasStepped, StandsAs, IsAsked, IsImageOf};

    /// A node of this machine. Nothing is installed, all variables are 0, all buffers are empty, and no entry was made.
    pub fn new(alloc: Global, description: &Description) -> Result<Node, NoMemory>
        ensures { IfOk result (λ node. (node.description ≡ description.now) × IsEmpty node.log × HasPace node no_pace) }
    {
        let mut node = OpenNode::new(alloc, description)?;
        node.make_places()?;
        Ok(Node { node })
    }

    /// Makes room for n more entries. `NoMemory` leaves all of the node but its room as it was.
    pub fn reserve(&mut self, n: usize) -> Result<(), NoMemory>
        ensures same { IsSameNode self.old self.new }
        ensures pace { (p : Pace) → HasPace self.old p → HasPace self.new p }
        ensures room { OnOk result (n ≤ self.new.log.spare) }
    {
        self.node.reserve(n)
    }

    /// How many more entries, of whatever kind, it can make without memory.
    pub fn spare(&self) -> usize
        ensures { result ≡ self.now.log.spare }
    {
        self.node.spare()
    }

    /// The invocation in the context executes n instructions, or fewer if it calls a function or ends before. Answers how
    /// many. `NotReady` comes exactly if no ready invocation is in the context, and leaves the node as it was.
    pub fn step(&mut self, ctx: ContextId, n: u32, at: Stamp) -> Result<u32, NotReady>
        requires context { ctx.0 < CONTEXTS_MAX }
        requires some { 0 < n }
        requires timely { IsTimely at self.old.log }
        requires room { TURN_ENTRIES ≤ self.old.log.spare }
        ensures { MatchResult result
            (λ ran. Tells self.old self.new at (HasStepped (machine_in self.old.description)
            (heard_of self.old) ctx n ran))
            (λ _. (IsReadyIn (heard_of self.old) ctx → ⊥) × (self.new ≡ self.old)) }
    {
        self.node.step(ctx, n, at)
    }

    /// Turns of the description's quantum follow one another, each to the invocation that is longest without one, until
    /// none is ready.
    pub fn settle(&mut self, at: Stamp)
        requires timely { IsTimely at self.old.log }
        requires room { SETTLING_ENTRIES ≤ self.old.log.spare }
        ensures { Tells self.old self.new at (SettlesWithin (machine_in self.old.description)
            ((self.old.description.turns + 1) * CODE_MAX) (heard_of self.old)) }
    {
        self.node.settle(at);
    }

    /// What can go on. A `step` in a context that it names as `Can` is never refused.
    pub fn standing(&self) -> Standing
        ensures { StandsAs (heard_of self.now) result }
    {
        self.node.standing()
    }

    /// The call whose answer the invocation in the context waits for; None exactly if none waits there.
    pub fn asked(&self, ctx: ContextId) -> Option<Asked>
        requires { ctx.0 < CONTEXTS_MAX }
        ensures { MatchOption result (NobodyWaits (heard_of self.now) ctx) (IsAsked (heard_of self.now) ctx) }
    {
        self.node.asked(ctx)
    }

    /// The version that is installed for the handler, 0 for none.
    pub fn held(&self, handler: HandlerId) -> u32
        ensures { result ≡ held_version (heard_of self.now) handler }
    {
        self.node.held(handler)
    }

    /// The image that is installed for the handler; None exactly if none is.
    pub fn image(&self, handler: HandlerId) -> Option<&Image>
        ensures { MatchOption result (held_version (heard_of self.now) handler
            ≡ 0) (λ image. IsImageOf (heard_of self.now) handler image.now) }
    {
        self.node.image(handler)
    }

    /// The log of what happened on the node.
    pub fn log(&self) -> &NodeLog
        ensures same { result.now ≡ self.now.log }
        ensures keeps { KeepsJournal self.now.description (machine_in self.now.description) self.now.log }
    {
        self.node.log()
    }

    /// The log, handed out.
    pub fn into_log(self) -> NodeLog
        ensures same { result ≡ self.log }
        ensures keeps { KeepsJournal self.description (machine_in self.description) self.log }
    {
        self.node.into_log()
    }

    /// An event for the handler becomes an invocation in the handler's lowest idle context, which starts if nothing holds
    /// it back. It is dropped with `NoCode` exactly if nothing is installed for the handler, and else with `AllBusy`
    /// exactly if no context of the handler is idle.
    pub fn post(&mut self, handler: HandlerId, payload: &Payload, at: Stamp) -> PostAnswer
        requires handler { handler.0 < length self.old.description.handlers.items }
        requires timely { IsTimely at self.old.log }
        requires few { length self.old.log.entries < ENTRIES_MAX }
        requires room { 2 ≤ self.old.log.spare }
        ensures { Tells self.old self.new at
            (Pacing (λ _. PostGives (machine_in self.old.description) (heard_of self.old) handler payload.now result)) }
    {
        self.node.post(handler, payload, at)
    }

    /// Gives the invocation that waits in the context the answer to its call: it is ready, with its turn after all others.
    /// `NotWaiting` comes exactly if none waits there, and leaves the node as it was.
    pub fn answer(&mut self, ctx: ContextId, value: i16, at: Stamp) -> Result<(), NotWaiting>
        requires context { ctx.0 < CONTEXTS_MAX }
        requires timely { IsTimely at self.old.log }
        requires room { 1 ≤ self.old.log.spare }
        ensures { MatchResult result
            (λ _. Tells self.old self.new at (Pacing (λ _. AnswersCall (heard_of self.old) ctx value)))
            (λ _. NobodyWaits (heard_of self.old) ctx × (self.new ≡ self.old)) }
    {
        self.node.answer(ctx, value, at)
    }

    /// Installs the capsule, and begins an era: live invocations are cut, variables are 0 and buffers empty. A handler that
    /// runs once is then posted with an empty payload. A refusal leaves the node as it was: the capsule's, then its code's,
    /// then `NotNewer` exactly if the version that is held for the handler is at least the capsule's, with that version.
    pub fn install(&mut self, bytes: &[u8], at: Stamp) -> Result<(), InstallFault>
        requires timely { IsTimely at self.old.log }
        requires few { length self.old.log.entries < ENTRIES_MAX }
        requires room { 4 ≤ self.old.log.spare }
        ensures { MatchResult result
            (λ _. Tells self.old self.new at (Pacing (InstallsBytes self.old.description (heard_of self.old) bytes.now)))
            (λ fault. Refuses self.old.description (heard_of self.old) bytes.now fault × (self.new ≡ self.old)) }
    {
        self.node.install(bytes, at)
    }

    /// Begins an era as an install does, but what is installed stays, and nothing is posted.
    pub fn reset(&mut self, at: Stamp)
        requires timely { IsTimely at self.old.log }
        requires few { length self.old.log.entries < ENTRIES_MAX }
        requires room { 2 ≤ self.old.log.spare }
        ensures { Tells self.old self.new at
            (Pacing (Resets (machine_in self.old.description) (heard_of self.old))) }
    {
        self.node.reset(at);
    }

    /// Records the shared variables and buffers as they are.
    pub fn seen(&mut self, at: Stamp)
        requires timely { IsTimely at self.old.log }
        requires few { length self.old.log.entries < ENTRIES_MAX }
        requires room { 1 ≤ self.old.log.spare }
        ensures { Tells self.old self.new at
            (Pacing (ShowsOnce (machine_in self.old.description) (heard_of self.old))) }
    {
        self.node.seen(at);
    }

    /// Records that a step could do nothing, and why.
    pub fn void(&mut self, cause: VoidCause, at: Stamp)
        requires timely { IsTimely at self.old.log }
        requires room { 1 ≤ self.old.log.spare }
        ensures { Tells self.old self.new at (Pacing (λ _ told. told ≡ Void cause ∷ [])) }
    {
        self.node.void(cause, at);
    }
}
