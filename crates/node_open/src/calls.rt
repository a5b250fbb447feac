//! What comes to a node from outside: events for its handlers, answers, capsules, resets.

ghost use Rattle.std.specs.Prelude.{◌≡◌, ◌<◌, ◌≤◌, ◌∷◌, [], length, IfOk, MatchOption, MatchResult};
ghost use Rattle.mate_num.specs.declared.bounds.TheConstants.{CONTEXTS_MAX};
ghost use Rattle.mate_journal.specs.Journal.{Void};
ghost use Rattle.mate_journal.specs.NodeScript.{AnswersCall, ShowsOnce, Resets};
ghost use Rattle.node_state.specs.Meaning.{machine_in};
ghost use Rattle.node_state.specs.Keeps.{IsTimely};
ghost use Rattle.node_calls.specs.Calls.{NobodyWaits};
ghost use Rattle.node_calls.specs.Posting.{PostGives};

use crate::open_node::OpenNode;
use mate_journal::VoidCause;
use mate_num::{ContextId, HandlerId, NoMemory, Payload, Stamp};
use node_calls::{
    InstallFault, PostAnswer, answer_in, install_ready, install_shared, post_in, reset_in, seen_in,
    void_in,
};
use split_phase::NotWaiting;

impl OpenNode {
    ghost use Rattle.node_open.specs.View.{HasPlaces, heard_of, Tells};
    ghost use Rattle.node_open.specs.Calls.{InstallsOn, Pacing, TakesCapsule};

    /// An event for the handler becomes an invocation in the handler's lowest idle context, which starts if nothing holds
    /// it back. It is dropped with `NoCode` exactly if nothing is installed for the handler, and else with `AllBusy`
    /// exactly if no context of the handler is idle.
    pub fn post(&mut self, handler: HandlerId, payload: &Payload, at: Stamp) -> PostAnswer
        requires handler { handler.0 < length self.old.description.handlers.items }
        requires timely { IsTimely at self.old.log }
        requires few { length self.old.log.entries < 4000000000 }
        requires room { 2 ≤ self.old.log.spare }
        ensures { Tells self.old self.new at
            (Pacing (λ _. PostGives (machine_in self.old.description) (heard_of self.old) handler payload.now result)) }
    {
        post_in(
            self.machine.description(),
            &mut self.parts,
            handler,
            payload,
            at,
        )
    }

    /// Gives the invocation that waits in the context the answer to its call: it is ready, with its turn after all others.
    /// `NotWaiting` comes exactly if none waits there, and leaves the node as it was.
    pub fn answer(&mut self, ctx: ContextId, value: i16, at: Stamp) -> Result<(), NotWaiting>
        requires context { ctx.0 < CONTEXTS_MAX }
        requires timely { IsTimely at self.old.log }
        requires room { 1 ≤ self.old.log.spare }
        ensures { MatchResult result
            (λ _. Tells self.old self.new at (Pacing (λ _. AnswersCall (heard_of self.old) ctx value)))
            (λ _. NobodyWaits (heard_of self.old) ctx × (self.new ≡ self.old)) }
    {
        answer_in(self.machine.description(), &mut self.parts, ctx, value, at)
    }

    /// Installs the capsule, and begins an era: live invocations are cut, variables are 0 and buffers empty. A handler that
    /// runs once is then posted with an empty payload. A refusal leaves the node as it was: the capsule's, then its code's,
    /// then `NotNewer` exactly if the version that is held for the handler is at least the capsule's, with that version.
    pub fn install(&mut self, bytes: &[u8], at: Stamp) -> Result<(), InstallFault>
        requires timely { IsTimely at self.old.log }
        requires few { length self.old.log.entries < 4000000000 }
        requires room { 4 ≤ self.old.log.spare }
        requires places { HasPlaces self.old }
        ensures { InstallsOn self.old self.new bytes.now at result }
    {
        let ready = self.machine.ready();
        let description = self.machine.description();
        install_shared(description, &mut self.parts, bytes, ready, at)
    }

    /// The same for a capsule that is ready on the machine. Such a one needs no place on the node: there is one program for all nodes
    /// that hold it. None, which leaves the node as it was, comes where the capsule isn't ready.
    pub fn install_ready(&mut self, bytes: &[u8], at: Stamp) -> Option<Result<(), InstallFault>>
        requires timely { IsTimely at self.old.log }
        requires few { length self.old.log.entries < 4000000000 }
        requires room { 4 ≤ self.old.log.spare }
        ensures { MatchOption result (self.new ≡ self.old) (InstallsOn self.old self.new bytes.now at) }
    {
        let ready = self.machine.ready();
        let description = self.machine.description();
        install_ready(description, &mut self.parts, bytes, ready, at)
    }

    /// The same on a node that may have no places: those are made if the capsule isn't ready. After `NoMemory` nothing is said of the
    /// node.
    pub fn install_anywhere(
        &mut self,
        bytes: &[u8],
        at: Stamp,
    ) -> Result<Result<(), InstallFault>, NoMemory>
        requires timely { IsTimely at self.old.log }
        requires few { length self.old.log.entries < 4000000000 }
        requires room { 4 ≤ self.old.log.spare }
        ensures { IfOk result (TakesCapsule self.old self.new bytes.now at) }
    {
        if let Some(installed) = self.install_ready(bytes, at) {
            return Ok(installed);
        }
        self.make_places()?;
        Ok(self.install(bytes, at))
    }

    /// Begins an era as an install does, but what is installed stays, and nothing is posted.
    pub fn reset(&mut self, at: Stamp)
        requires timely { IsTimely at self.old.log }
        requires few { length self.old.log.entries < 4000000000 }
        requires room { 2 ≤ self.old.log.spare }
        ensures { Tells self.old self.new at
            (Pacing (Resets (machine_in self.old.description) (heard_of self.old))) }
    {
        reset_in(self.machine.description(), &mut self.parts, at);
    }

    /// Records the shared variables and buffers as they are.
    pub fn seen(&mut self, at: Stamp)
        requires timely { IsTimely at self.old.log }
        requires few { length self.old.log.entries < 4000000000 }
        requires room { 1 ≤ self.old.log.spare }
        ensures { Tells self.old self.new at
            (Pacing (ShowsOnce (machine_in self.old.description) (heard_of self.old))) }
    {
        seen_in(self.machine.description(), &mut self.parts, at);
    }

    /// Records that a step could do nothing, and why.
    pub fn void(&mut self, cause: VoidCause, at: Stamp)
        requires timely { IsTimely at self.old.log }
        requires room { 1 ≤ self.old.log.spare }
        ensures { Tells self.old self.new at (Pacing (λ _ told. told ≡ Void cause ∷ [])) }
    {
        void_in(self.machine.description(), &mut self.parts, cause, at);
    }
}
