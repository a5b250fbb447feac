//! The runs of live invocations, each kept where it stands.

use crate::{KeptRun, ReadyRoll, Trial};
use audit_rules::Seat;
use mate_num::{CONTEXTS_MAX, Calls, ContextId, NoMemory, Outcome, Store};
use std::alloc::Global;

/// The run that was kept last for each context. A run is looked at before it is used, so none has to be removed.
#[derive(Drop)]
pub struct KeptRuns<'a> {
    runs: Vec<Option<KeptRun<'a>>>,
}

impl<'a> KeptRuns<'a> {
    ghost use Rattle.std.specs.Prelude.{◌≡◌, IfOk, IfSome, OnOk};
    ghost use Rattle.vm_shape.specs.declared.description.Description.{Description as Given};
    ghost use Rattle.exec_unit.specs.declared.step_end.StepEnd.TheVariants as stands;
    ghost use Rattle.audit_rules.specs.Rerun.{run_on};
    ghost use Rattle.audit_rules.specs.Shown.{HasLengthsOf};
    ghost use Rattle.audit_rules.specs.Views.{seat_in};
    ghost use Rattle.audit_programs.specs.Kept.{AreKept, IsKept, IsRunOfSeat, outcome_in};
    ghost use Rattle.audit_programs.specs.Trials.{IsTried, IsSeatReady, machine_for};

    /// None is kept.
    pub fn new(alloc: Global) -> Result<KeptRuns<'a>, NoMemory>
        ensures { (d : Given) → IfOk result (AreKept d) }
    {
        let mut runs = Vec::with_capacity(alloc, CONTEXTS_MAX)?;
        for _context in 0..CONTEXTS_MAX {
            runs.push(None)?;
        }
        Ok(KeptRuns { runs })
    }

    /// Takes what is kept for the context.
    fn take(&mut self, context: ContextId) -> Option<KeptRun<'a>>
        ensures { (d : Given) → AreKept d self.old → IfSome result (IsKept d) × AreKept d self.new }
    {
        let place = usize::from(context.0);
        if place >= self.runs.len() {
            return None;
        }
        self.runs[place].take()
    }

    /// Keeps the run for the context.
    fn keep(&mut self, context: ContextId, run: KeptRun<'a>)
        ensures { (d : Given) → AreKept d self.old → IsKept d run.entry → AreKept d self.new }
    {
        let place = usize::from(context.0);
        if place < self.runs.len() {
            self.runs[place] = Some(run);
        }
    }

    /// The run of a live invocation on a store, where it took the last answer that it got so far. It isn't kept.
    fn run_from(
        &mut self,
        alloc: Global,
        trial: &Trial,
        roll: &ReadyRoll<'a>,
        seat: &Seat,
        store: &Store,
    ) -> Result<KeptRun<'a>, NoMemory>
        requires tried { IsTried trial.now }
        requires ready { IsSeatReady trial.now roll.now seat.now }
        requires lengths { HasLengthsOf (machine_for trial.now) store.now }
        requires kept { AreKept trial.now.desc.now self.old }
        ensures run { IfOk result (IsRunOfSeat trial.now.desc.now store.now (seat_in trial.now.log.now.images seat.now).invocation) }
        ensures kept { OnOk result (AreKept trial.now.desc.now self.new) }
    {
        let kept = self.take(seat.context);
        roll.program_of(trial, seat).run(
            alloc,
            kept,
            store,
            &seat.payload,
            seat.calls.as_slice(),
            trial.desc.turns,
        )
    }

    /// The same up to a call that has no answer, or to its end.
    fn run_to(
        &mut self,
        alloc: Global,
        trial: &Trial,
        roll: &ReadyRoll<'a>,
        seat: &Seat,
        store: &Store,
    ) -> Result<KeptRun<'a>, NoMemory>
        requires tried { IsTried trial.now }
        requires ready { IsSeatReady trial.now roll.now seat.now }
        requires lengths { HasLengthsOf (machine_for trial.now) store.now }
        requires kept { AreKept trial.now.desc.now self.old }
        ensures stops { IfOk result (λ k. k.how ≡ stands.Next → ⊥) }
        ensures run { IfOk result (λ k. IsKept trial.now.desc.now k
            × (outcome_in k ≡ run_on (machine_for trial.now) store.now (seat_in trial.now.log.now.images seat.now).invocation)) }
        ensures kept { OnOk result (AreKept trial.now.desc.now self.new) }
    {
        let mut run = self.run_from(alloc, trial, roll, seat, store)?;
        roll.program_of(trial, seat)
            .finish(&mut run, trial.desc.turns);
        Ok(run)
    }

    /// What the whole run of a live invocation on a store gives, with the answers that it got so far. It isn't kept.
    pub fn run(
        &mut self,
        alloc: Global,
        trial: &Trial,
        roll: &ReadyRoll<'a>,
        seat: &Seat,
        store: &Store,
    ) -> Result<Outcome, NoMemory>
        requires tried { IsTried trial.now }
        requires ready { IsSeatReady trial.now roll.now seat.now }
        requires lengths { HasLengthsOf (machine_for trial.now) store.now }
        requires kept { AreKept trial.now.desc.now self.old }
        ensures run { IfOk result (λ o. o ≡ run_on (machine_for trial.now) store.now (seat_in trial.now.log.now.images seat.now).invocation) }
        ensures lengths { IfOk result (λ o. HasLengthsOf (machine_for trial.now) o.store) }
        ensures kept { OnOk result (AreKept trial.now.desc.now self.new) }
    {
        let run = self.run_to(alloc, trial, roll, seat, store)?;
        Ok(run.outcome())
    }

    /// The calls of that run. It isn't run further than to the last answer.
    pub fn calls(
        &mut self,
        alloc: Global,
        trial: &Trial,
        roll: &ReadyRoll<'a>,
        seat: &Seat,
        store: &Store,
    ) -> Result<Calls, NoMemory>
        requires tried { IsTried trial.now }
        requires ready { IsSeatReady trial.now roll.now seat.now }
        requires lengths { HasLengthsOf (machine_for trial.now) store.now }
        requires kept { AreKept trial.now.desc.now self.old }
        ensures calls { IfOk result (λ calls. calls ≡ (run_on (machine_for trial.now) store.now
            (seat_in trial.now.log.now.images seat.now).invocation).calls) }
        ensures kept { OnOk result (AreKept trial.now.desc.now self.new) }
    {
        let run = self.run_from(alloc, trial, roll, seat, store)?;
        Ok(run.calls)
    }

    /// The store that such a run leaves. The run is kept.
    pub fn store_left(
        &mut self,
        alloc: Global,
        trial: &Trial,
        roll: &ReadyRoll<'a>,
        seat: &Seat,
        store: &Store,
    ) -> Result<Store, NoMemory>
        requires tried { IsTried trial.now }
        requires ready { IsSeatReady trial.now roll.now seat.now }
        requires lengths { HasLengthsOf (machine_for trial.now) store.now }
        requires kept { AreKept trial.now.desc.now self.old }
        ensures store { IfOk result (λ left. left ≡ (run_on (machine_for trial.now) store.now
            (seat_in trial.now.log.now.images seat.now).invocation).store) }
        ensures kept { OnOk result (AreKept trial.now.desc.now self.new) }
    {
        let run = self.run_to(alloc, trial, roll, seat, store)?;
        let left = run.heap.store();
        self.keep(seat.context, run);
        Ok(left)
    }
}
