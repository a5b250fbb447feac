//! Runs of live invocations again, with the answers that they got so far.

ghost use Rattle.std.specs.Prelude.{◌≡◌, ◌||◌, not, ℕ, List, IfOk, OnOk};
ghost use Rattle.std.specs.List.{All};
ghost use Rattle.arrayvec.specs.ArrayVec.{ArrayVec};
ghost use Rattle.mate_journal.specs.Journal.{is_started};
ghost use Rattle.audit_rules.specs.Rerun as told;
ghost use Rattle.audit_rules.specs.Same.{same_calls as are_one_calls};
ghost use Rattle.audit_rules.specs.Shown.{HasLengthsOf};
ghost use Rattle.audit_rules.specs.Views.{phase_in, seat_in, roll_in};
ghost use Rattle.audit_programs.specs.Trials.{IsTried, IsSeatReady, machine_for};
ghost use Rattle.audit_programs.specs.Kept.{AreKept};

use crate::same::{same_calls, same_end};
use audit_programs::{KeptRuns, ReadyRoll, Trial};
use audit_rules::{Phase, Seat, Stage};
use mate_num::{End, NoMemory, Outcome, Store, copy_of};
use std::alloc::Global;

/// Whether a run ended as an invocation in this phase needs it: one that waits needs an end in its call.
fn wants_as(phase: &Phase, end: &End) -> bool
    ensures { result ≡ told.wants_as (phase_in phase.now) end.now }
{
    match phase {
        Phase::Queued | Phase::Ready => true,
        Phase::Waiting { fun, args } => {
            let wanted = End::Wants {
                fun: *fun,
                args: copy_of(args),
            };
            same_end(end, &wanted)
        }
    }
}

/// Whether an outcome has the calls of the invocation so far, and ends in the call that it waits for.
fn outcome_is_so_far(seat: &Seat, outcome: &Outcome) -> bool
    ensures { (images : List (ArrayVec ℕ)) → result ≡ told.outcome_is_so_far (seat_in images seat.now).invocation outcome.now }
{
    same_calls(outcome.calls.as_slice(), seat.calls.as_slice())
        && wants_as(&seat.phase, &outcome.end)
}

/// Whether the run of the invocation on the store makes its calls so far. It isn't run further than to the last answer.
fn makes_calls<'a>(
    alloc: Global,
    trial: &Trial,
    roll: &ReadyRoll<'a>,
    runs: &mut KeptRuns<'a>,
    seat: &Seat,
    store: &Store,
) -> Result<bool, NoMemory>
    requires tried { IsTried trial.now }
    requires ready { IsSeatReady trial.now roll.now seat.now }
    requires lengths { HasLengthsOf (machine_for trial.now) store.now }
    requires runs { AreKept trial.now.desc.now runs.old }
    ensures right { let i = (seat_in trial.now.log.now.images seat.now).invocation in
        IfOk result (λ b. b ≡ are_one_calls (told.run_on (machine_for trial.now) store.now i).calls i.calls) }
    ensures runs { OnOk result (AreKept trial.now.desc.now runs.new) }
{
    let calls = runs.calls(alloc, trial, roll, seat, store)?;
    Ok(same_calls(calls.as_slice(), seat.calls.as_slice()))
}

/// Whether the run of the invocation on the store makes its calls so far, and ends in the call that it waits for.
pub(crate) fn is_so_far<'a>(
    alloc: Global,
    trial: &Trial,
    roll: &ReadyRoll<'a>,
    runs: &mut KeptRuns<'a>,
    seat: &Seat,
    store: &Store,
) -> Result<bool, NoMemory>
    requires tried { IsTried trial.now }
    requires ready { IsSeatReady trial.now roll.now seat.now }
    requires lengths { HasLengthsOf (machine_for trial.now) store.now }
    requires runs { AreKept trial.now.desc.now runs.old }
    ensures right { IfOk result (λ b. b ≡ told.is_so_far (machine_for trial.now) store.now
        (seat_in trial.now.log.now.images seat.now).invocation) }
    ensures runs { OnOk result (AreKept trial.now.desc.now runs.new) }
{
    if seat.phase.is(Stage::Ready) {
        return makes_calls(alloc, trial, roll, runs, seat, store);
    }
    let outcome = runs.run(alloc, trial, roll, seat, store)?;
    Ok(outcome_is_so_far(seat, &outcome))
}

/// The same, if the invocation is started; true of a queued one.
fn runs_rightly<'a>(
    alloc: Global,
    trial: &Trial,
    roll: &ReadyRoll<'a>,
    runs: &mut KeptRuns<'a>,
    store: &Store,
    seat: &Seat,
) -> Result<bool, NoMemory>
    requires tried { IsTried trial.now }
    requires ready { IsSeatReady trial.now roll.now seat.now }
    requires lengths { HasLengthsOf (machine_for trial.now) store.now }
    requires runs { AreKept trial.now.desc.now runs.old }
    ensures right { let seat = seat_in trial.now.log.now.images seat.now in
        IfOk result (λ b. b ≡ (not (is_started seat.invocation.phase)
        || told.is_so_far (machine_for trial.now) store.now seat.invocation)) }
    ensures runs { OnOk result (AreKept trial.now.desc.now runs.new) }
{
    if seat.phase.is(Stage::Queued) {
        return Ok(true);
    }
    is_so_far(alloc, trial, roll, runs, seat, store)
}

/// Whether that is so for each live invocation.
pub fn all_so_far<'a>(
    alloc: Global,
    trial: &Trial,
    roll: &ReadyRoll<'a>,
    runs: &mut KeptRuns<'a>,
    store: &Store,
) -> Result<bool, NoMemory>
    requires tried { IsTried trial.now }
    requires ready { All (IsSeatReady trial.now roll.now) roll.now.roll.seats.items }
    requires lengths { HasLengthsOf (machine_for trial.now) store.now }
    requires runs { AreKept trial.now.desc.now runs.old }
    ensures right { IfOk result (λ b. b ≡ told.all_so_far (machine_for trial.now) (roll_in trial.now.log.now.images roll.now.roll) store.now) }
    ensures runs { OnOk result (AreKept trial.now.desc.now runs.new) }
{
    for seat in roll.roll.seats.as_slice() {
        let right = runs_rightly(alloc, trial, roll, runs, store, seat)?;
        if !right {
            return Ok(false);
        }
    }
    Ok(true)
}
