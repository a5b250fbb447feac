//! The end of an invocation: its run, and the runs of those that conflict with it.

ghost use Rattle.std.specs.Prelude.{◌≡◌, ◌&&◌, Some, unwrap_or, IfOk, IsTrue, OnOk};
ghost use Rattle.std.specs.List.{All, list_all};
ghost use Rattle.audit_rules.specs.Rerun as told;
ghost use Rattle.audit_rules.specs.Same.{same_calls as are_one_calls, same_end as are_one_end};
ghost use Rattle.audit_rules.specs.Shown.{HasLengthsOf};
ghost use Rattle.audit_rules.specs.Tests.{conflict_of};
ghost use Rattle.audit_rules.specs.Views.{seat_in, roll_in};
ghost use Rattle.audit_programs.specs.Trials.{IsTried, IsSeatReady, machine_for};
ghost use Rattle.audit_programs.specs.Kept.{AreKept};

use crate::rerun::is_so_far;
use crate::same::{same_calls, same_end};
use audit_programs::{KeptRuns, ReadyRoll, Trial};
use audit_rules::{Seat, Stage};
use mate_num::{End, NoMemory, Outcome, Store};
use std::alloc::Global;

/// The stores before and after the end of an invocation.
#[derive(Drop)]
struct Stores<'a> {
    before: &'a Store,
    after: &'a Store,
}

/// Whether an invocation that is started, and conflicts with the one that ended, makes its calls so far both on the store before that
/// end and on the store after it. Of others it is true.
fn is_undisturbed<'a>(
    alloc: Global,
    trial: &Trial,
    roll: &ReadyRoll<'a>,
    runs: &mut KeptRuns<'a>,
    stores: &Stores,
    ended: &Seat,
    seat: &Seat,
) -> Result<bool, NoMemory>
    requires tried { IsTried trial.now }
    requires ended { IsSeatReady trial.now roll.now ended.now }
    requires ready { IsSeatReady trial.now roll.now seat.now }
    requires before { HasLengthsOf (machine_for trial.now) stores.now.before.now }
    requires after { HasLengthsOf (machine_for trial.now) stores.now.after.now }
    requires runs { AreKept trial.now.desc.now runs.old }
    ensures right { let images = trial.now.log.now.images in
        IfOk result (λ b. b ≡ told.is_undisturbed (machine_for trial.now) (conflict_of trial.now.desc.now) stores.now.before.now
        stores.now.after.now
        ended.now.number (seat_in images ended.now).invocation (seat_in images seat.now)) }
    ensures runs { OnOk result (AreKept trial.now.desc.now runs.new) }
{
    if seat.number == ended.number || seat.phase.is(Stage::Queued) {
        return Ok(true);
    }
    if !roll.conflict(trial, ended, seat) {
        return Ok(true);
    }
    if !is_so_far(alloc, trial, roll, runs, seat, stores.before)? {
        return Ok(false);
    }
    is_so_far(alloc, trial, roll, runs, seat, stores.after)
}

/// Whether each one is undisturbed.
fn all_undisturbed<'a>(
    alloc: Global,
    trial: &Trial,
    roll: &ReadyRoll<'a>,
    runs: &mut KeptRuns<'a>,
    stores: &Stores,
    ended: &Seat,
) -> Result<bool, NoMemory>
    requires tried { IsTried trial.now }
    requires ended { IsSeatReady trial.now roll.now ended.now }
    requires ready { All (IsSeatReady trial.now roll.now) roll.now.roll.seats.items }
    requires before { HasLengthsOf (machine_for trial.now) stores.now.before.now }
    requires after { HasLengthsOf (machine_for trial.now) stores.now.after.now }
    requires runs { AreKept trial.now.desc.now runs.old }
    ensures right { let images = trial.now.log.now.images in
        IfOk result (λ b. b ≡ list_all (told.is_undisturbed (machine_for trial.now) (conflict_of trial.now.desc.now) stores.now.before.now
        stores.now.after.now
        ended.now.number (seat_in images ended.now).invocation) (roll_in images roll.now.roll).seats) }
    ensures runs { OnOk result (AreKept trial.now.desc.now runs.new) }
{
    for seat in roll.roll.seats.as_slice() {
        let undisturbed = is_undisturbed(alloc, trial, roll, runs, stores, ended, seat)?;
        if !undisturbed {
            return Ok(false);
        }
    }
    Ok(true)
}

/// Whether a run ended in this way, after the calls of the invocation.
fn ends_so(outcome: &Outcome, how: &End, ended: &Seat) -> bool
    ensures { result ≡ (are_one_end outcome.now.end how.now && are_one_calls outcome.now.calls ended.now.calls) }
{
    same_end(&outcome.end, how) && same_calls(outcome.calls.as_slice(), ended.calls.as_slice())
}

/// Keeps the store, if there is none yet.
fn keep_first(left: &mut Option<Store>, after: Store)
    ensures { left.new ≡ Some (unwrap_or left.old after) }
{
    if left.is_none() {
        *left = Some(after);
    }
}

/// Whether the run of the invocation is right and ends in this way. If it is, and `left` is None, `left` gets the store that the run
/// leaves.
fn ends_right<'a>(
    alloc: Global,
    trial: &Trial,
    roll: &ReadyRoll<'a>,
    runs: &mut KeptRuns<'a>,
    store: &Store,
    how: &End,
    ended: &Seat,
    left: &mut Option<Store>,
) -> Result<bool, NoMemory>
    requires tried { IsTried trial.now }
    requires ended { IsSeatReady trial.now roll.now ended.now }
    requires ready { All (IsSeatReady trial.now roll.now) roll.now.roll.seats.items }
    requires lengths { HasLengthsOf (machine_for trial.now) store.now }
    requires runs { AreKept trial.now.desc.now runs.old }
    ensures right { let images = trial.now.log.now.images in
        let m = machine_for trial.now in
        let test = told.ends_right m (conflict_of trial.now.desc.now) (roll_in images roll.now.roll) store.now ended.now.number how.now
        (seat_in images ended.now) in
        let after = (told.run_on m store.now (seat_in images ended.now).invocation).store in
        IfOk result (λ right. (right ≡ test) × (IsTrue right → (left.new ≡ Some (unwrap_or left.old after)) × HasLengthsOf m after)) }
    ensures runs { OnOk result (AreKept trial.now.desc.now runs.new) }
{
    let outcome = runs.run(alloc, trial, roll, ended, store)?;
    if !ends_so(&outcome, how, ended) {
        return Ok(false);
    }
    let stores = Stores {
        before: store,
        after: &outcome.store,
    };
    let undisturbed = all_undisturbed(alloc, trial, roll, runs, &stores, ended)?;
    if !undisturbed {
        return Ok(false);
    }
    keep_first(left, outcome.store);
    Ok(true)
}

/// Whether the run of the invocation of this number is right and ends in this way. If it is, the store becomes the serial one after it.
pub(crate) fn run_end<'a>(
    alloc: Global,
    trial: &Trial,
    roll: &ReadyRoll<'a>,
    runs: &mut KeptRuns<'a>,
    store: &mut Store,
    number: u32,
    how: &End,
) -> Result<bool, NoMemory>
    requires tried { IsTried trial.now }
    requires ready { All (IsSeatReady trial.now roll.now) roll.now.roll.seats.items }
    requires lengths { HasLengthsOf (machine_for trial.now) store.old }
    requires runs { AreKept trial.now.desc.now runs.old }
    ensures right { let m = machine_for trial.now in
        let x = roll_in trial.now.log.now.images roll.now.roll in
        let test = list_all (told.ends_right m (conflict_of trial.now.desc.now) x store.old number how.now) x.seats in
        IfOk result (λ right. (right ≡ test)
        × (IsTrue right → (store.new ≡ told.store_left m store.old number x.seats) × HasLengthsOf m store.new)) }
    ensures runs { OnOk result (AreKept trial.now.desc.now runs.new) }
{
    let mut left: Option<Store> = None;
    for seat in roll.roll.seats.as_slice() {
        if seat.number == number {
            let right = ends_right(alloc, trial, roll, runs, store, how, seat, &mut left)?;
            if !right {
                return Ok(false);
            }
        }
    }
    if let Some(after) = left {
        *store = after;
    }
    Ok(true)
}
