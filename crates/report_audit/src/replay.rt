//! Serial replay at one entry of a journal.

ghost use Rattle.std.specs.Prelude.{◌≡◌, length, IfOk, IsTrue, OnOk};
ghost use Rattle.std.specs.List.{list_all};
ghost use Rattle.mate_num.specs.Store.{zero_store as zeros};
ghost use Rattle.mate_journal.specs.Journal.{journal_entry};
ghost use Rattle.audit_rules.specs.Rerun as told;
ghost use Rattle.audit_rules.specs.Shown.{HasLengthsOf};
ghost use Rattle.audit_rules.specs.Tests.{conflict_of};
ghost use Rattle.audit_rules.specs.Views.{roll_in};
ghost use Rattle.audit_programs.specs.Trials.{IsTried, HasReadUpTo, machine_for};
ghost use Rattle.audit_programs.specs.Kept.{AreKept};

use crate::ending::run_end;
use crate::rerun::all_so_far;
use audit_programs::{KeptRuns, ReadyRoll, Trial};
use mate_journal::Entry;
use mate_num::{End, NoMemory, Store};
use node_heap::Heap;
use std::alloc::Global;
use vm_shape::Description;

/// The store at the beginning of an era.
pub fn zero_store(desc: &Description) -> Store
    ensures { result ≡ zeros (length desc.now.shared.items) (length desc.now.buffers.items) }
{
    Heap::new(desc.shared.len() as u8, desc.buffers.len() as u8).store()
}

/// Whether each started invocation makes its calls so far. If so, the store becomes that at the beginning of the next era.
fn end_era<'a>(
    alloc: Global,
    trial: &Trial,
    roll: &ReadyRoll<'a>,
    runs: &mut KeptRuns<'a>,
    place: usize,
    store: &mut Store,
) -> Result<bool, NoMemory>
    requires tried { IsTried trial.now }
    requires read { HasReadUpTo trial.now place roll.now }
    requires lengths { HasLengthsOf (machine_for trial.now) store.old }
    requires runs { AreKept trial.now.desc.now runs.old }
    ensures right { let m = machine_for trial.now in
        let test = told.all_so_far m (roll_in trial.now.log.now.images roll.now.roll) store.old in
        IfOk result (λ right. (right ≡ test) × (IsTrue right → store.new ≡ m.zero_store)) }
    ensures runs { OnOk result (AreKept trial.now.desc.now runs.new) }
{
    let _place = place;
    if !all_so_far(alloc, trial, roll, runs, store)? {
        return Ok(false);
    }
    *store = zero_store(trial.desc);
    Ok(true)
}

/// Whether the invocation of this number rightly ended in this way. If so, the store becomes the serial one after it.
fn end_at<'a>(
    alloc: Global,
    trial: &Trial,
    roll: &ReadyRoll<'a>,
    runs: &mut KeptRuns<'a>,
    place: usize,
    store: &mut Store,
    number: u32,
    how: &End,
) -> Result<bool, NoMemory>
    requires tried { IsTried trial.now }
    requires read { HasReadUpTo trial.now place roll.now }
    requires lengths { HasLengthsOf (machine_for trial.now) store.old }
    requires runs { AreKept trial.now.desc.now runs.old }
    ensures right { let m = machine_for trial.now in
        let x = roll_in trial.now.log.now.images roll.now.roll in
        let test = list_all (told.ends_right m (conflict_of trial.now.desc.now) x store.old number how.now) x.seats in
        IfOk result (λ right. (right ≡ test)
        × (IsTrue right → (store.new ≡ told.store_left m store.old number x.seats) × HasLengthsOf m store.new)) }
    ensures runs { OnOk result (AreKept trial.now.desc.now runs.new) }
{
    let _place = place;
    run_end(alloc, trial, roll, runs, store, number, how)
}

/// Whether the runs at the entry are right. If so, the store becomes the serial one after it.
pub fn run_at<'a>(
    alloc: Global,
    trial: &Trial,
    roll: &ReadyRoll<'a>,
    runs: &mut KeptRuns<'a>,
    place: usize,
    store: &mut Store,
    entry: &Entry,
) -> Result<bool, NoMemory>
    requires tried { IsTried trial.now }
    requires read { HasReadUpTo trial.now place roll.now }
    requires lengths { HasLengthsOf (machine_for trial.now) store.old }
    requires runs { AreKept trial.now.desc.now runs.old }
    ensures right { let l = trial.now.log.now in
        let m = machine_for trial.now in
        let x = roll_in l.images roll.now.roll in
        let test = told.runs_right m (conflict_of trial.now.desc.now) x store.old (journal_entry l entry.now) in
        IfOk result (λ right. (right ≡ test) × (IsTrue right
        → (store.new ≡ told.serial_after m x store.old (journal_entry l entry.now)) × HasLengthsOf m store.new)) }
    ensures runs { OnOk result (AreKept trial.now.desc.now runs.new) }
{
    match entry {
        Entry::Halt { inv } => end_at(alloc, trial, roll, runs, place, store, *inv, &End::Halt),
        Entry::Fault { inv, kind } => end_at(
            alloc,
            trial,
            roll,
            runs,
            place,
            store,
            *inv,
            &End::Fault(*kind),
        ),
        Entry::Install { .. } => end_era(alloc, trial, roll, runs, place, store),
        Entry::Reset => end_era(alloc, trial, roll, runs, place, store),
        _ => Ok(true),
    }
}
