//! The laws of runs along a journal: serial replay, stores seen and the grant rule.

ghost use Rattle.std.specs.Prelude.{◌≡◌, ◌&&◌, length, Some, None, IfOk, OnOk, if◌then◌else◌};
ghost use Rattle.std.specs.List.{All};
ghost use Rattle.mate_journal.specs.Journal.{journal_entry};
ghost use Rattle.journal_laws.specs.Growth.{IsNamedBelow};
ghost use Rattle.audit_rules.specs.Granting as grant;
ghost use Rattle.audit_rules.specs.Shown as seen;
ghost use Rattle.audit_rules.specs.Shown.{HasLengthsOf};
ghost use Rattle.audit_programs.specs.Trials.{IsTried, HasReadUpTo, HasKept, IsSeatReady, machine_for};
ghost use Rattle.audit_rules.specs.Views.{roll_in};
ghost use Rattle.mate_journal.specs.declared.law.Law.TheVariants as law;
ghost use Rattle.audit_rules.specs.Tests.{conflict_of, failed_by};
ghost use Rattle.audit_programs.specs.Kept.{AreKept};

use crate::{all_held_back, all_so_far, is_granted, run_at, shows_right, start_of, zero_store};
use audit_programs::{KeptRuns, ReadyRoll, Trial};
use audit_rules::Law;
use mate_journal::Entry;
use mate_num::{NoMemory, Store};
use std::alloc::Global;

/// Whether each store that was seen so far is right, with that of this entry.
fn still_shown<'a>(
    alloc: Global,
    trial: &Trial,
    roll: &ReadyRoll<'a>,
    runs: &mut KeptRuns<'a>,
    store: &Store,
    so_far: bool,
    entry: &Entry,
) -> Result<bool, NoMemory>
    requires tried { IsTried trial.now }
    requires ready { All (IsSeatReady trial.now roll.now) roll.now.roll.seats.items }
    requires lengths { HasLengthsOf (machine_for trial.now) store.now }
    requires named { let l = trial.now.log.now in
        IsNamedBelow (length l.images) (length l.stores) entry.now }
    requires runs { AreKept trial.now.desc.now runs.old }
    ensures shown { let l = trial.now.log.now in
        IfOk result (λ b. b ≡ (so_far
        && seen.shows_right (machine_for trial.now) (roll_in l.images roll.now.roll) store.now (journal_entry l entry.now))) }
    ensures runs { OnOk result (AreKept trial.now.desc.now runs.new) }
{
    if !so_far {
        return Ok(false);
    }
    shows_right(alloc, trial, roll, runs, store, entry)
}

/// Whether each entry so far keeps the grant rule, and this one too.
fn still_granted(
    trial: &Trial,
    roll: &ReadyRoll,
    place: usize,
    last: u32,
    so_far: bool,
    entry: &Entry,
) -> bool
    requires { HasReadUpTo trial.now place roll.now }
    ensures { let l = trial.now.log.now in
        result ≡ (so_far && grant.is_granted (conflict_of trial.now.desc.now) (roll_in l.images roll.now.roll)
        last (journal_entry l entry.now)) }
{
    so_far && is_granted(trial, roll, place, last, entry)
}

/// The first law that a log fails whose entries follow one another and whose installs are of the programs. The journal is read once:
/// if serial replay fails, no later law matters; whether the others hold so far is kept to the end.
pub(crate) fn first_failed_of<'a>(
    alloc: Global,
    trial: &Trial<'a>,
    roll: &mut ReadyRoll<'a>,
    runs: &mut KeptRuns<'a>,
) -> Result<Option<Law>, NoMemory>
    requires tried { IsTried trial.now }
    requires kept { HasKept trial.now.desc.now roll.old }
    requires runs { AreKept trial.now.desc.now runs.old }
    ensures law { IfOk result (λ law. law ≡ failed_by trial.now.desc.now trial.now.programs.now trial.now.log.now) }
    ensures kept { OnOk result (HasKept trial.now.desc.now roll.new) }
    ensures runs { OnOk result (AreKept trial.now.desc.now runs.new) }
{
    roll.begin(alloc, trial);
    let mut store = zero_store(trial.desc);
    let mut last = 0;
    let mut shown = true;
    let mut granted = true;
    let entries = trial.log.entries();
    for place in 0..entries.len() {
        let entry = &entries[place].entry;
        shown = still_shown(alloc, trial, roll, runs, &store, shown, entry)?;
        granted = still_granted(trial, roll, place, last, granted, entry);
        if !run_at(alloc, trial, roll, runs, place, &mut store, entry)? {
            return Ok(Some(Law::D8));
        }
        roll.hear(alloc, trial, place)?;
        last = start_of(entry);
    }
    if !all_so_far(alloc, trial, roll, runs, &store)? {
        return Ok(Some(Law::D8));
    }
    let in_order = granted && all_held_back(trial, roll);
    Ok(law_behind(shown, in_order))
}

/// The first law that fails if serial replay holds.
fn law_behind(shown: bool, granted: bool) -> Option<Law>
    ensures { result ≡ (if shown then (if granted then None else Some law.D10) else Some law.D9) }
{
    if !shown {
        Some(Law::D9)
    } else if !granted {
        Some(Law::D10)
    } else {
        None
    }
}
