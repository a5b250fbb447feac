//! Who is held back from starting.

ghost use Rattle.std.specs.Prelude.{◌≡◌, ◌==◌, ◌||◌, not, List, ℕ};
ghost use Rattle.std.specs.List.{All};
ghost use Rattle.arrayvec.specs.ArrayVec.{ArrayVec};
ghost use Rattle.audit_rules.specs.Granting as told;
ghost use Rattle.audit_rules.specs.Roll.{is_queued};
ghost use Rattle.audit_rules.specs.Tests.{conflict_of};
ghost use Rattle.audit_rules.specs.Views.{seat_in, roll_in};
ghost use Rattle.audit_programs.specs.Trials.{IsSeatReady};

use audit_programs::{ReadyRoll, Trial};
use audit_rules::{Seat, Stage};

/// Whether the other comes before this queued one: it is started, or is queued with a lower number.
fn is_ahead(queued: &Seat, other: &Seat) -> bool
    ensures { (images : List (ArrayVec ℕ)) → result ≡ told.is_ahead (seat_in images queued.now) (seat_in images other.now) }
{
    let waits = other.phase.is(Stage::Queued);
    !waits || (other.number < queued.number && waits)
}

/// Whether the other comes before this queued one, and conflicts with it.
fn holds_back(trial: &Trial, roll: &ReadyRoll, queued: &Seat, other: &Seat) -> bool
    requires queued { IsSeatReady trial.now roll.now queued.now }
    requires other { IsSeatReady trial.now roll.now other.now }
    ensures { let images = trial.now.log.now.images in
        result ≡ told.holds_back (conflict_of trial.now.desc.now) (seat_in images queued.now) (seat_in images other.now) }
{
    is_ahead(queued, other) && roll.conflict(trial, queued, other)
}

/// Whether another one comes before this queued one and conflicts with it.
fn is_held_back(trial: &Trial, roll: &ReadyRoll, queued: &Seat) -> bool
    requires queued { IsSeatReady trial.now roll.now queued.now }
    requires ready { All (IsSeatReady trial.now roll.now) roll.now.roll.seats.items }
    ensures { let images = trial.now.log.now.images in
        result ≡ told.is_held_back (conflict_of trial.now.desc.now) (roll_in images roll.now.roll) (seat_in images queued.now) }
{
    for other in roll.roll.seats.as_slice() {
        if holds_back(trial, roll, queued, other) {
            return true;
        }
    }
    false
}

/// Whether it is held back; true of one that isn't queued.
fn waits_rightly(trial: &Trial, roll: &ReadyRoll, seat: &Seat) -> bool
    requires seat { IsSeatReady trial.now roll.now seat.now }
    requires ready { All (IsSeatReady trial.now roll.now) roll.now.roll.seats.items }
    ensures { let images = trial.now.log.now.images in
        result ≡ (not (is_queued (seat_in images seat.now).invocation.phase)
        || told.is_held_back (conflict_of trial.now.desc.now) (roll_in images roll.now.roll) (seat_in images seat.now)) }
{
    !seat.phase.is(Stage::Queued) || is_held_back(trial, roll, seat)
}

/// Whether it isn't held back; true of one with another number.
fn starts_rightly(trial: &Trial, roll: &ReadyRoll, seat: &Seat, number: u32) -> bool
    requires seat { IsSeatReady trial.now roll.now seat.now }
    requires ready { All (IsSeatReady trial.now roll.now) roll.now.roll.seats.items }
    ensures { let images = trial.now.log.now.images in
        result ≡ (not (seat.now.number == number)
        || not (told.is_held_back (conflict_of trial.now.desc.now) (roll_in images roll.now.roll) (seat_in images seat.now))) }
{
    seat.number != number || !is_held_back(trial, roll, seat)
}

/// Whether each queued one is held back.
pub fn all_held_back(trial: &Trial, roll: &ReadyRoll) -> bool
    requires { All (IsSeatReady trial.now roll.now) roll.now.roll.seats.items }
    ensures { result ≡ told.all_held_back (conflict_of trial.now.desc.now) (roll_in trial.now.log.now.images roll.now.roll) }
{
    for seat in roll.roll.seats.as_slice() {
        if !waits_rightly(trial, roll, seat) {
            return false;
        }
    }
    true
}

/// Whether nobody of this number is held back.
pub(crate) fn is_free_to_start(trial: &Trial, roll: &ReadyRoll, number: u32) -> bool
    requires { All (IsSeatReady trial.now roll.now) roll.now.roll.seats.items }
    ensures { result ≡ told.is_free_to_start (conflict_of trial.now.desc.now) (roll_in trial.now.log.now.images roll.now.roll) number }
{
    for seat in roll.roll.seats.as_slice() {
        if !starts_rightly(trial, roll, seat, number) {
            return false;
        }
    }
    true
}
