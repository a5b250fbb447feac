//! Live invocations.

ghost use Rattle.std.specs.Prelude.{◌≡◌, ◌==◌, map, OnOk};
ghost use Rattle.std.specs.List.{list_any};
ghost use Rattle.audit_rules.specs.Views.{come_to, seat_answered, answered_at, sits_at, has_context};

use crate::phase::{Phase, Stage};
use crate::roll::InstalledImage;
use mate_num::{Call, Calls, ContextId, HandlerId, NoMemory, Payload, copy_of};

/// A live invocation: its number, handler and context, what was installed for the handler when it was posted, its message, the
/// calls that were answered, and where it stands.
#[derive(Drop)]
pub struct Seat {
    pub number: u32,
    pub handler: HandlerId,
    pub context: ContextId,
    pub held: Option<InstalledImage>,
    pub payload: Payload,
    pub calls: Calls,
    pub phase: Phase,
}

impl Seat {
    /// Answers the call that it waits for, if it waits.
    pub fn answer(&mut self, value: &i16) -> Result<(), NoMemory>
        ensures { OnOk result (self.new ≡ seat_answered value.now self.old) }
    {
        if let Phase::Waiting { fun, args } = &self.phase {
            let call = Call {
                fun: *fun,
                args: copy_of(args),
                result: *value,
            };
            self.calls.push(call)?;
        }
        self.phase = Phase::Ready;
        Ok(())
    }

    /// Puts it into another phase, if it has this number.
    pub fn come_to(&mut self, number: u32, phase: &Phase)
        ensures { self.new ≡ come_to number phase.now self.old }
    {
        if self.number == number {
            self.phase = phase.copy();
        }
    }

    /// Answers the call that it waits for, if it waits and has this number.
    pub fn answer_at(&mut self, number: u32, value: &i16) -> Result<(), NoMemory>
        ensures { OnOk result (self.new ≡ answered_at number value.now self.old) }
    {
        if self.number == number {
            self.answer(value)?;
        }
        Ok(())
    }
}

/// Whether a seat of this number is at this stage.
pub fn is_at(seats: &[Seat], number: u32, stage: Stage) -> bool
    ensures { result ≡ list_any (sits_at number stage) seats.now }
{
    seats
        .iter()
        .any(|s| s.number == number && s.phase.is(stage))
}

/// Whether a seat has the context.
pub fn is_taken(seats: &[Seat], context: ContextId) -> bool
    ensures { result ≡ list_any (has_context context) seats.now }
{
    seats.iter().any(|s| s.context.0 == context.0)
}

/// Puts the seat of this number into another phase.
pub fn move_to(seats: &mut [Seat], number: u32, phase: &Phase)
    ensures { seats.new ≡ map (come_to number phase.now) seats.old }
{
    for seat in seats {
        seat.come_to(number, phase);
    }
}

/// Answers the call that the seat of this number waits for, if it waits.
pub fn answer(seats: &mut [Seat], number: u32, value: &i16) -> Result<(), NoMemory>
    ensures { OnOk result (seats.new ≡ map (answered_at number value.now) seats.old) }
{
    for seat in seats {
        seat.answer_at(number, value)?;
    }
    Ok(())
}
