//! What a node asks of all its handlers at each event, kept together with their states.

ghost use Rattle.std.specs.Prelude.{◌≤◌, length};
ghost use Rattle.mate_num.specs.declared.bounds.TheConstants.{HANDLERS_MAX};
ghost use Rattle.capsule_exchange.specs.Summary.{IsSummaryOf};

use crate::handler_state::HandlerState;
use crate::handlers::{any_marked, held_versions};
use arrayvec::ArrayVec;
use mate_num::HANDLERS_MAX;

/// What the states of all handlers say together.
#[derive(Drop)]
pub struct Summary {
    /// The versions that are held.
    pub(crate) held: ArrayVec<u32, HANDLERS_MAX>,
    /// Whether a fragment is marked.
    pub(crate) owes: bool,
}

impl Summary {
    /// What these states say.
    pub(crate) fn of(states: &[HandlerState]) -> Summary
        requires { length states.now ≤ HANDLERS_MAX }
        ensures { IsSummaryOf states.now result }
    {
        Summary {
            held: held_versions(states),
            owes: any_marked(states),
        }
    }
}
