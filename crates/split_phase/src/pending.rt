//! The pending call of each context.

ghost use Rattle.std.specs.Prelude.{◌≡◌, ◌<◌, map, MatchResult, OnOk, OnErr};
ghost use Rattle.split_phase.specs.Calls.{call_at, gone, AreNone, IsOf, CallBecomes};

use crate::call::Call;
use mate_num::{CONTEXTS_MAX, ContextId, FunId, Payload};
use std::marker::Model;

/// The refusal of an answer: the context waits for none.
#[derive(Clone, Copy)]
pub struct NotWaiting;

/// The calls that wait for an answer. Contracts see a list of `CONTEXTS_MAX` places, one for each context: the function
/// that it called and the call's arguments, or None.
#[derive(Drop)]
pub struct Pending {
    calls: [Option<Call>; CONTEXTS_MAX],
}

impl Model for Pending {
    ghost use Rattle.std.specs.Prelude.{◌≡◌, List, Option, length};
    ghost use Rattle.mate_num.specs.declared.bounds.TheConstants.{CONTEXTS_MAX};
    ghost use Rattle.split_phase.specs.Calls.{Asked};

    ghost Value = { List (Option Asked) };

    ghost view = { λ p. p.calls };

    ghost invariant = { λ p. length p.calls ≡ CONTEXTS_MAX };
}

impl Pending {
    /// No context waits.
    pub fn new() -> Pending
        ensures { AreNone result }
    {
        Pending {
            calls: Default::default(),
        }
    }

    /// The call of `fun` with `args` begins: `ctx` waits for its answer.
    pub fn ask(&mut self, ctx: ContextId, fun: FunId, args: Payload)
        requires context { ctx.0 < CONTEXTS_MAX }
        requires free { call_at self.old ctx ≡ None }
        ensures { CallBecomes self.old self.new ctx (Some (fun, args)) }
    {
        self.calls[ctx.0 as usize] = Some(Call::of(fun, &args));
    }

    /// The answer to the call of `ctx` has come: the result is the function that was called, and `ctx` no longer
    /// waits. `NotWaiting` comes exactly if it doesn't wait.
    pub fn answer(&mut self, ctx: ContextId) -> Result<FunId, NotWaiting>
        requires { ctx.0 < CONTEXTS_MAX }
        ensures answered { MatchResult result (λ fun. IsOf (call_at self.old ctx) fun) (λ _. call_at self.old ctx ≡ None) }
        ensures ok { OnOk result (CallBecomes self.old self.new ctx None) }
        ensures err { OnErr result (self.new ≡ self.old) }
    {
        match self.calls[ctx.0 as usize].take() {
            Some(call) => Ok(call.fun()),
            None => Err(NotWaiting),
        }
    }

    /// The function that `ctx` called and a copy of the arguments; None exactly if it doesn't wait.
    pub fn asked(&self, ctx: ContextId) -> Option<(FunId, Payload)>
        requires { ctx.0 < CONTEXTS_MAX }
        ensures { result ≡ call_at self.now ctx }
    {
        match &self.calls[ctx.0 as usize] {
            Some(call) => Some((call.fun(), call.args())),
            None => None,
        }
    }

    /// All calls are dropped: no context waits any more.
    pub fn cancel(&mut self)
        ensures { AreNone self.new }
    {
        cancel_all(&mut self.calls);
    }
}

/// Drops the calls. What a call had stays in its place, and only that it is gone is written.
fn cancel_all(calls: &mut [Option<Call>])
    ensures { calls.new ≡ map gone calls.old }
{
    for call in calls {
        *call = None;
    }
}
