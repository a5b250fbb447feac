//! A run of a program that is kept where it stands, to go on from there.

ghost use Rattle.std.specs.Prelude.{◌≡◌, ◌∷◌, ◌++◌, [], length, take, Bool, ℤ, List, IsTrue, IfOk, MatchBool, OnOk};
ghost use Rattle.code_verifier.specs.Verified.{VerifiedCode, IsVerifiedCode};
ghost use Rattle.mate_code.specs.Effect.{push};
ghost use Rattle.exec_unit.specs.Step.{HasLengths, Waits};
ghost use Rattle.exec_unit.specs.declared.step_end.StepEnd.TheVariants as stands;
ghost use Rattle.mate_num.specs.declared.call.End.TheVariants.{Wants};
ghost use Rattle.mate_num.specs.declared.store.Store.{Store as Values};
ghost use Rattle.audit_programs.specs.Kept.{answers_to, end_at, outcome_in, AnswersIf, HasCaughtUp, HasGoneOn, IsBehind, IsRunOf, IsRunWith, Serves};

use crate::filling::heap_of;
use code_runs::run;
use code_verifier::Verified;
use exec_unit::{Machine, StepEnd, resume};
use mate_journal::StoredProgram;
use mate_num::{CODE_MAX, Call, Calls, End, FunId, NoMemory, Outcome, Payload, Store, copy_of};
use node_heap::Heap;
use std::alloc::Global;

/// A run of a program: on which store and with which message it began, the calls that were answered, and where it
/// stands: at its next instruction, at a call, or at its end.
#[derive(Drop)]
pub struct KeptRun<'a> {
    pub(crate) program: &'a StoredProgram,
    pub(crate) payload: Payload,
    pub(crate) base: Store,
    pub(crate) machine: Machine,
    pub(crate) heap: Heap,
    pub(crate) calls: Calls,
    pub(crate) how: StepEnd,
}

/// How a run ends that stands so.
fn end_of(how: &StepEnd) -> End
    requires { how.now ≡ stands.Next → ⊥ }
    ensures { result ≡ end_at how.now }
{
    match how {
        StepEnd::Next => unreachable!(),
        StepEnd::Ask { fun, args } => wanting(*fun, args),
        StepEnd::Halt => End::Halt,
        StepEnd::Fault(kind) => End::Fault(*kind),
    }
}

/// The end of a run that waits for the answer to this call.
fn wanting(fun: FunId, args: &Payload) -> End
    ensures { result ≡ Wants fun args.now }
{
    End::Wants {
        fun,
        args: copy_of(args),
    }
}

/// Appends the answered call to the list.
fn list(calls: &mut Calls, fun: FunId, args: &Payload, value: &i16) -> Result<(), NoMemory>
    ensures { OnOk result (calls.new ≡ calls.old ++ record { fun = fun; args = args.now; result = value.now } ∷ []) }
{
    calls.push(Call {
        fun,
        args: copy_of(args),
        result: *value,
    })
}

/// Gives the machine the answer.
fn give(code: &Verified, machine: &mut Machine, value: &i16)
    requires { Waits code.now machine.old }
    ensures { machine.new ≡ push value.now machine.old }
{
    resume(code, machine, *value);
}

/// Whether a run goes on that stands so.
fn goes_on(how: &StepEnd) -> bool
    ensures { MatchBool result (how.now ≡ stands.Next) (how.now ≡ stands.Next → ⊥) }
{
    match how {
        StepEnd::Next => true,
        StepEnd::Ask { fun: _, args: _ } => false,
        StepEnd::Halt => false,
        StepEnd::Fault(_) => false,
    }
}

/// Whether the two values are the same.
fn same_value(a: &i16, b: &i16) -> bool
    ensures { IsTrue result → a.now ≡ b.now }
{
    *a == *b
}

/// Whether the values are the same.
pub(crate) fn same_values(a: &[i16], b: &[i16]) -> bool
    ensures { IsTrue result → a.now ≡ b.now }
{
    if a.len() != b.len() {
        return false;
    }
    for i in 0..a.len() {
        if a[i] != b[i] {
            return false;
        }
    }
    true
}

/// Whether the first of the calls have the answers of these.
fn took(first: &[Call], calls: &[Call]) -> bool
    ensures { IsTrue result → answers_to first.now ≡ take (length first.now) (answers_to calls.now) }
{
    if calls.len() < first.len() {
        return false;
    }
    for i in 0..first.len() {
        if !same_value(&first[i].result, &calls[i].result) {
            return false;
        }
    }
    true
}

impl<'a> KeptRun<'a> {
    /// A run that begins.
    pub fn begin(
        alloc: Global,
        program: &'a StoredProgram,
        store: &Store,
        payload: &Payload,
        turns: u32,
    ) -> KeptRun<'a>
        ensures program { result.program.now ≡ program.now }
        ensures same { (result.payload ≡ payload.now) × (result.base ≡ store.now) × (result.calls ≡ []) }
        ensures run { (v : VerifiedCode) → IsVerifiedCode v → HasLengths v.shape store.now → IsRunOf v.shape v.code turns result }
    {
        KeptRun {
            program,
            payload: copy_of(payload),
            base: store.copy(),
            machine: Machine::new(turns, copy_of(payload)),
            heap: heap_of(store),
            calls: Calls::new(alloc),
            how: StepEnd::Next,
        }
    }

    /// Executes instructions until one calls a function or ends the run, if the run goes on.
    pub fn go_on(&mut self, code: &Verified, turns: u32)
        requires { IsRunOf code.now.shape code.now.code turns self.old }
        ensures run { IsRunOf code.now.shape code.now.code turns self.new }
        ensures moves { HasGoneOn self.old self.new }
        ensures stops { self.new.how ≡ stands.Next → ⊥ }
    {
        let _verified = code.shape();
        if !goes_on(&self.how) {
            return;
        }
        let mut left = (u64::from(turns) + 1) * (CODE_MAX as u64) + 1;
        'instructions: while left > 0 {
            let ran = run(code, &mut self.machine, &mut self.heap, u32::MAX);
            left -= u64::from(ran.instructions);
            if !goes_on(&ran.how) {
                self.how = ran.how;
                return;
            }
        }
        unreachable!()
    }

    /// Answers the call at which the run stands. Whether it stands at one.
    fn answer(&mut self, code: &Verified, turns: u32, value: &i16) -> Result<bool, NoMemory>
        requires { IsRunOf code.now.shape code.now.code turns self.old }
        ensures { IfOk result (λ (b : Bool). AnswersIf code.now.shape code.now.code turns b self.old value.now self.new) }
    {
        let _verified = code.shape();
        let _turns = turns;
        let StepEnd::Ask { fun, args } = &self.how else {
            return Ok(false);
        };
        list(&mut self.calls, *fun, args, value)?;
        give(code, &mut self.machine, value);
        self.how = StepEnd::Next;
        Ok(true)
    }

    /// Takes the answers to these calls that it didn't take yet, unless it ends before.
    pub fn catch_up(&mut self, code: &Verified, turns: u32, calls: &[Call]) -> Result<(), NoMemory>
        requires run { IsRunOf code.now.shape code.now.code turns self.old }
        requires behind { IsBehind (answers_to calls.now) self.old }
        ensures { OnOk result (HasCaughtUp code.now.shape code.now.code turns (answers_to calls.now) self.old self.new) }
    {
        for i in self.calls.len()..calls.len() {
            self.go_on(code, turns);
            if !self.answer(code, turns, &calls[i].result)? {
                return Ok(());
            }
        }
        Ok(())
    }

    /// Whether it is a run of this program with this message, and took answers to the first of these calls.
    pub fn serves(&self, program: &StoredProgram, payload: &Payload, calls: &[Call]) -> bool
        ensures { IsTrue result → Serves program.now.image payload.now (answers_to calls.now) self.now }
    {
        let own = self.program;
        if program.image.as_slice() != own.image.as_slice() {
            return false;
        }
        if !same_values(payload.as_slice(), self.payload.as_slice()) {
            return false;
        }
        took(self.calls.as_slice(), calls)
    }

    /// What the run gives that stands at a call or at its end.
    pub fn outcome(self) -> Outcome
        requires { self.how ≡ stands.Next → ⊥ }
        ensures { result ≡ outcome_in self.entry }
    {
        Outcome {
            end: end_of(&self.how),
            store: self.heap.store(),
            calls: self.calls,
        }
    }
}
