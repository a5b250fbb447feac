//! Runs of code: its hexadecimal digits, turns, message and the answers to its calls, and then how it ends, and the
//! variables and the buffers that it leaves.

ghost use Rattle.std.specs.Prelude.{IfNone};
ghost use Rattle.code_verifier.specs.Verified.{IsAtVerified};
ghost use Rattle.exec_unit.specs.Step.{HasLengths};

use cases_files::{bytes_of, fault_word};
use code_verifier::{Verified, verify};
use exec_unit::{Machine, StepEnd, resume, step};
use mate_num::Payload;
use node_heap::Heap;
use opcode_gen::table;
use std::alloc::{AllocError, Global};
use vm_shape::Description;

/// More instructions than a run of these executes.
const LONGEST: u32 = 1_000;

pub fn answer(alloc: Global, desc: &Description, case: &str) -> Result<String, AllocError> {
    let mut words = case.split(' ');
    let Some(bytes) = bytes_of(alloc, words.next().unwrap_or(""))? else {
        return "no digits".to_string(alloc);
    };
    let Ok(code) = verify(&table(desc), desc, &bytes) else {
        return "no code".to_string(alloc);
    };
    let Ok(turns) = words.next().unwrap_or("").parse::<u32>() else {
        return "no turns".to_string(alloc);
    };
    let msg = values_of(words.next().unwrap_or("-"));
    let answers = values_of(words.next().unwrap_or("-"));
    outcome(alloc, &code, Machine::new(turns, msg), answers.as_slice())
}

/// The values between commas, at most 10; `-` is none.
fn values_of(text: &str) -> Payload {
    let mut values = Payload::new();
    for word in text.split(',') {
        if let Ok(value) = word.parse::<i16>() {
            let _ = values.try_push(value);
        }
    }
    values
}

fn outcome(
    alloc: Global,
    code: &Verified,
    mut machine: Machine,
    answers: &[i16],
) -> Result<String, AllocError>
    requires { IsAtVerified code.now machine }
{
    let shape = code.shape();
    if shape.shared > 16 || shape.buffers > 8 {
        return "no heap".to_string(alloc);
    }
    let mut heap = Heap::new(shape.shared, shape.buffers);
    let end = run(code, &mut machine, &mut heap, answers);
    let end = end_words(alloc, &end)?;
    let store = heap.store();
    format!(in alloc; "{end} {:?} {:?}", store.shared, store.buffers)
}

fn end_words(alloc: Global, end: &StepEnd) -> Result<String, AllocError> {
    match end {
        StepEnd::Next => "Next".to_string(alloc),
        StepEnd::Ask { fun, args } => {
            format!(in alloc; "Ask {{ fun: FunId({}), args: {args:?} }}", fun.0)
        }
        StepEnd::Halt => "Halt".to_string(alloc),
        StepEnd::Fault(kind) => format!(in alloc; "Fault({})", fault_word(*kind)),
    }
}

fn run(code: &Verified, machine: &mut Machine, heap: &mut Heap, answers: &[i16]) -> StepEnd
    requires fits { IsAtVerified code.now machine.old }
    requires lengths { HasLengths code.now.shape heap.old }
{
    let mut taken = 0;
    'steps: for _ in 0..LONGEST {
        if let Some(end) = go_on(code, machine, heap, answers, &mut taken) {
            return end;
        }
    }
    StepEnd::Next
}

// Steps the machine, and answers the call that it may make. Returns how the run ended.
fn go_on(
    code: &Verified,
    machine: &mut Machine,
    heap: &mut Heap,
    answers: &[i16],
    taken: &mut usize,
) -> Option<StepEnd>
    requires fits { IsAtVerified code.now machine.old }
    requires lengths { HasLengths code.now.shape heap.old }
    ensures fits { IfNone result (IsAtVerified code.now machine.new) }
    ensures lengths { HasLengths code.now.shape heap.new }
{
    match step(code, machine, heap) {
        StepEnd::Next => None,
        StepEnd::Ask { fun, args } => {
            let next = *taken;
            if next >= answers.len() {
                return Some(StepEnd::Ask { fun, args });
            }
            resume(code, machine, answers[next]);
            *taken = next + 1;
            None
        }
        StepEnd::Halt => Some(StepEnd::Halt),
        StepEnd::Fault(kind) => Some(StepEnd::Fault(kind)),
    }
}
