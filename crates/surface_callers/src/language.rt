//! TinyScript: from the bytes of a source to the code of a capsule, and what the source means.

ghost use Rattle.std.specs.Prelude.{◌≡◌, ◌≤◌, length};
ghost use Rattle.mate_files.specs.declared.files.TheConstants.{FILE_MAX};
ghost use Rattle.ts_checked.specs.Checked.{checked_shape};
ghost use Rattle.vm_shape.specs.Shapes.{shape_of};

use mate_files::{Sink, SinkFault};
use mate_num::{Code, End, NoMemory, Payload, Store};
use opcode_gen::table;
use std::alloc::Global;
use ts_checker::{CheckFault, check};
use ts_compiler::{CompileFault, compile};
use ts_fold::fold;
use ts_meaning::{Calls, Played, play};
use ts_parser::{SourceFault, parse, tokens};
use ts_syntax::{Checked, Script, Tokens, print};
use vm_desc::Description;

/// Why a source gives no code.
pub enum Refused {
    Source(SourceFault),
    Check(CheckFault),
    Code(CompileFault),
    NoMemory,
}

/// The tree of a source.
pub fn read(alloc: Global, bytes: &[u8]) -> Result<Script, SourceFault>
    requires { length bytes.now ≤ FILE_MAX }
{
    let tokens: Tokens = tokens(alloc, bytes)?;
    parse(alloc, &tokens, bytes.len() as u32)
}

/// The place at which a source is refused.
pub fn place_of(fault: SourceFault) -> Option<u32> {
    match fault {
        SourceFault::BadByte { place }
        | SourceFault::BigLiteral { place }
        | SourceFault::Unexpected { place }
        | SourceFault::TooDeep { place } => Some(place),
        SourceFault::NoMemory => None,
    }
}

/// The place at which the checks refuse a tree, if they name one.
pub fn refused_at(fault: CheckFault) -> Option<u32> {
    match fault {
        CheckFault::Undeclared { name: _, place } => Some(place),
        CheckFault::Kind { place } | CheckFault::Arity { place } => Some(place),
        CheckFault::NotInVm { name: _ } | CheckFault::Twice { name: _ } => None,
        CheckFault::TooManyPrivates | CheckFault::NoMemory => None,
    }
}

/// The code of a source on a machine, folded first.
pub fn compiled(alloc: Global, desc: &Description, bytes: &[u8]) -> Result<Code, Refused>
    requires { length bytes.now ≤ FILE_MAX }
{
    let script = match read(alloc, bytes) {
        Ok(script) => script,
        Err(fault) => return Err(Refused::Source(fault)),
    };
    let checked: Checked = match check(alloc, desc, &script) {
        Ok(checked) => checked,
        Err(fault) => return Err(Refused::Check(fault)),
    };
    let Ok(folded) = fold(alloc, &checked) else {
        return Err(Refused::NoMemory);
    };
    code_of(desc, &folded)
}

fn code_of(desc: &Description, script: &Checked) -> Result<Code, Refused>
    requires { checked_shape script.now ≡ shape_of desc.now }
{
    match compile(&table(desc), script) {
        Ok(code) => Ok(code),
        Err(fault) => Err(Refused::Code(fault)),
    }
}

/// How much too large a source's code is: the stack that it needs, or its bytes.
pub fn excess_of(fault: CompileFault) -> u32 {
    match fault {
        CompileFault::StackDepth { need } => need,
        CompileFault::TooLong { size } => size,
    }
}

/// Prints a tree as a source.
pub fn printed<S: Sink>(script: &Script, out: &mut S) -> Result<(), SinkFault> {
    print(script, out)
}

/// How many functions a script calls on a store, and whether it halts.
pub fn calls_of(
    alloc: Global,
    script: &Checked,
    store: &Store,
    message: &Payload,
    answers: &[i16],
) -> Result<(usize, bool), NoMemory> {
    let played: Played = play(alloc, script, store, message, answers, 1000)?;
    let Played {
        end,
        store: _,
        calls,
    } = played;
    let calls: Calls = calls;
    let halts = match end {
        End::Halt => true,
        End::Fault(_) => false,
        End::Wants { fun: _, args: _ } => false,
    };
    Ok((calls.len(), halts))
}
