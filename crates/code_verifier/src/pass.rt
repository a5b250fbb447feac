//! The pass over decoded code, with a depth of the stack at each place.

ghost use Rattle.std.specs.Prelude.{◌≡◌, ◌<◌, ◌≤◌, ◌+◌, length, IsTrue};
ghost use Rattle.mate_code.specs.Instr.{size_of};
ghost use Rattle.mate_code.specs.Run.{size_of_code};
ghost use Rattle.mate_code.specs.Verification.{AreFrom, has_target, has_direction, has_back_depth, marks_after};
ghost use Rattle.mate_num.specs.declared.bounds.TheConstants.{CODE_MAX};
ghost use Rattle.code_verifier.specs.Flows.{IsTargetBelow};
ghost use Rattle.code_verifier.specs.Marks.{marks_in};
ghost use Rattle.code_verifier.specs.Pass.{PassGives, CheckGives};

use crate::marks::{Mark, begin, depth, give};
use crate::placed::Placed;
use mate_code::{Flow, Instr, VerifyFault};
use mate_num::{STACK_MAX, Shape};

/// Goes over the instructions by their places, with marks that it begins anew. Answers the first refusal, and else whether
/// the last instruction halts.
pub fn pass(shape: &Shape, code: &Placed, marks: &mut [Mark]) -> Result<bool, VerifyFault>
    requires from { AreFrom 0 code.now }
    requires fits { size_of_code code.now ≤ CODE_MAX }
    requires marks { size_of_code code.now < length marks.old }
    ensures { PassGives shape.now code.now result }
{
    begin(marks);
    let mut place: u16 = 0;
    let mut ends = false;
    'instrs: while let Some(instr) = code.get(place) {
        check_instr(shape, code, marks, place, instr)?;
        ends = instr.flow().is_end();
        place += instr.size() as u16;
    }
    Ok(ends)
}

// Checks one instruction, and gives the depth after it to where it goes on.
fn check_instr(
    shape: &Shape,
    code: &Placed,
    marks: &mut [Mark],
    place: u16,
    instr: Instr,
) -> Result<(), VerifyFault>
    requires from { AreFrom 0 code.now }
    requires room { place + size_of instr ≤ size_of_code code.now }
    requires marks { size_of_code code.now < length marks.old }
    ensures { CheckGives shape.now code.now place instr (marks_in marks.old) result (marks_in marks.new) }
{
    let at = place as u32;
    let flow = instr.flow();
    if matches!(marks[place as usize], Mark::Clash) {
        return Err(VerifyFault::DepthDiffers { place: at });
    }
    if !instr.is_in_range(shape) {
        return Err(VerifyFault::BadIndex { place: at });
    }
    if !has_target(code, flow) {
        return Err(VerifyFault::BadTarget { place: at });
    }
    if !has_direction(place, flow) {
        return Err(VerifyFault::BackJump { place: at });
    }
    let before = depth(marks, place as usize);
    let taken = instr.pops(shape);
    if before < taken {
        return Err(VerifyFault::Underflow { place: at });
    }
    let after = (before - taken) as u16 + instr.pushes() as u16;
    if after as usize > STACK_MAX {
        return Err(VerifyFault::Overflow { place: at });
    }
    let after = after as u8;
    if !has_back_depth(marks, after, flow) {
        return Err(VerifyFault::DepthDiffers { place: at });
    }
    give_on(marks, flow, place as usize + instr.size(), after);
    Ok(())
}

// Whether the target, if there is one, is an instruction's start.
fn has_target(code: &Placed, flow: Flow) -> bool
    ensures value { result ≡ has_target code.now flow }
    ensures below { AreFrom 0 code.now → IsTrue result → IsTargetBelow (size_of_code code.now) flow }
{
    match flow {
        Flow::Next | Flow::Ends => true,
        Flow::Branches(target) | Flow::Jumps(target) | Flow::Returns(target) => code.is_start(
            target,
        ),
    }
}

// Whether the target lies forward, or that of a going back doesn't.
fn has_direction(place: u16, flow: Flow) -> bool
    ensures { result ≡ has_direction place flow }
{
    match flow {
        Flow::Next | Flow::Ends => true,
        Flow::Branches(target) | Flow::Jumps(target) => place < target,
        Flow::Returns(target) => target <= place,
    }
}

// Whether the target of a going back has this depth.
fn has_back_depth(marks: &[Mark], after: u8, flow: Flow) -> bool
    ensures { result ≡ has_back_depth (marks_in marks.now) after flow }
{
    match flow {
        Flow::Next | Flow::Ends | Flow::Branches(_) | Flow::Jumps(_) => true,
        Flow::Returns(target) => depth(marks, target as usize) == after,
    }
}

// Gives the depth to the next place and to the target of a jump forward.
fn give_on(marks: &mut [Mark], flow: Flow, next: usize, after: u8)
    requires target { IsTargetBelow (length marks.old) flow }
    requires next { next < length marks.old }
    ensures { marks_in marks.new ≡ marks_after flow next after (marks_in marks.old) }
{
    match flow {
        Flow::Next => give(marks, next, after),
        Flow::Branches(target) => {
            give(marks, target as usize, after);
            give(marks, next, after);
        }
        Flow::Jumps(target) => give(marks, target as usize, after),
        Flow::Ends | Flow::Returns(_) => {}
    }
}
