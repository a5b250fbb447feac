//! What each instruction does with a machine and a heap.

ghost use Rattle.std.specs.Prelude.{◌≤◌, ◌+◌, ◌-◌, IsTrue};
ghost use Rattle.mate_code.specs.Flow.{pops_of, pushes_of, is_in_range};
ghost use Rattle.mate_code.specs.Instr.{size_of};
ghost use Rattle.mate_num.specs.declared.bounds.TheConstants.{CODE_MAX, STACK_MAX};
ghost use Rattle.exec_unit.specs.Follows.{Acts};
ghost use Rattle.exec_unit.specs.Machine.{private_in};
ghost use Rattle.exec_unit.specs.Step.{HasLengths};

use crate::operands::{
    divide, drop_top, get_message_item, get_message_size, get_private, give, go_back, jump,
    jump_at_zero, on_one, on_two, set_private,
};
use crate::registers::{Memory, Registers};
use crate::shared::{
    append, clear, get_item, get_size, get_variable, set_item, set_variable, take,
};
use crate::step_end::{Act, PlainEnd};
use mate_code::Instr;
use mate_num::{Num16, Shape};
use node_heap::Heap;

/// Does the instruction at the registers' place, unless it calls a function. Each arm adds its own number of bytes to
/// the place, so that the next place doesn't wait for anything that is read from the code.
#[inline(always)]
pub fn act(
    shape: &Shape,
    instr: &Instr,
    registers: &mut Registers,
    memory: &mut Memory,
    heap: &mut Heap,
) -> Act
    requires operands { pops_of shape.now instr.now ≤ registers.old.depth }
    requires room { registers.old.depth - pops_of shape.now instr.now + pushes_of instr.now ≤ STACK_MAX }
    requires names { IsTrue (is_in_range shape.now instr.now) }
    requires lengths { HasLengths shape.now heap.old }
    requires within { registers.old.place + size_of instr.now ≤ CODE_MAX }
    ensures { Acts result shape.now instr.now registers.old.place (private_in registers.old memory.old) heap.old
        (private_in registers.new memory.new) heap.new }
{
    match *instr {
        Instr::Halt => Act::Done(PlainEnd::Halt),
        Instr::PushW(value) => Act::Done(give(registers.past(3), memory, value)),
        Instr::PushB(value) => Act::Done(give(registers.past(2), memory, i16::from(value))),
        Instr::GetS(variable) => Act::Done(get_variable(registers.past(2), memory, heap, variable)),
        Instr::SetS(variable) => Act::Done(set_variable(registers.past(2), memory, heap, variable)),
        Instr::GetP(private) => Act::Done(get_private(registers.past(2), memory, private)),
        Instr::SetP(private) => Act::Done(set_private(registers.past(2), memory, private)),
        Instr::Add => Act::Done(on_two(registers.past(1), memory, Num16::add)),
        Instr::Sub => Act::Done(on_two(registers.past(1), memory, Num16::sub)),
        Instr::Mul => Act::Done(on_two(registers.past(1), memory, Num16::mul)),
        Instr::Div => Act::Done(divide(registers.past(1), memory, Num16::div)),
        Instr::Mod => Act::Done(divide(registers.past(1), memory, Num16::rem)),
        Instr::Neg => Act::Done(on_one(registers.past(1), memory, Num16::neg)),
        Instr::Not => Act::Done(on_one(registers.past(1), memory, Num16::not)),
        Instr::And => Act::Done(on_two(registers.past(1), memory, Num16::and)),
        Instr::Or => Act::Done(on_two(registers.past(1), memory, Num16::or)),
        Instr::Eq => Act::Done(on_two(registers.past(1), memory, Num16::eq)),
        Instr::Ne => Act::Done(on_two(registers.past(1), memory, Num16::ne)),
        Instr::Lt => Act::Done(on_two(registers.past(1), memory, Num16::lt)),
        Instr::Gt => Act::Done(on_two(registers.past(1), memory, Num16::gt)),
        Instr::Le => Act::Done(on_two(registers.past(1), memory, Num16::le)),
        Instr::Ge => Act::Done(on_two(registers.past(1), memory, Num16::ge)),
        Instr::Jz(place) => Act::Done(jump_at_zero(registers.past(3), memory, place)),
        Instr::Jmp(place) => Act::Done(jump(registers.past(3), memory, place)),
        Instr::Back(place) => Act::Done(go_back(registers.past(3), memory, place)),
        Instr::Drop => Act::Done(drop_top(registers.past(1), memory)),
        Instr::MsgGet => Act::Done(get_message_item(registers.past(1), memory)),
        Instr::MsgSize => Act::Done(get_message_size(registers.past(1), memory)),
        Instr::BGet(buffer) => Act::Done(get_item(registers.past(2), memory, heap, buffer)),
        Instr::BSet(buffer) => Act::Done(set_item(registers.past(2), memory, heap, buffer)),
        Instr::BAdd(buffer) => Act::Done(append(registers.past(2), memory, heap, buffer)),
        Instr::BTake(buffer) => Act::Done(take(registers.past(2), memory, heap, buffer)),
        Instr::BSize(buffer) => Act::Done(get_size(registers.past(2), memory, heap, buffer)),
        Instr::BClear(buffer) => Act::Done(clear(registers.past(2), memory, heap, buffer)),
        Instr::Fun(fun) => Act::Asks(fun),
        Instr::FunBuf(fun, buffer) => Act::Sends(fun, buffer),
    }
}
