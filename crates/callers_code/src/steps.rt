//! Steps of a machine.

ghost use Rattle.std.specs.Prelude.{◌≡◌, [], ◌∷◌, pos, negsuc};
ghost use Rattle.mate_num.specs.Store.{buffer_at, payload};
ghost use Rattle.mate_num.specs.declared.call.FaultKind.TheVariants.{DivZero};
ghost use Rattle.mate_code.specs.declared.instr.Instr.TheVariants.{Div, Jz, Sub, FunBuf};
ghost use Rattle.exec_unit.specs.declared.step_end.StepEnd.TheVariants.{Ask, Fault};
ghost use Rattle.callers_code.specs.Steps.{StandsAt};

use code_verifier::Verified;
use exec_unit::{Machine, StepEnd, step};
use mate_num::FunId;
use node_heap::Heap;

pub fn a_division_by_0_faults(code: &Verified, machine: &mut Machine, heap: &mut Heap) -> StepEnd
    requires { StandsAt code.now machine.old heap.old Div (pos 0 ∷ pos 5 ∷ []) }
    ensures { result ≡ Fault DivZero }
{
    step(code, machine, heap)
}

pub fn a_branch_is_taken_at_0(code: &Verified, machine: &mut Machine, heap: &mut Heap) -> StepEnd
    requires { StandsAt code.now machine.old heap.old (Jz 9) (pos 0 ∷ []) }
    ensures { machine.new.pc ≡ 9 }
{
    step(code, machine, heap)
}

pub fn a_difference_is_from_the_left(
    code: &Verified,
    machine: &mut Machine,
    heap: &mut Heap,
) -> StepEnd
    requires { StandsAt code.now machine.old heap.old Sub (pos 5 ∷ pos 3 ∷ []) }
    ensures { machine.new.stack ≡ negsuc 1 ∷ [] }
{
    step(code, machine, heap)
}

pub fn a_send_has_the_values_of_its_buffer(
    code: &Verified,
    machine: &mut Machine,
    heap: &mut Heap,
    fun: FunId,
) -> StepEnd
    requires { StandsAt code.now machine.old heap.old (FunBuf fun (record { 0 = 1 })) [] }
    ensures { result ≡ Ask fun (payload (buffer_at heap.old 1)) }
{
    step(code, machine, heap)
}
