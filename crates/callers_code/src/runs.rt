//! Runs of many instructions.

ghost use Rattle.std.specs.Prelude.{◌≡◌};
ghost use Rattle.mate_num.specs.declared.store.Store.{Store};
ghost use Rattle.mate_code.specs.Effect.{Private};
ghost use Rattle.code_verifier.specs.Verified.{IsAtVerified};
ghost use Rattle.exec_unit.specs.Running.{GoFor};
ghost use Rattle.exec_unit.specs.Step.{HasLengths};

use code_runs::run;
use code_verifier::Verified;
use exec_unit::{Machine, Ran};
use node_heap::Heap;

/// Where n single instructions lead, one after another, a run of n instructions leads, too, whatever it does at once: with another
/// count, another place behind a test or an instruction too many it would come elsewhere.
pub fn a_run_leads_where_single_instructions_do(
    code: &Verified,
    machine: &mut Machine,
    heap: &mut Heap,
    n: u32,
) -> Ran
    requires fits { IsAtVerified code.now machine.old }
    requires lengths { HasLengths code.now.shape heap.old }
    ensures { (new : Private) (after : Store) → GoFor code.now n machine.old heap.old new after
        → (result.instructions ≡ n) × (machine.new ≡ new) × (heap.new ≡ after) }
{
    run(code, machine, heap, n)
}
