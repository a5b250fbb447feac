//! The heap of a run that is kept, as that of the run on another store.

ghost use Rattle.std.specs.Prelude.{◌≡◌, ◌≤◌, length, true, IsTrue};
ghost use Rattle.mate_num.specs.declared.bounds.TheConstants.{BUFFERS_MAX, SHARED_MAX};
ghost use Rattle.mate_num.specs.Uses.{uses};
ghost use Rattle.mate_code.specs.CodeUses.{uses_of};
ghost use Rattle.mate_code.specs.Cells.{AreAsLong};
ghost use Rattle.exec_unit.specs.Step.{HasLengths};
ghost use Rattle.audit_programs.specs.Kept.{IsOnStore, IsRunOf};
ghost use Rattle.audit_programs.specs.Settled.{IsSettled, is_buffer_below, is_variable_below};

use crate::filling::{put_buffer, put_value};
use crate::kept::{KeptRun, same_values};
use crate::ready::ReadyProgram;
use mate_num::{BufId, Resource, Store, VarId};
use node_heap::Heap;

/// Whether the variables that the program uses have one value in both stores. If so, the others get the second store's.
fn settle_variables(program: &ReadyProgram, heap: &mut Heap, base: &Store, store: &Store) -> bool
    requires heap { AreAsLong heap.old store.now }
    requires base { AreAsLong base.now store.now }
    requires few { length store.now.shared.items ≤ SHARED_MAX }
    ensures { IsTrue result → IsSettled (is_variable_below (length store.now.shared.items)) (uses (uses_of program.now.code.shape program.now.code.code))
        base.now store.now heap.old heap.new }
{
    let values = store.shared.as_slice();
    let bases = base.shared.as_slice();
    for v in 0..values.len() {
        let var = VarId(v as u8);
        if !program.uses(Resource::Shared(var)) {
            put_value(heap, var, &values[v]);
        } else if bases[v] != values[v] {
            return false;
        }
    }
    true
}

/// The same of buffers.
fn settle_buffers(program: &ReadyProgram, heap: &mut Heap, base: &Store, store: &Store) -> bool
    requires heap { AreAsLong heap.old store.now }
    requires base { AreAsLong base.now store.now }
    requires few { length store.now.buffers.items ≤ BUFFERS_MAX }
    ensures { IsTrue result → IsSettled (is_buffer_below (length store.now.buffers.items)) (uses (uses_of program.now.code.shape program.now.code.code))
        base.now store.now heap.old heap.new }
{
    let buffers = store.buffers.as_slice();
    let bases = base.buffers.as_slice();
    for b in 0..buffers.len() {
        let buf = BufId(b as u8);
        if !program.uses(Resource::Buffer(buf)) {
            put_buffer(heap, buf, buffers[b].as_slice());
        } else if !same_values(bases[b].as_slice(), buffers[b].as_slice()) {
            return false;
        }
    }
    true
}

/// Whether what the program uses is the same in both stores. If so, the rest of the heap becomes as in the second one.
pub(crate) fn settle(program: &ReadyProgram, heap: &mut Heap, base: &Store, store: &Store) -> bool
    requires heap { AreAsLong heap.old store.now }
    requires base { AreAsLong base.now store.now }
    ensures { IsTrue result → IsSettled (λ _. true) (uses (uses_of program.now.code.shape program.now.code.code)) base.now store.now heap.old
        heap.new }
{
    let _shared = store.shared.as_slice();
    let _buffers = store.buffers.as_slice();
    settle_variables(program, heap, base, store) && settle_buffers(program, heap, base, store)
}

/// Whether what the program uses is the same on the store on which its run began and on this one. If so, the run becomes
/// that on this one.
pub(crate) fn move_run(run: &mut KeptRun, program: &ReadyProgram, turns: u32, store: &Store) -> bool
    requires run { IsRunOf program.now.code.shape program.now.code.code turns run.old }
    requires lengths { HasLengths program.now.code.shape store.now }
    ensures { IsTrue result → IsOnStore program.now.code.shape program.now.code.code turns store.now run.old run.new }
{
    let _turns = turns;
    if !settle(program, &mut run.heap, &run.base, store) {
        return false;
    }
    run.base = store.copy();
    true
}
