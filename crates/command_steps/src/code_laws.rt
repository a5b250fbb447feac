//! Laws of compiler, verifier and lock inference together. Each is the contract of a function that does nothing.

ghost use Rattle.std.specs.Prelude.{◌≡◌, ℕ, Bool, List, Ok, Err, IsTrue};
ghost use Rattle.arrayvec.specs.ArrayVec.{ArrayVec};
ghost use Rattle.mate_num.specs.Uses.{IsSameUses};
ghost use Rattle.mate_num.specs.declared.lock_set.LockSet.{LockSet as LockSetValue};
ghost use Rattle.mate_num.specs.declared.shape.Shape.{Shape};
ghost use Rattle.ts_checked.specs.Right.{is_right};
ghost use Rattle.ts_checked.specs.Statement.{Block};
ghost use Rattle.ts_semantics.specs.Uses.{script_uses};
ghost use Rattle.ts_semantics.specs.Translation.{code_of};
ghost use Rattle.ts_checker.specs.Accepted.{IsAccepted};
ghost use Rattle.ts_compiler.specs.Compiled.{AreAccepted};
ghost use Rattle.code_verifier.specs.Verified.{VerifiedCode, Verifies};
ghost use Rattle.mate_code.specs.declared.fault.VerifyFault.{VerifyFault as VerifyFaultValue};
ghost use Rattle.lock_inference.specs.Locks.{AreLocksOf, held_uses};
ghost use Rattle.command_steps.specs.SourceCode.{IsCodeOf, MeansTree};
ghost use Rattle.vm_shape.specs.Shapes.{shape_of};
ghost use Rattle.vm_shape.specs.declared.description.Description.{Description};

/// The verifier takes whatever the compiler gives for a tree, and finds the tree's code in it.
pub fn compiled_code_is_verified()
    ensures taken { (shape : Shape) (tree : Block) (bytes : ArrayVec ℕ) (fault : VerifyFaultValue) → AreAccepted shape tree bytes
        → Verifies shape bytes.items (Err fault) → ⊥ }
    ensures code { (shape : Shape) (tree : Block) (bytes : ArrayVec ℕ) (v : VerifiedCode) → AreAccepted shape tree bytes
        → Verifies shape bytes.items (Ok v) → v.code ≡ code_of tree }
{}

/// The locks of a tree's code are to read exactly what the tree reads, and to write exactly what it writes.
pub fn locks_of_compiled_code()
    ensures { (shape : Shape) (tree : Block) (set : LockSetValue) → AreLocksOf shape (code_of tree) set
        → IsSameUses (held_uses set) (script_uses shape tree) }
{}

/// The code of a tree that is right for a machine, as each accepted tree is, runs as this tree does, and uses nothing more.
pub fn code_means_its_tree()
    ensures right { (shape : Shape) (fold : Bool) (tree : Block) (code : ArrayVec ℕ) → IsTrue (is_right shape tree)
        → IsCodeOf shape fold tree code → MeansTree shape fold tree }
    ensures accepted { (d : Description) (fold : Bool) (bytes : List ℕ) (tree : Block) (code : ArrayVec ℕ) → IsAccepted d bytes tree
        → IsCodeOf (shape_of d) fold tree code → MeansTree (shape_of d) fold tree }
{}
