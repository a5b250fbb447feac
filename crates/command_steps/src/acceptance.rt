//! The law that of a source exactly one thing is so.

ghost use Rattle.std.specs.Prelude.{◌≡◌, ◌≢◌, ◌⊎◌, ℕ, List};
ghost use Rattle.vm_shape.specs.declared.description.Description.{Description};
ghost use Rattle.ts_checked.specs.Statement.{Block};
ghost use Rattle.ts_checker.specs.declared.fault.CheckFault.TheVariants.{NoMemory};
ghost use Rattle.ts_checker.specs.Accepted.{IsAccepted, IsRefusedBy, TextRefusal, by_check};

/// The law of acceptance: for a machine, any bytes either mean one tree or have one first refusal, and not both. Lack
/// of memory is no such refusal.
pub fn acceptance_law()
    ensures one_tree { (machine : Description) (bytes : List ℕ) (a b : Block) → IsAccepted machine bytes a → IsAccepted machine bytes b
        → a ≡ b }
    ensures one_refusal { (machine : Description) (bytes : List ℕ) (r s : TextRefusal) → IsRefusedBy machine bytes r
        → IsRefusedBy machine bytes s → r ≡ s }
    ensures apart { (machine : Description) (bytes : List ℕ) (tree : Block) (r : TextRefusal) → IsAccepted machine bytes tree
        → IsRefusedBy machine bytes r → ⊥ }
    ensures some { (machine : Description) (bytes : List ℕ) → ((tree : Block) × IsAccepted machine bytes tree)
        ⊎ ((r : TextRefusal) × IsRefusedBy machine bytes r × (r ≢ by_check NoMemory)) }
{}
