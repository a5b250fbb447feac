//! The law that a source with procedures is read as one thing only.

ghost use Rattle.std.specs.Prelude.{◌≡◌, ℕ, List, Ok, Err};
ghost use Rattle.ts_proc_names.specs.Named.{written_of};
ghost use Rattle.ts_proc_names.specs.declared.fault.ProcFault.{ProcFault};
ghost use Rattle.ts_proc_names.specs.declared.fault.ProcFault.TheVariants.{NoMemory};
ghost use Rattle.ts_proc_names.specs.declared.named.PScript.{PScript};
ghost use Rattle.ts_proc_texts.specs.Reading.{ReadsProcedures};

/// The law of readings: bytes are read as one script at most, or have one first refusal at most, and never both,
/// unless memory runs out.
pub fn reading_law()
    ensures one_script { (bytes : List ℕ) (a b : PScript) → ReadsProcedures bytes (Ok a) → ReadsProcedures bytes (Ok b)
        → written_of a ≡ written_of b }
    ensures one_refusal { (bytes : List ℕ) (f g : ProcFault) → ReadsProcedures bytes (Err f) → ReadsProcedures bytes (Err g)
        → (f ≡ NoMemory → ⊥)
        → (g ≡ NoMemory → ⊥) → f ≡ g }
    ensures not_both { (bytes : List ℕ) (a : PScript) (f : ProcFault) → ReadsProcedures bytes (Ok a) → ReadsProcedures bytes (Err f)
        → (f ≡ NoMemory → ⊥) → ⊥ }
{}
