//! The law that the machine's answers are exact.

ghost use Rattle.std.specs.Prelude.{◌≡◌, ℕ, List, [], ◌∷◌, ◌++◌, Ok, Err};
ghost use Rattle.ts_trees.specs.Machine.{run, start};
ghost use Rattle.ts_trees.specs.Answers.{Refused, IsTakenWhole};
ghost use Rattle.ts_trees.specs.Derived.{IsDerivedIn};
ghost use Rattle.ts_trees.specs.Spelling.{procedure_source_spelled, procedure_source_places};
ghost use Rattle.ts_trees.specs.Tree.{ProcedureSource};
ghost use Rattle.ts_trees.specs.declared.dialect.Dialect.{Dialect};
ghost use Rattle.ts_trees.specs.declared.token.TokenKind.{TokenKind};

/// The law of the machine, for each dialect: it takes the tokens of each script that the grammar derives; the script that
/// it reads is derived, spells the tokens that it read, and has their places; and if it stops, the tokens before that
/// place begin a script and those with the next one don't.
pub fn machine_law()
    ensures complete { (d : Dialect) (s : ProcedureSource) (places : List ℕ) → IsDerivedIn d s
        → IsTakenWhole d (procedure_source_spelled s) places }
    ensures sound { (d : Dialect) (ks : List TokenKind) (places left : List ℕ) (s : ProcedureSource)
        → run ks places (start d) ≡ Ok (s, left) → IsDerivedIn d s × (procedure_source_spelled s ≡ ks) }
    ensures places { (d : Dialect) (ks : List TokenKind) (places : List ℕ) (p : ℕ) (s : ProcedureSource)
        → run ks (places ++ p ∷ []) (start d) ≡ Ok (s, p ∷ []) → procedure_source_places s ≡ places }
    ensures refused { (d : Dialect) (ks : List TokenKind) (places : List ℕ) (rest : List TokenKind)
        → run ks places (start d) ≡ Err rest → Refused d ks rest }
{}
