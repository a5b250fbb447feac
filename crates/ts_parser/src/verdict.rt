//! The law that of any tokens exactly one thing is so.

ghost use Rattle.std.specs.Prelude.{◌≡◌, ℕ, List};
ghost use Rattle.ts_parser.specs.Verdict.{Verdict, VerdictOf, IsSo, IsSoIn};
ghost use Rattle.ts_trees.specs.Faults.{Spells, SpellsIn};
ghost use Rattle.ts_trees.specs.Tree.{Source, ProcedureSource};
ghost use Rattle.ts_trees.specs.declared.dialect.Dialect.{Dialect};
ghost use Rattle.ts_trees.specs.declared.token.Token.{Token};

/// The law of answers: tokens spell one script at most; and of any tokens exactly one thing is so: that they spell
/// this script, that the first token that doesn't fit is here, or that the first that is too deep is here. The same
/// holds in each dialect.
pub fn verdict_law()
    ensures one_tree { (tokens : List Token) (s t : Source) → Spells tokens s → Spells tokens t → s ≡ t }
    ensures one { (tokens : List Token) (len : ℕ) (v w : Verdict) → IsSo tokens len v → IsSo tokens len w → v ≡ w }
    ensures some { (tokens : List Token) (len : ℕ) → (v : Verdict) × IsSo tokens len v }
    ensures one_tree_in { (d : Dialect) (tokens : List Token) (s t : ProcedureSource) → SpellsIn d tokens s → SpellsIn d tokens t → s ≡ t }
    ensures one_in { (d : Dialect) (tokens : List Token) (len : ℕ) (v w : VerdictOf ProcedureSource) → IsSoIn d tokens len v
        → IsSoIn d tokens len w → v ≡ w }
    ensures some_in { (d : Dialect) (tokens : List Token) (len : ℕ) → (v : VerdictOf ProcedureSource) × IsSoIn d tokens len v }
{}
