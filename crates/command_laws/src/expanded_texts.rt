//! Laws: an expansion is a plain script, and its text means what the source with procedures does.

ghost use Rattle.std.specs.Prelude.{ℕ, List};
ghost use Rattle.ts_trees.specs.Derived.{IsDerived, IsDerivedWithProcedures};
ghost use Rattle.ts_trees.specs.Tree.{ProcedureSource};
ghost use Rattle.ts_proc_names.specs.Named.{written_of};
ghost use Rattle.ts_proc_names.specs.declared.named.PScript.{PScript};
ghost use Rattle.ts_proc_expansion.specs.Expansion.{expansion};
ghost use Rattle.ts_proc_texts.specs.Reading.{IsProcedureText};
ghost use Rattle.command_laws.specs.ExpansionText.{SpellsExpansion, IsAcceptedAsExpanded, TextMeansIt};
ghost use Rattle.command_laws.specs.CompiledText.{CompilesAsSource};

use ts_lexer::print_law;
use ts_parser::verdict_law;

/// The law of derivation: the expansion of a script that the grammar with procedures derives is a plain script that the plain
/// grammar derives.
pub fn derivation_law()
    ensures { (s : ProcedureSource) → IsDerivedWithProcedures s → IsDerived (expansion s) }
{}

/// The law of an expansion's text, for a script with procedures that some text spells and whose names pass. If none
/// of its tokens is nested too deep, the text spells the expansion except for its places. A machine accepts the text
/// exactly if that is so and the checks of the expansion pass, and then with their tree. Any such tree runs as the
/// script does with frames. The text may be longer than 1,048,576 bytes, the most that a source's file has; then no
/// command reads it.
pub fn text_law()
    ensures spells { (bytes : List ℕ) (script : PScript) → IsProcedureText bytes (written_of script) → SpellsExpansion (written_of script) }
    ensures accepted { (bytes : List ℕ) (script : PScript) → IsProcedureText bytes (written_of script)
        → IsAcceptedAsExpanded (written_of script) }
    ensures means { (bytes : List ℕ) (script : PScript) → IsProcedureText bytes (written_of script) → TextMeansIt (written_of script) }
{
    print_law();
    verdict_law();
}

/// The law of compiled expansions: if the step of `expand` gives a plain script for the bytes of a source, and the
/// step of `compile` gives code for the text of that script, folded or not, the verifier finds code in its bytes that
/// runs as the source does with frames, for every store, message, list of answers and number of turns.
pub fn compiled_law()
    ensures { CompilesAsSource }
{
    text_law();
}
