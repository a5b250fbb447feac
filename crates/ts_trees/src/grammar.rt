//! The law that the grammar and the trees agree.

ghost use Rattle.std.specs.Prelude.{List, ◌↔◌};
ghost use Rattle.ts_trees.specs.declared.token.TokenKind.{TokenKind};
ghost use Rattle.ts_trees.specs.Grammar.{rule, script, pscript, Whole, BeginsPart};
ghost use Rattle.ts_trees.specs.Script.{IsScript, BeginsScript, IsProcedureScript};

/// The law of the grammar: the tokens that it derives a whole script from are those that some derived tree spells,
/// and its cases say that tokens begin a script exactly if some tokens after them complete one. The same holds for
/// scripts with procedures.
pub fn grammar_law()
    ensures whole { (ms : List TokenKind) → Whole (rule script) ms ↔ IsScript ms }
    ensures begins { (ms : List TokenKind) → BeginsPart (rule script) ms ↔ BeginsScript IsScript ms }
    ensures procedures_whole { (ms : List TokenKind) → Whole (rule pscript) ms ↔ IsProcedureScript ms }
    ensures procedures_begin { (ms : List TokenKind) → BeginsPart (rule pscript) ms ↔ BeginsScript IsProcedureScript ms }
{}
