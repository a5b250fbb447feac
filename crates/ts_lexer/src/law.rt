//! What is printed of a text's tokens is cut into the same tokens.

ghost use Rattle.std.specs.Prelude.{◌≡◌, ◌++◌, ℕ, List, None, codes};
ghost use Rattle.ts_trees.specs.declared.token.TokenKind.{TokenKind};
ghost use Rattle.ts_trees.specs.Tree.{Source};
ghost use Rattle.ts_trees.specs.Cut.{cut};
ghost use Rattle.ts_trees.specs.Depth.{first_deep};
ghost use Rattle.ts_trees.specs.Derived.{IsDerived};
ghost use Rattle.ts_trees.specs.Spelling.{source_spelled};
ghost use Rattle.ts_trees.specs.Text.{text_of};
ghost use Rattle.ts_lexer.specs.Printed.{AreKinds, IsCutInto, IsTextOf, IsTextButPlaces};

/// The law of printed text: tokens of kinds that some text is cut into, written with one space between two, are cut
/// into tokens of the same kinds, and a line feed after a text changes no token. So what `print` writes of a script
/// that the grammar derives spells the same script except for its places, if its tokens are of such kinds and none is
/// nested too deep; and so does what it writes of a script that some text spells.
pub fn print_law()
    ensures kinds { (bytes : List ℕ) (ks : List TokenKind) → IsCutInto bytes ks → AreKinds ks }
    ensures tokens { (ks : List TokenKind) → AreKinds ks → IsCutInto (text_of ks) ks }
    ensures line { (bytes : List ℕ) → cut (bytes ++ codes "\n") ≡ cut bytes }
    ensures script { (s : Source) → IsDerived s → AreKinds (source_spelled s) → first_deep (source_spelled s) ≡ None
        → IsTextButPlaces (text_of (source_spelled s)) s }
    ensures again { (bytes : List ℕ) (s : Source) → IsTextOf bytes s → IsTextButPlaces (text_of (source_spelled s)) s }
{}
