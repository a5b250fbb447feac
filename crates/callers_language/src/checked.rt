//! Checked trees read as lists: callers that exclude wrong bodies of `len`, `get` and `as_slice`.

ghost use Rattle.std.specs.Prelude.{◌≡◌, [], ◌∷◌, map, option_map, None, Some};
ghost use Rattle.ts_checked.specs.Expression.{Expression};
ghost use Rattle.ts_checked.specs.Statement.{Statement};
ghost use Rattle.ts_checked.specs.TreeOf.{args_trees, block_trees, expr_tree, stmt_tree};

use ts_checked::{CArgs, CBlock, CExpr, CStmt};

pub fn the_argument_at_one_is_the_second(args: &CArgs) -> Option<&CExpr>
    ensures { (first second : Expression) → args_trees args.now ≡ first ∷ second ∷ []
        → option_map (λ e. expr_tree e.now) result ≡ Some second }
{
    args.get(1)
}

pub fn two_arguments_have_no_third(args: &CArgs) -> Option<&CExpr>
    ensures { (first second : Expression) → args_trees args.now ≡ first ∷ second ∷ [] → option_map (λ e. expr_tree e.now) result ≡ None }
{
    args.get(2)
}

pub fn arguments_stand_in_order(args: &CArgs) -> &[CExpr]
    ensures { (first second : Expression) → args_trees args.now ≡ first ∷ second ∷ [] → map expr_tree result.now ≡ first ∷ second ∷ [] }
{
    args.as_slice()
}

pub fn two_statements_are_two(block: &CBlock) -> usize
    ensures { (first second : Statement) → block_trees block.now ≡ first ∷ second ∷ [] → result ≡ 2 }
{
    block.len()
}

pub fn the_statement_at_zero_is_the_first(block: &CBlock) -> Option<&CStmt>
    ensures { (first second : Statement) → block_trees block.now ≡ first ∷ second ∷ []
        → option_map (λ s. stmt_tree s.now) result ≡ Some first }
{
    block.get(0)
}

pub fn statements_stand_in_order(block: &CBlock) -> &[CStmt]
    ensures { (first second : Statement) → block_trees block.now ≡ first ∷ second ∷ [] → map stmt_tree result.now ≡ first ∷ second ∷ [] }
{
    block.as_slice()
}
