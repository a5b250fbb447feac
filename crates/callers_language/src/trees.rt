//! Trees that exclude wrong bodies of what makes them.

ghost use Rattle.std.specs.Prelude.{◌≡◌, [], ◌∷◌, IfOk, OnOk};
ghost use Rattle.ts_expressions.specs.Boxed.{boxed_tree};
ghost use Rattle.ts_checked.specs.Statement.{Statement};
ghost use Rattle.ts_trees.specs.Tree.{number, two};
ghost use Rattle.ts_checked.specs.TreeOf.{block_trees, stmt_tree};
ghost use Rattle.ts_checked.specs.declared.bin_op.BinOp.TheVariants.{Sub};

use mate_num::NoMemory;
use std::alloc::{AllocError, Global};
use ts_checked::{BinOp, CBlock, CStmt};
use ts_expressions::node::two;
use ts_trees::Expr;

pub fn a_difference_is_from_its_left(
    alloc: Global,
    left: Box<Expr>,
    right: Box<Expr>,
) -> Result<Box<Expr>, AllocError>
    requires left { boxed_tree left ≡ number 3 }
    requires right { boxed_tree right ≡ number 1 }
    ensures { IfOk result (λ e. boxed_tree e ≡ two Sub (number 3) (number 1)) }
{
    two(alloc, BinOp::Sub, left, right)
}

pub fn a_pushed_statement_is_the_last(block: &mut CBlock, statement: CStmt) -> Result<(), NoMemory>
    ensures { (first : Statement) → block_trees block.old ≡ first ∷ []
        → OnOk result (block_trees block.new ≡ first ∷ stmt_tree statement ∷ []) }
{
    block.push(statement)
}
