//! Bodies that exclude wrong bodies of `is_right` and `push`.

ghost use Rattle.std.specs.Prelude.{◌≡◌, ◌∷◌, [], false, pos, negsuc, OnOk};
ghost use Rattle.ts_checked.specs.TreeOf.{block_tree, block_trees, stmt_tree};
ghost use Rattle.callers_language.specs.Scripts.{ninth_private, call_in_limit, with_step};

use mate_num::{FunId, NoMemory, Shape};
use ts_checked::{CBlock, CStmt, CVar};
use ts_right::is_right;

pub fn a_ninth_private_is_wrong(shape: &Shape, body: &CBlock) -> bool
    requires { block_tree body.now ≡ ninth_private }
    ensures { result ≡ false }
{
    is_right(shape, body)
}

pub fn a_call_in_a_limit_is_wrong(shape: &Shape, body: &CBlock, variable: CVar, fun: FunId) -> bool
    requires { block_tree body.now ≡ call_in_limit variable fun }
    ensures { result ≡ false }
{
    is_right(shape, body)
}

pub fn a_step_of_zero_is_wrong(shape: &Shape, body: &CBlock, variable: CVar) -> bool
    requires { block_tree body.now ≡ with_step variable (pos 0) }
    ensures { result ≡ false }
{
    is_right(shape, body)
}

pub fn the_lowest_step_is_wrong(shape: &Shape, body: &CBlock, variable: CVar) -> bool
    requires { block_tree body.now ≡ with_step variable (negsuc 32767) }
    ensures { result ≡ false }
{
    is_right(shape, body)
}

pub fn a_pushed_statement_is_in_the_block(
    block: &mut CBlock,
    statement: CStmt,
) -> Result<(), NoMemory>
    requires { block_trees block.old ≡ [] }
    ensures { OnOk result (block_trees block.new ≡ stmt_tree statement ∷ []) }
{
    block.push(statement)
}
