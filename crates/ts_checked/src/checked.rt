//! A checked script: a body, and the shape of the machine for which it is right.

use crate::checked_stmt::CBlock;
use mate_num::Shape;
use std::marker::Model;

/// A script that passed all checks for a machine of its shape. The type keeps its body right for the shape: each name
/// is in range, each call has its function's arguments, no call is in the limit of a `for`, and each step is from
/// -32767 to 32767 and not 0. Contracts see the shape and the body's tree.
pub struct Checked {
    shape: Shape,
    body: CBlock,
}

impl Model for Checked {
    ghost use Rattle.std.specs.Prelude.{IsTrue};
    ghost use Rattle.ts_checked.specs.Checked.{ScriptTree};
    ghost use Rattle.ts_checked.specs.Right.{is_right};
    ghost use Rattle.ts_checked.specs.TreeCode.{coded_script};
    ghost use Rattle.ts_checked.specs.TreeOf.{block_tree};

    ghost Value = { ScriptTree };

    ghost coded = { coded_script };

    ghost view = { λ c. record { shape = c.shape; tree = block_tree c.body } };

    ghost invariant = { λ c. IsTrue (is_right c.shape (block_tree c.body)) };
}

/// All that has to be dropped is dropped in one function, so each place at which a script ends has one call.
impl Drop for Checked {
    fn drop(self) {
        let Checked {
            shape: _shape,
            body: _body,
        } = self;
    }
}

impl Checked {
    ghost use Rattle.std.specs.Prelude.{◌≡◌, IsTrue};
    ghost use Rattle.ts_checked.specs.Checked.{checked_shape, checked_tree};
    ghost use Rattle.ts_checked.specs.Right.{is_right};
    ghost use Rattle.ts_checked.specs.TreeOf.{block_tree};

    /// A body with the shape that it is right for, as `is_right` says. It takes no memory.
    pub fn new(shape: Shape, body: CBlock) -> Checked
        requires { IsTrue (is_right shape (block_tree body)) }
        ensures shape { checked_shape result ≡ shape }
        ensures body { checked_tree result ≡ block_tree body }
    {
        Checked { shape, body }
    }

    pub fn shape(&self) -> &Shape
        ensures { result.now ≡ checked_shape self.now }
    {
        &self.shape
    }

    pub fn body(&self) -> &CBlock
        ensures tree { block_tree result.now ≡ checked_tree self.now }
        ensures right { IsTrue (is_right (checked_shape self.now) (checked_tree self.now)) }
    {
        &self.body
    }
}
