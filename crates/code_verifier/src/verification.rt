//! From bytes to verified code.

ghost use Rattle.std.specs.Prelude.{◌≡◌};
ghost use Rattle.mate_code.specs.Table.{table_of};
ghost use Rattle.vm_shape.specs.Shapes.{shape_of};
ghost use Rattle.code_verifier.specs.Verified.{Verifies};

use crate::verified::Verified;
use mate_code::{Table, VerifyFault};
use vm_shape::{Description, shape};

/// The verified code of the bytes, or their first refusal: `TooLong`, then `Decode`, then those of a pass
/// over the instructions by their places, and `NoHalt` last.
///
/// At each instruction the pass refuses in this order: two depths that were given to its place, a name
/// that the machine doesn't have, a target that is no instruction's start, one in the wrong direction,
/// too few operands, too little room, and a `Back` whose depth isn't its target's. It takes no memory,
/// and time in proportion to the bytes.
pub fn verify(table: &Table, desc: &Description, bytes: &[u8]) -> Result<Verified, VerifyFault>
    requires { table.now ≡ table_of (shape_of desc.now) }
    ensures { Verifies (shape_of desc.now) bytes.now result }
{
    Verified::new(table, shape(desc), bytes)
}
