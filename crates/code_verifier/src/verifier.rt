//! Verification of one piece of code after another.

ghost use Rattle.std.specs.Prelude.{◌≡◌};
ghost use Rattle.mate_code.specs.Table.{table_of};
ghost use Rattle.vm_shape.specs.Shapes.{shape_of};
ghost use Rattle.code_verifier.specs.Verified.{Accepts, ReadsVerified};

use crate::fault::of_decode;
use crate::marks::{MARKS, Mark};
use crate::pass::pass;
use crate::placed::Placed;
use mate_code::{Table, VerifyFault};
use mate_num::{CODE_MAX, Shape};
use vm_shape::{Description, shape};

/// Room for the instructions and marks of code, in which one piece of code after another is verified.
#[derive(Drop)]
pub struct Verifier {
    code: Placed,
    // Those of a piece are the first ones, and one is behind its last byte.
    marks: [Mark; MARKS],
}

impl Verifier {
    pub fn new() -> Verifier {
        Verifier {
            code: Placed::new(),
            marks: [Mark::Blank; MARKS],
        }
    }

    /// Refuses exactly the bytes that `verify` refuses, with its refusal. It takes no memory, and time in proportion to the
    /// bytes, however few they are.
    pub fn check(
        &mut self,
        table: &Table,
        desc: &Description,
        bytes: &[u8],
    ) -> Result<(), VerifyFault>
        requires { table.now ≡ table_of (shape_of desc.now) }
        ensures { Accepts (shape_of desc.now) bytes.now result }
    {
        read(&mut self.code, &mut self.marks, table, &shape(desc), bytes)
    }
}

/// Verifies code for machines of this shape, with marks of its own. It isn't inlined, so that their room is free again when it
/// returns.
#[inline(never)]
pub(crate) fn read_once(
    code: &mut Placed,
    table: &Table,
    shape: &Shape,
    bytes: &[u8],
) -> Result<(), VerifyFault>
    requires { table.now ≡ table_of shape.now }
    ensures { ReadsVerified shape.now bytes.now code.new result }
{
    let mut marks = [Mark::Blank; MARKS];
    read(code, &mut marks, table, shape, bytes)
}

/// Reads the code that the bytes spell, and verifies it for machines of this shape.
fn read(
    code: &mut Placed,
    marks: &mut [Mark; MARKS],
    table: &Table,
    shape: &Shape,
    bytes: &[u8],
) -> Result<(), VerifyFault>
    requires { table.now ≡ table_of shape.now }
    ensures { ReadsVerified shape.now bytes.now code.new result }
{
    if bytes.len() > CODE_MAX {
        return Err(VerifyFault::TooLong { len: bytes.len() });
    }
    if let Err(fault) = code.read(table, bytes) {
        return Err(of_decode(fault));
    }
    let marks = &mut marks[..];
    if pass(shape, code, &mut marks[..bytes.len() + 1])? {
        Ok(())
    } else {
        Err(VerifyFault::NoHalt)
    }
}
