//! Verifications of bytes.

ghost use Rattle.std.specs.Prelude.{◌≡◌, Err, IsOk};
ghost use Rattle.mate_code.specs.Table.{table_of};
ghost use Rattle.vm_shape.specs.Shapes.{shape_of};
ghost use Rattle.mate_code.specs.declared.fault.VerifyFault.TheVariants.{DepthDiffers};

use code_verifier::{Verified, VerifyFault, verify};
use mate_code::Table;
use vm_shape::Description;

/// `PUSHB 1`, `JZ 7`, `PUSHB 2` and `HALT`: the branch comes to place 7 with no value, the other way with one.
pub fn two_depths_at_a_place_are_refused(
    table: &Table,
    desc: &Description,
) -> Result<Verified, VerifyFault>
    requires { table.now ≡ table_of (shape_of desc.now) }
    ensures { result ≡ Err (DepthDiffers 7) }
{
    verify(table, desc, &[2, 1, 22, 0, 7, 2, 2, 0])
}

/// `PUSHB 1`, `DROP` and `HALT`.
pub fn the_last_value_may_be_taken(
    table: &Table,
    desc: &Description,
) -> Result<Verified, VerifyFault>
    requires { table.now ≡ table_of (shape_of desc.now) }
    ensures { IsOk result }
{
    verify(table, desc, &[2, 1, 25, 0])
}

pub fn a_halt_is_verified(table: &Table, desc: &Description) -> Result<Verified, VerifyFault>
    requires { table.now ≡ table_of (shape_of desc.now) }
    ensures { IsOk result }
{
    verify(table, desc, &[0])
}
