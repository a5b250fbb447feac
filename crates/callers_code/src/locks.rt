//! The locks of code.

ghost use Rattle.std.specs.Prelude.{◌≡◌, [], ◌∷◌, true, false, Some};
ghost use Rattle.mate_num.specs.Locks.{lock_uses};
ghost use Rattle.mate_num.specs.declared.resource.Resource.TheVariants.{Shared, Buffer, Device};
ghost use Rattle.mate_code.specs.declared.instr.Instr.TheVariants.{PushB, SetS, Fun, FunBuf, Drop, Halt};
ghost use Rattle.vm_shape.specs.Shapes.{shape_of};

use code_verifier::Verified;
use lock_inference::locks;
use mate_num::LockSet;
use vm_shape::Description;

pub fn a_variable_that_is_set_is_written(desc: &Description, code: &Verified) -> LockSet
    requires shape { code.now.shape ≡ shape_of desc.now }
    requires code { code.now.code ≡ (0, PushB 1) ∷ (2, SetS (record { 0 = 2 })) ∷ (4, Halt) ∷ [] }
    ensures { (lock_uses result).writes (Shared (record { 0 = 2 })) ≡ true }
{
    locks(desc, code)
}

/// The machine has the one function.
pub fn the_device_of_a_called_function_is_written(desc: &Description, code: &Verified) -> LockSet
    requires shape { code.now.shape ≡ shape_of desc.now }
    requires functions { (shape_of desc.now).functions.items ≡ record { args = 0; send = false; device = Some (record { 0 = 3 }) } ∷ [] }
    requires code { code.now.code ≡ (0, Fun (record { 0 = 0 })) ∷ (1, Drop) ∷ (2, Halt) ∷ [] }
    ensures { (lock_uses result).writes (Device (record { 0 = 3 })) ≡ true }
{
    locks(desc, code)
}

pub fn a_buffer_that_is_sent_is_read(desc: &Description, code: &Verified) -> LockSet
    requires shape { code.now.shape ≡ shape_of desc.now }
    requires code { code.now.code ≡ (0, FunBuf (record { 0 = 0 }) (record { 0 = 1 })) ∷ (2, Drop) ∷ (3, Halt) ∷ [] }
    ensures { (lock_uses result).reads (Buffer (record { 0 = 1 })) ≡ true }
{
    locks(desc, code)
}
