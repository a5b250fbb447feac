//! The lock set of code, gathered over its instructions.

ghost use Rattle.std.specs.Prelude.{◌≡◌, ◌<◌, IsTrue, IfSome};
ghost use Rattle.mate_num.specs.declared.bounds.TheConstants.{DEVICES_MAX};
ghost use Rattle.mate_code.specs.declared.uses.Use.TheVariants.{Calls};
ghost use Rattle.mate_num.specs.Uses.{function_shape};
ghost use Rattle.vm_shape.specs.Shapes.{shape_of};
ghost use Rattle.lock_inference.specs.Locks.{AreLocksOf, Gains, device_in, names_resource};

use code_verifier::Verified;
use mate_code::Use;
use mate_num::{DeviceId, FunId, LockSet, Resource};
use vm_shape::Description;

/// The locks that a handler with this code takes: to read, exactly the shared variables and buffers that
/// it reads, and to write, exactly the shared variables and buffers that it changes and the devices of
/// the functions that it calls. The buffer of a call that sends one is read.
pub fn locks(desc: &Description, code: &Verified) -> LockSet
    requires { code.now.shape ≡ shape_of desc.now }
    ensures { AreLocksOf (shape_of desc.now) code.now.code result }
{
    let mut set = LockSet::empty();
    let len = code.code().len() as u16;
    let mut place: u16 = 0;
    'instrs: while place < len {
        let instr = code.instr(place);
        set = with_use(set, desc, instr.uses());
        place += instr.size() as u16;
    }
    set
}

// The set with what this use reads and writes.
fn with_use(set: LockSet, desc: &Description, made: Use) -> LockSet
    requires { IsTrue (names_resource made) }
    ensures { Gains (shape_of desc.now) set result made }
{
    match made {
        Use::Nothing => set,
        Use::Gets(cell) => set.with_read(cell),
        Use::Changes(cell) => set.with_write(cell),
        Use::Calls(fun) => with_device(set, desc, fun),
        Use::Sends(fun, buf) => with_device(set.with_read(Resource::Buffer(buf)), desc, fun),
    }
}

// The set with the function's device, if it has one, to write.
fn with_device(set: LockSet, desc: &Description, fun: FunId) -> LockSet
    ensures { Gains (shape_of desc.now) set result (Calls fun) }
{
    match device_of(desc, fun) {
        Some(device) => set.with_write(Resource::Device(device)),
        None => set,
    }
}

// The device that the function uses, if there is such a function and it has one.
fn device_of(desc: &Description, fun: FunId) -> Option<DeviceId>
    ensures value { result ≡ device_in (function_shape (shape_of desc.now) fun) }
    ensures below { IfSome result (λ device. device.0 < DEVICES_MAX) }
{
    match desc.functions.get(fun.0 as usize) {
        Some(function) => function.device,
        None => None,
    }
}
