//! The locks of code in hexadecimal digits, by the names of the machine's variables, buffers and devices in their order:
//! `:r` comes after one that is only read.

ghost use Rattle.std.specs.Prelude.{◌≡◌, IfOk, IsTrue};
ghost use Rattle.mate_num.specs.Locks.{is_resource};

use cases_files::bytes_of;
use code_verifier::verify;
use lock_inference::locks;
use mate_num::{BufId, DeviceId, LockSet, Name, Resource, VarId};
use opcode_gen::table;
use std::alloc::{AllocError, Global};
use vm_shape::Description;

pub fn answer(alloc: Global, desc: &Description, case: &str) -> Result<String, AllocError> {
    let Some(bytes) = bytes_of(alloc, case)? else {
        return "no digits".to_string(alloc);
    };
    match verify(&table(desc), desc, &bytes) {
        Ok(code) => names_of(alloc, desc, &locks(desc, &code)),
        Err(_) => "no code".to_string(alloc),
    }
}

fn names_of(alloc: Global, desc: &Description, set: &LockSet) -> Result<String, AllocError> {
    let mut line = String::new(alloc);
    for (place, name) in desc.shared.iter().enumerate() {
        append(&mut line, set, name, Resource::Shared(VarId(place as u8)))?;
    }
    for (place, name) in desc.buffers.iter().enumerate() {
        append(&mut line, set, name, Resource::Buffer(BufId(place as u8)))?;
    }
    for (place, name) in desc.devices.iter().enumerate() {
        append(
            &mut line,
            set,
            name,
            Resource::Device(DeviceId(place as u8)),
        )?;
    }
    Ok(line)
}

/// Appends the resource's name if the set has it.
fn append(
    line: &mut String,
    set: &LockSet,
    name: &Name,
    resource: Resource,
) -> Result<(), AllocError>
    requires { IsTrue (is_resource resource) }
{
    let mark = if set.writes(resource) {
        ""
    } else if set.reads(resource) {
        ":r"
    } else {
        return Ok(());
    };
    if !line.is_empty() {
        line.push_str(" ")?;
    }
    line.push_str(name.as_str())?;
    line.push_str(mark)
}
