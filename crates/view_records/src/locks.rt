//! The locks of the programs that nodes hold, and what two programs share.

ghost use Rattle.std.specs.Prelude.{IsTrue};
ghost use Rattle.mate_num.specs.Locks.{is_resource};

use crate::fault::ViewFault;
use crate::ink::{Fill, Ink};
use capsule_codec::decode_in_place;
use code_verifier::verify;
use lock_inference::locks;
use mate_code::Table;
use mate_num::{
    BUFFERS_MAX, BufId, DEVICES_MAX, DeviceId, HANDLERS_MAX, LockSet, NODES_MAX, Name, Resource,
    SHARED_MAX, VarId,
};
use std::alloc::Global;
use vm_shape::{Description, shape};

/// What the program locks that a node holds of a handler, by node and handler.
#[derive(Drop)]
pub struct ProgramLocks {
    sets: Vec<LockSet>,
}

impl ProgramLocks {
    /// No programs.
    pub fn new(alloc: Global) -> Result<ProgramLocks, ViewFault> {
        let mut sets = Vec::new(alloc);
        for _ in 0..NODES_MAX * HANDLERS_MAX {
            sets.push(LockSet::empty())?;
        }
        Ok(ProgramLocks { sets })
    }

    /// A node gets a program.
    pub fn install(&mut self, desc: &Description, node: u8, handler: u8, image: &[u8]) {
        let place = usize::from(node) * HANDLERS_MAX + usize::from(handler);
        if usize::from(handler) < HANDLERS_MAX && place < self.sets.len() {
            self.sets[place] = locks_of(desc, image);
        }
    }

    /// The locks of the program that a node holds of a handler; none if it holds none.
    pub fn of(&self, node: u8, handler: u8) -> LockSet {
        let place = usize::from(node) * HANDLERS_MAX + usize::from(handler);
        match self.sets.get(place) {
            Some(set) => *set,
            None => LockSet::empty(),
        }
    }
}

/// The locks of an image; none if it is no right one, which only a report from another hand has.
fn locks_of(desc: &Description, image: &[u8]) -> LockSet {
    let Ok(capsule) = decode_in_place(desc, image) else {
        return LockSet::empty();
    };
    let table = Table::of(&shape(desc));
    match verify(&table, desc, capsule.code) {
        Ok(code) => locks(desc, &code),
        Err(_) => LockSet::empty(),
    }
}

/// Writes the names of what one of two programs writes and the other uses, with spaces between them.
pub fn write_shared(desc: &Description, one: &LockSet, other: &LockSet, ink: &mut Ink) {
    let mut before = "";
    for place in 0..SHARED_MAX as u8 {
        if is_shared(one, other, Resource::Shared(VarId(place))) {
            before = write_name(desc.shared.as_slice(), place, before, ink);
        }
    }
    for place in 0..BUFFERS_MAX as u8 {
        if is_shared(one, other, Resource::Buffer(BufId(place))) {
            before = write_name(desc.buffers.as_slice(), place, before, ink);
        }
    }
    for place in 0..DEVICES_MAX as u8 {
        if is_shared(one, other, Resource::Device(DeviceId(place))) {
            before = write_name(desc.devices.as_slice(), place, before, ink);
        }
    }
}

/// Writes a name of a list behind `before`; the result comes before the next one.
fn write_name(names: &[Name], place: u8, before: &'static str, ink: &mut Ink) -> &'static str {
    match names.get(usize::from(place)) {
        Some(name) => {
            ink.line("{}{}", &[Fill::Text(before), Fill::Text(name.as_str())]);
            " "
        }
        None => before,
    }
}

/// Whether one of two programs writes the resource and the other uses it.
fn is_shared(one: &LockSet, other: &LockSet, resource: Resource) -> bool
    requires { IsTrue (is_resource resource) }
{
    let (mine, others) = (one.writes(resource), other.writes(resource));
    (mine && (others || other.reads(resource))) || (others && one.reads(resource))
}
