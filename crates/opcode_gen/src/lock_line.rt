//! The line of a handler's locks.

ghost use Rattle.std.specs.Prelude.{◌≡◌, ◌<◌, ◌≤◌, length, IsTrue, codes, ◌++◌};
ghost use Rattle.mate_files.specs.Pen.{Prints};
ghost use Rattle.mate_num.specs.Locks.{is_resource, lock_uses};
ghost use Rattle.opcode_gen.specs.LockLine.{mention, mentions, lock_line, resource_at, room_of};

use mate_files::{Pen, Sink};
use mate_num::{BufId, DeviceId, LockSet, Name, Resource, VarId};
use vm_shape::Description;

/// The groups of resources, each of which is a list of a description.
#[derive(Clone, Copy)]
pub enum Group {
    Shared,
    Buffers,
    Devices,
}

impl Group {
    // The group's resource of this number.
    fn resource(self, place: u8) -> Resource
        ensures { result ≡ resource_at self place }
    {
        match self {
            Group::Shared => Resource::Shared(VarId(place)),
            Group::Buffers => Resource::Buffer(BufId(place)),
            Group::Devices => Resource::Device(DeviceId(place)),
        }
    }
}

/// Prints `locks` and the names of what the set holds, each after a space, in the order of the description; `:r`
/// comes directly after a name that is only read.
pub fn print_lock_line<S: Sink>(pen: &mut Pen, out: &mut S, desc: &Description, set: &LockSet)
    ensures { Prints (S.written out.old) (S.faults out.old) pen.old.result
        (S.written out.new) (S.faults out.new) pen.new.result (lock_line desc.now (lock_uses set.now)) }
{
    pen.text(out, "locks");
    print_group(pen, out, set, Group::Shared, desc.shared.as_slice());
    print_group(pen, out, set, Group::Buffers, desc.buffers.as_slice());
    print_group(pen, out, set, Group::Devices, desc.devices.as_slice());
    pen.text(out, "\n");
}

// Prints those of a group's names that the set holds.
fn print_group<S: Sink>(pen: &mut Pen, out: &mut S, set: &LockSet, group: Group, names: &[Name])
    requires { length names.now ≤ room_of group }
    ensures { Prints (S.written out.old) (S.faults out.old) pen.old.result
        (S.written out.new) (S.faults out.new) pen.new.result (mentions (lock_uses set.now) group names.now) }
{
    for (place, name) in names.iter().enumerate() {
        print_mention(pen, out, set, group.resource(place as u8), name);
    }
}

// Prints the resource's name if the set holds it.
fn print_mention<S: Sink>(
    pen: &mut Pen,
    out: &mut S,
    set: &LockSet,
    resource: Resource,
    name: &Name,
)
    requires { IsTrue (is_resource resource) }
    ensures { Prints (S.written out.old) (S.faults out.old) pen.old.result
        (S.written out.new) (S.faults out.new) pen.new.result (mention (lock_uses set.now) resource name.now) }
{
    if set.writes(resource) {
        print_name(pen, out, name);
    } else if set.reads(resource) {
        print_name(pen, out, name);
        pen.text(out, ":r");
    }
}

fn print_name<S: Sink>(pen: &mut Pen, out: &mut S, name: &Name)
    ensures { Prints (S.written out.old) (S.faults out.old) pen.old.result
        (S.written out.new) (S.faults out.new) pen.new.result (codes " " ++ name.now) }
{
    pen.text(out, " ");
    pen.text(out, name.as_str());
}
