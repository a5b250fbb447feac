//! What nodes of one machine share.

ghost use Rattle.std.specs.Prelude.{◌≡◌, All, IfOk, OnOk};
ghost use Rattle.node_calls.specs.Installing.{IsReadyOn};

use mate_journal::StoredPrograms;
use mate_num::NoMemory;
use node_calls::{ReadyCapsule, near, place_among};
use std::alloc::Global;
use std::marker::Model;
use std::rc::Rc;
use vm_shape::Description;

/// How many capsules are ready at most. Each takes some 7 KB.
const READY_MAX: usize = 64;

/// What a capsule that is ready must have in common with another one to stand for it.
#[derive(Clone, Copy)]
enum Alike {
    /// The image.
    Image,
    /// The code.
    Code,
}

/// A machine, and capsules that are ready to be installed on its nodes, in their order.
#[derive(Drop)]
struct Machine {
    description: Description,
    ready: Vec<ReadyCapsule>,
}

/// A machine, whose description and ready capsules are in one place for all nodes. Contracts see the description.
#[derive(Drop)]
pub struct SharedMachine {
    machine: Rc<Machine>,
}

impl Model for SharedMachine {
    ghost use Rattle.vm_shape.specs.declared.description.Description.{Description as Described};
    ghost use Rattle.node_open.specs.Machines.{IsRightMachine};

    ghost Value = { Described };

    ghost view = { λ s. s.machine.value.description };

    ghost invariant = { λ s. IsRightMachine s.machine.value };
}

impl SharedMachine {
    /// The machine, with no capsule.
    pub fn new(alloc: Global, description: &Description) -> Result<SharedMachine, NoMemory>
        ensures { IfOk result (λ shared. shared ≡ description.now) }
    {
        SharedMachine::of(alloc, description, Vec::new(alloc))
    }

    /// The machine, with the capsules among the images of the programs: the first `READY_MAX` different ones if there are more. For
    /// many nodes, which then hold one copy of each.
    pub fn with_programs(
        alloc: Global,
        description: &Description,
        programs: &StoredPrograms,
    ) -> Result<SharedMachine, NoMemory>
        ensures { IfOk result (λ shared. shared ≡ description.now) }
    {
        let ready = ready_capsules(alloc, description, programs, Alike::Image)?;
        SharedMachine::of(alloc, description, ready)
    }

    /// The machine, with a capsule for each code of the programs: for the first `READY_MAX` different ones if there are more. For one
    /// node, which may install each code in many versions.
    pub fn with_codes(
        alloc: Global,
        description: &Description,
        programs: &StoredPrograms,
    ) -> Result<SharedMachine, NoMemory>
        ensures { IfOk result (λ shared. shared ≡ description.now) }
    {
        let ready = ready_capsules(alloc, description, programs, Alike::Code)?;
        SharedMachine::of(alloc, description, ready)
    }

    fn of(
        alloc: Global,
        description: &Description,
        ready: Vec<ReadyCapsule>,
    ) -> Result<SharedMachine, NoMemory>
        requires { All (IsReadyOn description.now) ready.items }
        ensures { IfOk result (λ shared. shared ≡ description.now) }
    {
        let machine = Machine {
            description: description.copy(),
            ready,
        };
        match Rc::new(alloc, machine) {
            Ok(machine) => Ok(SharedMachine { machine }),
            Err(_) => Err(NoMemory),
        }
    }

    /// The same machine for one owner more. `NoMemory` comes only if a machine word doesn't count the owners.
    pub fn share(&self) -> Result<SharedMachine, NoMemory>
        ensures { IfOk result (λ shared. shared ≡ self.now) }
    {
        match self.machine.clone() {
            Ok(machine) => Ok(SharedMachine { machine }),
            Err(_) => Err(NoMemory),
        }
    }

    pub fn description(&self) -> &Description
        ensures { result.now ≡ self.now }
    {
        &self.machine.as_ref().description
    }

    /// The capsules that are ready, in their order.
    pub fn ready(&self) -> &[ReadyCapsule]
        ensures { All (IsReadyOn self.now) result.now }
    {
        self.machine.as_ref().ready.as_slice()
    }
}

impl Alike {
    /// Whether the capsule, whose code the bytes have, can stand for them.
    fn is_enough(self, capsule: &ReadyCapsule, bytes: &[u8]) -> bool {
        match self {
            Alike::Image => capsule.is_image(bytes),
            Alike::Code => true,
        }
    }
}

/// Whether one of the capsules can stand for the bytes.
fn is_there(description: &Description, ready: &[ReadyCapsule], alike: Alike, bytes: &[u8]) -> bool
    requires { All (IsReadyOn description.now) ready.now }
{
    match near(description, ready, bytes) {
        Some(capsule) => alike.is_enough(capsule, bytes),
        None => false,
    }
}

/// The capsule that the bytes are comes to its place among the others, if they are one and none that is there can stand for it.
fn add_ready(
    alloc: Global,
    description: &Description,
    bytes: &[u8],
    alike: Alike,
    ready: &mut Vec<ReadyCapsule>,
) -> Result<(), NoMemory>
    requires { All (IsReadyOn description.now) ready.old.items }
    ensures { OnOk result (All (IsReadyOn description.now) ready.new.items) }
{
    if is_there(description, ready.as_slice(), alike, bytes) {
        return Ok(());
    }
    let Some(capsule) = ReadyCapsule::of(alloc, description, bytes)? else {
        return Ok(());
    };
    let place = place_among(ready.as_slice(), bytes);
    ready.insert(place, capsule)?;
    Ok(())
}

/// The capsules among the images of the programs, the first ones if there are many.
fn ready_capsules(
    alloc: Global,
    description: &Description,
    programs: &StoredPrograms,
    alike: Alike,
) -> Result<Vec<ReadyCapsule>, NoMemory>
    ensures { IfOk result (λ ready. All (IsReadyOn description.now) ready.items) }
{
    let mut ready = Vec::new(alloc);
    for program in programs.as_slice() {
        if ready.len() >= READY_MAX {
            return Ok(ready);
        }
        let image = program.image.as_slice();
        add_ready(alloc, description, image, alike, &mut ready)?;
    }
    Ok(ready)
}
