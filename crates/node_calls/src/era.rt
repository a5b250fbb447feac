//! The beginning of an era, and resets.

ghost use Rattle.std.specs.Prelude.{◌≡◌, ◌<◌, ◌≤◌, length};
ghost use Rattle.mate_journal.specs.NodeScript.{Resets};
ghost use Rattle.node_state.specs.Meaning.{machine_in};
ghost use Rattle.node_state.specs.Keeps.{reading, IsTimely};
ghost use Rattle.node_state.specs.Starting.{Rests};
ghost use Rattle.node_calls.specs.Calls.{RestsAgain, AtPace, IsCleared};

use crate::showing::seen_in;
use mate_journal::Entry;
use mate_num::Stamp;
use node_state::{Parts, tell};
use vm_shape::Description;

/// Cuts all live invocations, sets all shared variables to 0, and empties all buffers.
pub(crate) fn clear(description: &Description, parts: &mut Parts)
    ensures { IsCleared description.now parts.old parts.new }
{
    let shared = description.shared.len() as u8;
    let buffers = description.buffers.len() as u8;
    parts.contexts.clear();
    parts.heap.restart(shared, buffers);
}

/// Records the store, and begins an era: all live invocations are cut, all shared variables are 0, and all buffers are
/// empty. What is installed stays.
pub fn reset_in(description: &Description, parts: &mut Parts, at: Stamp)
    requires rests { Rests description.now parts.old }
    requires timely { IsTimely at parts.old.log.all }
    requires room { 2 ≤ parts.old.log.all.spare }
    requires few { length parts.old.log.all.entries < 4100000000 }
    ensures again { RestsAgain description.now parts.old parts.new at
        (AtPace description.now parts.old (Resets (machine_in description.now)
        (reading description.now parts.old.log.all))) }
    ensures gone { parts.new.log.gone ≡ parts.old.log.gone }
    ensures handlers { parts.new.handlers ≡ parts.old.handlers }
{
    seen_in(description, parts, at);
    clear(description, parts);
    tell(&mut parts.log, at, Entry::Reset);
}
