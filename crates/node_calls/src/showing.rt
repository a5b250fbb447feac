//! Entries that change nothing of a node: a store that is recorded, and a step that could do nothing.

ghost use Rattle.std.specs.Prelude.{◌≡◌, ◌<◌, ◌≤◌, ◌∷◌, [], length};
ghost use Rattle.mate_journal.specs.Journal.{Void};
ghost use Rattle.node_state.specs.Keeps.{IsTimely};
ghost use Rattle.node_state.specs.Starting.{Rests};
ghost use Rattle.node_calls.specs.Calls.{RestsAgain, TellsStore};

use mate_journal::{Entry, VoidCause};
use mate_num::Stamp;
use node_state::{Parts, tell};
use vm_shape::Description;

/// Records the shared variables and buffers as they are.
pub fn seen_in(description: &Description, parts: &mut Parts, at: Stamp)
    requires rests { Rests description.now parts.old }
    requires timely { IsTimely at parts.old.log.all }
    requires room { 1 ≤ parts.old.log.all.spare }
    requires few { length parts.old.log.all.entries < 4100000000 }
    ensures tells { TellsStore description.now parts.old parts.new at }
    ensures gone { parts.new.log.gone ≡ parts.old.log.gone }
    ensures handlers { parts.new.handlers ≡ parts.old.handlers }
{
    let _description = description;
    parts.log.push_seen(at, parts.heap.store());
}

/// Records why a step did nothing.
pub fn void_in(description: &Description, parts: &mut Parts, cause: VoidCause, at: Stamp)
    requires rests { Rests description.now parts.old }
    requires timely { IsTimely at parts.old.log.all }
    requires room { 1 ≤ parts.old.log.all.spare }
    ensures again { RestsAgain description.now parts.old parts.new at (λ told. told ≡ Void cause ∷ []) }
    ensures same { parts.new ≡ record (parts.old) { log = parts.new.log } }
    ensures gone { parts.new.log.gone ≡ parts.old.log.gone }
    ensures handlers { parts.new.handlers ≡ parts.old.handlers }
{
    let _description = description;
    tell(&mut parts.log, at, Entry::Void { cause });
}
