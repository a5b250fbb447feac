//! The parts of a node that its calls change, and what they record in its log.

ghost use Rattle.std.specs.Prelude.{◌≡◌, ◌≤◌, ◌+◌};
ghost use Rattle.journal_laws.specs.Growth.{IsPushed};
ghost use Rattle.mate_journal.specs.OpenLog.{NamesNothing};

use crate::contexts::Contexts;
use crate::handlers::Handlers;
use mate_journal::{Entry, OpenLog, Stamped};
use mate_num::Stamp;
use node_heap::Heap;

/// What a node has beside its description.
#[derive(Drop)]
pub struct Parts {
    pub heap: Heap,
    pub contexts: Contexts,
    pub handlers: Handlers,
    /// How many invocations were posted.
    pub posts: u32,
    pub log: OpenLog,
}

/// Records an entry that names neither an image nor a store.
pub fn tell(log: &mut OpenLog, at: Stamp, entry: Entry)
    requires room { 1 ≤ log.old.all.spare }
    requires names { NamesNothing entry }
    ensures pushed { IsPushed log.old.all record { stamp = at; entry = entry } log.new.all }
    ensures spare { log.old.all.spare ≤ log.new.all.spare + 1 }
    ensures gone { log.new.gone ≡ log.old.gone }
{
    log.push(Stamped { stamp: at, entry });
}
