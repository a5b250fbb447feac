//! A node's log.

ghost use Rattle.std.specs.Prelude.{◌≡◌, ◌≤◌, ◌∷◌, []};
ghost use Rattle.mate_journal.specs.declared.entry.Entry.TheVariants.{Reset};

use mate_journal::{Entry, OpenLog};
use mate_num::Stamp;
use node_state::tell;

pub fn a_told_entry_stands_in_the_log(log: &mut OpenLog, at: Stamp)
    requires room { 1 ≤ log.old.all.spare }
    requires empty { log.old.all.entries ≡ [] }
    ensures { log.new.all.entries ≡ record { stamp = at; entry = Reset } ∷ [] }
{
    tell(log, at, Entry::Reset);
}
