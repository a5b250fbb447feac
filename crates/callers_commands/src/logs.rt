//! Logs of nodes, and the report that they make.

ghost use Rattle.std.specs.Prelude.{◌≡◌, ◌≤◌, ◌<◌, ◌∷◌, [], true, length, take};
ghost use Rattle.mate_journal.specs.declared.entry.Entry.TheVariants.{Seen, Install};

use mate_journal::{Airs, NodeLog, NodeLogs, OpenLog, Report};
use mate_num::{HandlerId, Image, Stamp, Store};
use std::alloc::Global;

pub fn the_first_image_has_position_0(log: &mut NodeLog, image: &Image) -> u32
    requires room { 1 ≤ log.old.spare }
    requires none { log.old.images ≡ [] }
    ensures { result ≡ 0 }
{
    log.add_image(image)
}

pub fn the_first_store_has_position_0(log: &mut NodeLog, at: Stamp, store: Store)
    requires room { 1 ≤ log.old.spare }
    requires entries { log.old.entries ≡ [] }
    requires stores { log.old.stores ≡ [] }
    ensures { log.new.entries ≡ record { stamp = at; entry = Seen 0 } ∷ [] }
{
    log.push_seen(at, store);
}

/// The third number is that of the stores.
pub fn a_cut_keeps_so_many_of_each(log: &mut NodeLog)
    ensures entries { log.new.entries ≡ take 1 log.old.entries }
    ensures images { log.new.images ≡ take 2 log.old.images }
    ensures stores { log.new.stores ≡ take 3 log.old.stores }
{
    log.cut(1, 2, 3);
}

pub fn an_install_has_its_version(log: &mut OpenLog, at: Stamp, handler: HandlerId, image: &Image)
    requires room { 1 ≤ log.old.all.spare }
    requires entries { log.old.all.entries ≡ [] }
    requires images { log.old.all.images ≡ [] }
    ensures { log.new.all.entries ≡ record { stamp = at; entry = Install handler 7 0 } ∷ [] }
{
    log.push_install(at, handler, 7, image);
}

/// What was forgotten before is still what was told.
pub fn all_is_told_behind_a_forget(log: &mut OpenLog)
    requires { length log.old.all.entries < 4000000000 }
    ensures entries { log.new.all.entries ≡ log.old.all.entries }
    ensures images { log.new.all.images ≡ log.old.all.images }
    ensures stores { log.new.all.stores ≡ log.old.all.stores }
{
    log.forget();
}

pub fn no_store_is_kept_behind_a_forget(log: &mut OpenLog) -> usize
    requires { length log.old.all.entries < 4000000000 }
    ensures { result ≡ 0 }
{
    log.forget();
    log.kept().stores().len()
}

pub fn what_is_forgotten_is_counted(log: &mut OpenLog) -> usize
    requires { length log.old.all.entries < 4000000000 }
    ensures { result ≡ length log.old.all.entries }
{
    log.forget();
    log.told()
}

pub fn a_whole_run_has_a_whole_report(alloc: Global) -> Report
    ensures { result.whole ≡ true }
{
    Report::new(NodeLogs::new(alloc), Airs::new(alloc), 0, true)
}
