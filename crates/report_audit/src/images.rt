//! What is installed along a journal.

ghost use Rattle.std.specs.Prelude.{◌≡◌, ◌≤◌, length};
ghost use Rattle.std.specs.List.{list_any};
ghost use Rattle.mate_num.specs.declared.bounds.TheConstants.{HANDLERS_MAX};
ghost use Rattle.mate_journal.specs.Journal.{journal_of, journal_entry};
ghost use Rattle.mate_journal.specs.Tidy.{IsTidyLog};
ghost use Rattle.journal_laws.specs.Growth.{IsNamedBelow};
ghost use Rattle.node_programs.specs.Sources.{is_held_as};
ghost use Rattle.audit_rules.specs.Roll.{Roll, nobody, rolled};
ghost use Rattle.audit_rules.specs.Tests as told;
ghost use Rattle.audit_rules.specs.Views.{HasHandlerBelow};
ghost use Rattle.report_audit.specs.Versions.{HasVersions};

use audit_programs::find_program;
use mate_journal::{Entry, NodeLog, StoredPrograms};
use mate_num::{HANDLERS_MAX, HandlerId, Image};
use vm_shape::Description;

/// Whether one of the programs has this handler, version and image. The search begins at `place`, which then is the position of the
/// program.
fn is_one_of(
    programs: &StoredPrograms,
    place: &mut usize,
    handler: HandlerId,
    version: u32,
    image: &Image,
) -> bool
    ensures { result ≡ list_any (is_held_as record { handler = handler; version = version; image = image.now }) programs.now }
{
    match find_program(programs, *place, handler, version, image) {
        Some(found) => {
            *place = found;
            true
        }
        None => false,
    }
}

/// Whether what the entry installs, if it installs something, is one of the programs, and newer than what was installed. The search
/// begins at `place`. `held` has the version that is installed for each handler, 0 for none, and gets the new one.
fn installs_right(
    programs: &StoredPrograms,
    place: &mut usize,
    log: &NodeLog,
    held: &mut [u32; HANDLERS_MAX],
    entry: &Entry,
) -> bool
    requires range { HasHandlerBelow HANDLERS_MAX entry.now }
    requires named { IsNamedBelow (length log.now.images) (length log.now.stores) entry.now }
    ensures right { (x : Roll) → HasVersions held.old x → result ≡ told.installs_right programs.now x (journal_entry log.now entry.now) }
    ensures held { (x : Roll) → HasVersions held.old x → HasVersions held.new (rolled x (journal_entry log.now entry.now)) }
{
    let Entry::Install {
        handler,
        version,
        image,
    } = entry
    else {
        return true;
    };
    let bytes = &log.images()[*image as usize];
    let before = held[usize::from(handler.0)];
    held[usize::from(handler.0)] = *version;
    is_one_of(programs, place, *handler, *version, bytes) && before < *version
}

/// Whether each install is of one of the programs, and newer than what was installed for its handler.
pub(crate) fn images_right(desc: &Description, programs: &StoredPrograms, log: &NodeLog) -> bool
    requires few { length desc.now.handlers.items ≤ HANDLERS_MAX }
    requires tidy { IsTidyLog desc.now log.now }
    ensures { result ≡ told.images_right programs.now nobody (journal_of log.now) }
{
    let _desc = desc;
    let mut held = [0; HANDLERS_MAX];
    let mut place = 0;
    for stamped in log.entries() {
        if !installs_right(programs, &mut place, log, &mut held, &stamped.entry) {
            return false;
        }
    }
    true
}
