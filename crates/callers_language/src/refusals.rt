//! Refusals that exclude wrong bodies of `refuse`, and of what makes a cause of a fault.

ghost use Rattle.std.specs.Prelude.{◌≡◌, ◌++◌, None, codes, decimal};
ghost use Rattle.command_refusals.specs.DescriptionCauses.{description_words};
ghost use Rattle.command_refusals.specs.declared.status.Status.TheVariants.{BadDescription, BadSource, FileFault};
ghost use Rattle.callers_language.specs.Refused.{TellsAs};

use command_refusals::{Cause, DescriptionCause, ExpansionCause, Refusal, Status, Unread};
use mate_files::Sink;
use mate_num::Text;
use ts_compiler::CompileFault;
use ts_proc_names::ProcFault;

pub fn a_deep_script_is_told_with_its_depth<E: Sink>(err: &mut E, name: Text, need: u32) -> Status
    ensures { TellsAs BadSource (codes "bad source " ++ name ++ codes " " ++ (codes "depth " ++ decimal need ++ codes "\n"))
        (E.written err.old) (E.faults err.old) (E.written err.new) (E.faults err.new) result }
{
    Refusal::InFile(name, Cause::Code(CompileFault::StackDepth { need })).refuse(err)
}

pub fn a_reserved_name_is_told_with_its_place<E: Sink>(
    err: &mut E,
    name: Text,
    place: u32,
) -> Status
    ensures { TellsAs BadSource (codes "bad source " ++ name ++ codes " " ++ (codes "reserved " ++ decimal place ++ codes "\n"))
        (E.written err.old) (E.faults err.old) (E.written err.new) (E.faults err.new) result }
{
    Refusal::InFile(name, Cause::Expansion(ExpansionCause::Reserved { place })).refuse(err)
}

pub fn a_large_file_is_told_by_its_name<E: Sink>(err: &mut E, name: Text) -> Status
    ensures { TellsAs FileFault (codes "file large " ++ name ++ codes "\n")
        (E.written err.old) (E.faults err.old) (E.written err.new) (E.faults err.new) result }
{
    Refusal::InFile(name, Cause::Unread(Unread::Large)).refuse(err)
}

pub fn a_bad_description_has_a_status_of_its_own<E: Sink>(
    err: &mut E,
    cause: DescriptionCause,
) -> Status
    ensures { TellsAs BadDescription (codes "bad description " ++ description_words cause)
        (E.written err.old) (E.faults err.old) (E.written err.new) (E.faults err.new) result }
{
    Refusal::BadDescription(cause).refuse(err)
}

pub fn want_of_memory_is_no_fault_of_a_source() -> Option<ExpansionCause>
    ensures { result ≡ None }
{
    ExpansionCause::of(ProcFault::NoMemory)
}
