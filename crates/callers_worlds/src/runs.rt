//! The run of a world.

ghost use Rattle.std.specs.Prelude.{◌≡◌, ◌≤◌, suc, false, length, slice_get, IsSomeAnd, IfOk, IfErr};
ghost use Rattle.mate_files.specs.Sink.{Sent, SentShort};
ghost use Rattle.mate_journal.specs.declared.report.Report.{Report as Reported};
ghost use Rattle.mate_journal.specs.declared.report.IntoFault.TheVariants.{Sink as StoppedBySink};
ghost use Rattle.mate_journal.specs.declared.report.RunFault.TheVariants.{LogFull};
ghost use Rattle.node_programs.specs.WorldPrograms.{AreProgramsOfWorld};
ghost use Rattle.report_writer.specs.Text.{lines, text};
ghost use Rattle.world_run_laws.specs.SourceWorld.{source_world};
ghost use Rattle.callers_worlds.specs.Runs.{CameWithRoom, EndsSeen, HaveOwnEvents, IsFullBehind};

use mate_files::Sink;
use mate_journal::{IntoFault, Programs, Report, RunFault};
use script_steps::World;
use std::alloc::Global;
use vm_shape::Description;
use world_sim::{run, run_into};

/// A run that stops one record earlier would be refused at 999,999.
pub fn a_full_run_has_a_million_records(
    alloc: Global,
    desc: &Description,
    world: &World,
    programs: &Programs,
) -> Result<Report, RunFault>
    requires { AreProgramsOfWorld desc.now world.now programs.now }
    ensures { IfErr result (λ fault. (report : Reported) → fault ≡ LogFull report
        → IsFullBehind (source_world desc.now world.now programs.now) report.events) }
{
    run(alloc, desc, world, programs)
}

/// What is recorded of the air counts as well: the last event came where fewer than 1,000,000 records stood.
pub fn the_last_event_had_room(
    alloc: Global,
    desc: &Description,
    world: &World,
    programs: &Programs,
) -> Result<Report, RunFault>
    requires { AreProgramsOfWorld desc.now world.now programs.now }
    ensures { IfOk result (λ report. CameWithRoom (source_world desc.now world.now programs.now) report.events) }
{
    run(alloc, desc, world, programs)
}

/// The last entry of the first node shows its store, under the next number and at the last time.
pub fn the_first_node_is_seen_at_the_end(
    alloc: Global,
    desc: &Description,
    world: &World,
    programs: &Programs,
) -> Result<Report, RunFault>
    requires right { AreProgramsOfWorld desc.now world.now programs.now }
    requires nodes { 1 ≤ world.now.nodes }
    ensures { IfOk result (λ report. IsSomeAnd (slice_get report.nodes 0) (EndsSeen (suc report.events) world.now.until)) }
{
    run(alloc, desc, world, programs)
}

/// The entries of an event are in the journal of its own node, and in no other.
pub fn each_node_has_its_own_events(
    alloc: Global,
    desc: &Description,
    world: &World,
    programs: &Programs,
) -> Result<Report, RunFault>
    requires { AreProgramsOfWorld desc.now world.now programs.now }
    ensures { IfOk result (λ report. HaveOwnEvents (source_world desc.now world.now programs.now) world.now.until report) }
{
    run(alloc, desc, world, programs)
}

/// The text of a whole run is written once and to its end, where each node shows its store.
pub fn a_whole_run_is_written_to_its_last_stores<S: Sink>(
    alloc: Global,
    desc: &Description,
    world: &World,
    programs: &Programs,
    out: &mut S,
) -> Result<Report, IntoFault>
    requires { AreProgramsOfWorld desc.now world.now programs.now }
    ensures sent { IfOk result (λ report. Sent (S.written out.old) (S.written out.new) (text desc.now report)) }
    ensures seen { IfOk result (λ report. HaveOwnEvents (source_world desc.now world.now programs.now) world.now.until report) }
{
    run_into(alloc, desc, world, programs, out)
}

/// A run that hands out the report of nothing where its sink fails would give one without nodes.
pub fn a_stopped_report_has_its_nodes<S: Sink>(
    alloc: Global,
    desc: &Description,
    world: &World,
    programs: &Programs,
    out: &mut S,
) -> Result<Report, IntoFault>
    requires { AreProgramsOfWorld desc.now world.now programs.now }
    ensures { IfErr result (λ fault. (report : Reported) → fault ≡ StoppedBySink report → length report.nodes ≡ world.now.nodes) }
{
    run_into(alloc, desc, world, programs, out)
}

/// A run that hands out the report without the last stores, all of whose lines were sent, would lack no byte of them.
pub fn a_cut_report_lacks_a_byte<S: Sink>(
    alloc: Global,
    desc: &Description,
    world: &World,
    programs: &Programs,
    out: &mut S,
) -> Result<Report, IntoFault>
    requires { AreProgramsOfWorld desc.now world.now programs.now }
    ensures { IfErr result (λ fault. (report : Reported) → fault ≡ StoppedBySink report → report.whole ≡ false
        → (IsFullBehind (source_world desc.now world.now programs.now) report.events → ⊥)
        → SentShort (S.written out.old) (S.written out.new) (lines desc.now report)) }
{
    run_into(alloc, desc, world, programs, out)
}
