//! The hop bound, over the lines of a world's script and the journals of its report; and that this report is tidy.

ghost use Rattle.world_run_laws.specs.Bound.{ReportsKeepTheBound, ReportsShowTheBound, ShownIsReached};
ghost use Rattle.world_run_laws.specs.Windows.{LosslessIsPromised, ReportsKeepTheWindows};
ghost use Rattle.std.specs.Prelude.{ℕ};
ghost use Rattle.vm_shape.specs.declared.description.Description.{Description};
ghost use Rattle.mate_journal.specs.Machine.{HeldProgram, Meaning};
ghost use Rattle.mate_journal.specs.NodeScript.{RunEnd};
ghost use Rattle.mate_journal.specs.declared.report.Report.{Report};
ghost use Rattle.script_steps.specs.declared.world.World.{World as Script};
ghost use Rattle.script_steps.specs.World.{IsRightWorld};
ghost use Rattle.world_rules.specs.World.{world_of};
ghost use Rattle.world_rules.specs.Report.{IsWorldReport};
ghost use Rattle.report_writer.specs.Tidy.{IsTidy};

/// Where suppression is off and no link loses a packet, let a line of the script inject a version on a node, and let another
/// node be so many hops away. Let no line behind it reset a node or inject for the handler for three times the longest interval
/// a hop. Where the run reached that time, the other node's journal installs the version by then, and at each place from there
/// on the node holds it or a newer one. A report shows the time that its run reached: a whole one that of its script, and any one
/// that of each of its records and entries. Whatever is lost, suppressed, reset or injected, a report keeps the windows that it
/// shows, or that its script promises: what a version reaches over a path of them installs it or something newer in time. Without
/// suppression and loss this gives the bound.
pub fn reports_keep_the_bound()
    ensures reached { ReportsKeepTheBound }
    ensures times { ShownIsReached }
    ensures shown { ReportsShowTheBound }
    ensures windows { ReportsKeepTheWindows }
    ensures lossless { LosslessIsPromised }
{}

/// The report of a right script's world is tidy, whatever its programs mean and however its run ends.
pub fn world_report_is_tidy()
    ensures { (d : Description) (meaning : Meaning) (script : Script) (programs : ℕ
        → HeldProgram) (how : RunEnd) (r : Report) →
        IsRightWorld d script → IsWorldReport (world_of d meaning script programs) how r → IsTidy d r }
{}
