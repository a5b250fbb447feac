//! The run of a world has one report.

ghost use Rattle.std.specs.Prelude.{ℕ};
ghost use Rattle.vm_shape.specs.declared.description.Description.{Description};
ghost use Rattle.mate_journal.specs.Machine.{HeldProgram, Meaning};
ghost use Rattle.script_steps.specs.declared.world.World.{World as Script};
ghost use Rattle.script_steps.specs.World.{IsRightWorld};
ghost use Rattle.world_rules.specs.World.{World, world_of};
ghost use Rattle.report_laws.specs.OneReport.{EventsAreOfNodes, WorldHasOneReport};

/// What a world determines of a run that ends by itself: how it ends, its events, and all that its report tells.
pub fn world_has_one_report()
    ensures { (w : World) → EventsAreOfNodes w → WorldHasOneReport w }
{}

/// So the world of a right script has one report, whatever its programs mean.
pub fn script_has_one_report()
    ensures { (d : Description) (meaning : Meaning) (script : Script) (programs : ℕ → HeldProgram) → IsRightWorld d script
        → WorldHasOneReport (world_of d meaning script programs) }
{}
