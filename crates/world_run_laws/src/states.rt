//! What stands between the events of a world: whatever comes next finds what it needs. And what its report says by code, said by sources.

ghost use Rattle.std.specs.Prelude.{List};
ghost use Rattle.vm_shape.specs.declared.description.Description.{Description};
ghost use Rattle.mate_journal.specs.declared.program.Program.{Program};
ghost use Rattle.script_steps.specs.declared.world.World.{World as Script};
ghost use Rattle.world_laws.specs.Premises.{IsRightScript};
ghost use Rattle.node_programs.specs.ScriptSteps.{program_at};
ghost use Rattle.world_run_laws.specs.Coming.{code_world};
ghost use Rattle.node_programs.specs.WorldPrograms.{AreProgramsOfWorld};
ghost use Rattle.world_run_laws.specs.Sound.{NextMayCome, NodesAreSound, DuesAreOfNodes};
ghost use Rattle.mate_journal.specs.NodeScript.{RunEnd};
ghost use Rattle.mate_journal.specs.declared.report.Report.{Report};
ghost use Rattle.world_rules.specs.Report.{IsWorldReport};
ghost use Rattle.world_run_laws.specs.SourceWorld.{source_world};

/// In a right world with right programs, whatever event is due next finds what it needs: its line, handler, context or link is
/// there, an answer comes to the one invocation that waits in its context, a packet is right for the machine, an interval ends at
/// its end, and a program that it installs is taken. Each node keeps what this rests on, all that is due is of the
/// world's nodes, and the script is right with the programs that its lines inject.
pub fn states_are_sound()
    ensures next { (d : Description) (script : Script) (ps : List Program) → AreProgramsOfWorld d script ps
        → NextMayCome (code_world d script ps) }
    ensures nodes { (d : Description) (script : Script) (ps : List Program) → AreProgramsOfWorld d script ps
        → NodesAreSound (code_world d script ps) }
    ensures dues { (d : Description) (script : Script) (ps : List Program) → AreProgramsOfWorld d script ps
        → DuesAreOfNodes (code_world d script ps) }
    ensures script { (d : Description) (script : Script) (ps : List Program) → AreProgramsOfWorld d script ps
        → IsRightScript d script (program_at ps) }
{}

/// Where a script's programs are right, a report of the world whose nodes run their code is one of the world in which they mean
/// their sources.
pub fn worlds_hold_by_their_sources()
    ensures { (d : Description) (script : Script) (ps : List Program) (how : RunEnd) (r : Report) →
        AreProgramsOfWorld d script ps → IsWorldReport (code_world d script ps) how r → IsWorldReport (source_world d script ps) how r }
{}
