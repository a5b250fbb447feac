//! What a step of a script does on a node, as one event.

ghost use Rattle.std.specs.Prelude.{◌≡◌, ◌<◌, ◌≤◌, length};
ghost use Rattle.mate_num.specs.declared.bounds.TheConstants.{CONTEXTS_MAX};
ghost use Rattle.vm_shape.specs.Whole.{context_count};
ghost use Rattle.mate_journal.specs.NodeScript.{Install, Post as PostStep, StepIn, Answer as AnswerStep};
ghost use Rattle.script_steps.specs.Steps.{IsRightStep, IsRightTurn};
ghost use Rattle.node_open.specs.View.{HasPlaces, Tells};
ghost use Rattle.node_programs.specs.Right.{IsRightProgram, AreRightPrograms};
ghost use Rattle.node_programs.specs.Sources.{held_as};
ghost use Rattle.node_programs.specs.ScriptSteps.{step_of, IsProgramOf, program_at};
ghost use Rattle.node_runs.specs.Running.{IsReadyFor, MakesOn};

use mate_journal::{StoredProgram, StoredPrograms, VoidCause};
use mate_num::{ContextId, HandlerId, Payload, Stamp};
use node_calls::InstallFault;
use node_open::OpenNode;
use script_steps::Step;

/// Installs the program, or records that the node holds a version that isn't older.
fn install(node: &mut OpenNode, program: &StoredProgram, at: Stamp)
    requires ready { IsReadyFor node.old at }
    requires places { HasPlaces node.old }
    requires right { IsRightProgram node.old.description program.now }
    ensures { Tells node.old node.new at (MakesOn node.old (Install (held_as program.now))) }
{
    match node.install(program.image.as_slice(), at) {
        Ok(()) => {}
        Err(InstallFault::NotNewer { held }) => node.void(VoidCause::NotNewer { held }, at),
        Err(InstallFault::Capsule(_)) => unreachable!(),
        Err(InstallFault::Code(_)) => unreachable!(),
    }
}

/// Posts the payload for the handler. It isn't inlined, so that other steps make no room for a payload.
#[inline(never)]
fn post(node: &mut OpenNode, handler: HandlerId, payload: &Payload, at: Stamp)
    requires ready { IsReadyFor node.old at }
    requires handler { handler.0 < length node.old.description.handlers.items }
    ensures { Tells node.old node.new at (MakesOn node.old (PostStep handler payload.now)) }
{
    let _ = node.post(handler, payload, at);
}

/// Gives the context one turn, or records that no invocation is ready there.
fn take_turn(node: &mut OpenNode, ctx: ContextId, n: u32, at: Stamp)
    requires ready { IsReadyFor node.old at }
    requires right { IsRightTurn node.old.description ctx.0 n }
    requires contexts { context_count node.old.description ≤ CONTEXTS_MAX }
    ensures { Tells node.old node.new at (MakesOn node.old (StepIn ctx n)) }
{
    match node.step(ctx, n, at) {
        Ok(_) => {}
        Err(_) => node.void(VoidCause::NotReady, at),
    }
}

/// Answers the call that the invocation in the context made, or records that none waits there.
fn answer(node: &mut OpenNode, ctx: ContextId, value: i16, at: Stamp)
    requires ready { IsReadyFor node.old at }
    requires context { ctx.0 < CONTEXTS_MAX }
    ensures { Tells node.old node.new at (MakesOn node.old (AnswerStep ctx value)) }
{
    match node.answer(ctx, value, at) {
        Ok(()) => {}
        Err(_) => node.void(VoidCause::NotWaiting, at),
    }
}

/// Installs the file's program, or records that the node holds a version that isn't older.
fn install_file(node: &mut OpenNode, programs: &StoredPrograms, file: u32, at: Stamp)
    requires ready { IsReadyFor node.old at }
    requires places { HasPlaces node.old }
    requires below { file < length programs.now }
    requires programs { AreRightPrograms node.old.description programs.now }
    ensures { Tells node.old node.new at (MakesOn node.old (Install (program_at programs.now file))) }
{
    install(node, &programs.as_slice()[file as usize], at);
}

/// Makes the step, as one event with this stamp.
pub(crate) fn make_step(node: &mut OpenNode, step: &Step, programs: &StoredPrograms, at: Stamp)
    requires ready { IsReadyFor node.old at }
    requires places { HasPlaces node.old }
    requires right { IsRightStep node.old.description (length programs.now) step.now }
    requires programs { AreRightPrograms node.old.description programs.now }
    requires contexts { context_count node.old.description ≤ CONTEXTS_MAX }
    ensures { Tells node.old node.new at (MakesOn node.old (step_of programs.now step.now)) }
{
    match step {
        Step::Install { program, .. } => install_file(node, programs, *program, at),
        Step::Load { program } => install_file(node, programs, *program, at),
        Step::Post { handler, payload } => post(node, *handler, payload, at),
        Step::Step { ctx, n } => take_turn(node, *ctx, *n, at),
        Step::Run => node.settle(at),
        Step::Answer { ctx, value } => answer(node, *ctx, *value, at),
        Step::Show => node.seen(at),
        Step::Reset => node.reset(at),
    }
}
