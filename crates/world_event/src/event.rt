//! One event of a world.

ghost use Rattle.std.specs.Prelude.{◌≡◌, List, OnOk};
ghost use Rattle.world_rules.specs.Cause.{Cause};
ghost use Rattle.world_rules.specs.State.{Moment};
ghost use Rattle.world_run_laws.specs.Coming.{code_world};
ghost use Rattle.node_programs.specs.WorldPrograms.{AreProgramsOfWorld};
ghost use Rattle.world_event.specs.Performing.{MayPerform, Performed};
ghost use Rattle.world_state.specs.Motes.{plain_effect};

use crate::finish::finish;
use crate::handling::handle;
use crate::turns::{have_turns, is_well_formed};
use mate_journal::StoredPrograms;
use mate_num::{NoMemory, Stamp};
use radio_sim::{Radio, SharedEvent};
use script_steps::World;
use vm_shape::Description;
use world_run_laws::states_are_sound;
use world_state::{Effect, Mote};

/// An event that was due comes to its node, which then has turns until nobody is ready there. The effect is nothing before
/// it, and again after it; after `NoMemory` nothing is said.
pub fn perform(
    radio: &mut Radio,
    mote: &mut Mote,
    desc: &Description,
    world: &World,
    programs: &StoredPrograms,
    number: u8,
    event: &SharedEvent,
    at: Stamp,
    effect: &mut Effect,
) -> Result<(), NoMemory>
    requires right { AreProgramsOfWorld desc.now world.now programs.now }
    requires may { (ms : List Moment) × (c : Cause)
        × MayPerform (code_world desc.now world.now programs.now) ms c number event.now at radio.old mote.old }
    requires plain { effect.old ≡ plain_effect }
    ensures performed { OnOk result ((ms : List Moment) (c : Cause)
        → MayPerform (code_world desc.now world.now programs.now) ms c number event.now at radio.old mote.old
        → Performed (code_world desc.now world.now programs.now) ms c number at radio.old radio.new mote.old mote.new) }
    ensures plain { OnOk result (effect.new ≡ plain_effect) }
{
    states_are_sound();
    is_well_formed(&mote.node);
    handle(mote, desc, world, programs, event, at, effect)?;
    let from = mote.node.told();
    have_turns(&mut mote.node, at)?;
    finish(radio, mote, desc, world, number, event, effect, from, at)?;
    effect.clear();
    Ok(())
}
