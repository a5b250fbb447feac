//! Whole scripts of worlds.

ghost use Rattle.std.specs.Prelude.{◌≡◌, ◌∷◌, [], codes, pos, IfOk};
ghost use Rattle.vm_shape.specs.declared.function.FunKind.TheVariants.{Sense};
ghost use Rattle.vm_shape.specs.declared.function.Function.{Function as Called};
ghost use Rattle.vm_shape.specs.declared.handler.Handler.{Handler as Handling};
ghost use Rattle.script_steps.specs.declared.fault.Cause.TheVariants.{OldVersion, TimeBack};
ghost use Rattle.world_rules.specs.World.{series_in};
ghost use Rattle.callers_worlds.specs.Lines.{RefusesWorld};

use script_reader::world_script;
use script_steps::{ScriptFault, World};
use std::alloc::Global;
use vm_shape::Description;

pub fn the_last_time_is_kept(alloc: Global, desc: &Description) -> Result<World, ScriptFault>
    ensures { RefusesWorld 5 TimeBack result }
{
    world_script(
        alloc,
        desc,
        b"nodes 1\nrandom 0\nuntil 9\nat 5 show 0\nat 4 show 0",
    )
}

/// The second injection has the version of the first one.
pub fn the_newest_version_is_kept(alloc: Global, desc: &Description) -> Result<World, ScriptFault>
    ensures { (h : Handling) → desc.now.handlers.items ≡ h ∷ [] → h.name ≡ codes "h" → RefusesWorld 5 OldVersion result }
{
    world_script(
        alloc,
        desc,
        b"nodes 1\nrandom 0\nuntil 9\nat 5 inject 0 h 2 f\nat 6 inject 0 h 2 f",
    )
}

/// Values go to the series of their sensor, and not to the first one.
pub fn values_go_to_their_series(alloc: Global, desc: &Description) -> Result<World, ScriptFault>
    ensures { (f g : Called) → desc.now.functions.items ≡ f ∷ g ∷ [] → f.name ≡ codes "f" → g.name ≡ codes "g" → f.kind ≡ Sense
        → g.kind ≡ Sense
        → IfOk result (λ world. series_in world.series 0 1 ≡ pos 2 ∷ pos 3 ∷ []) }
{
    world_script(
        alloc,
        desc,
        b"nodes 1\nrandom 0\nuntil 9\nseries 0 f 1\nseries 0 g 2\nseries 0 g 3",
    )
}
