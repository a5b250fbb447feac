//! Lines of a world's script that stand behind others.

ghost use Rattle.std.specs.Prelude.{◌≡◌, IfErr};
ghost use Rattle.script_steps.specs.declared.fault.Cause.TheVariants.{Node, Range};
ghost use Rattle.script_reader.specs.declared.refusal.Refusal.TheVariants.{NoMemory};
ghost use Rattle.script_reader.specs.Draft.{world_progress_of, KeepsWorld, AreTables};
ghost use Rattle.callers_worlds.specs.Lines.{linked_world, RefusesLine};

use script_reader::{Command, Draft, Refusal};
use script_steps::Words;
use vm_shape::Description;

/// A link from 0 to 1 stands already.
pub fn a_link_stands_once(draft: &Draft, desc: &Description) -> Result<(), Refusal>
    requires keeps { KeepsWorld desc.now (world_progress_of draft.now) }
    requires tables { AreTables draft.now.linked draft.now.places draft.now.world }
    requires progress { world_progress_of draft.now ≡ linked_world }
    ensures { RefusesLine Range result }
{
    draft.command(
        desc,
        &mut Words::of(b"link 0 1 5"),
        &mut Command::Suppress(true),
    )
}

/// There are 3 nodes.
pub fn a_node_that_is_not_there_is_told_so(draft: &Draft, desc: &Description) -> Result<(), Refusal>
    requires keeps { KeepsWorld desc.now (world_progress_of draft.now) }
    requires tables { AreTables draft.now.linked draft.now.places draft.now.world }
    requires progress { world_progress_of draft.now ≡ linked_world }
    ensures { RefusesLine Node result }
{
    draft.command(
        desc,
        &mut Words::of(b"link 1 3 5"),
        &mut Command::Suppress(true),
    )
}

/// The time of the line before is 5.
pub fn the_same_time_may_come_again(draft: &Draft, desc: &Description) -> Result<(), Refusal>
    requires keeps { KeepsWorld desc.now (world_progress_of draft.now) }
    requires tables { AreTables draft.now.linked draft.now.places draft.now.world }
    requires progress { world_progress_of draft.now ≡ linked_world }
    ensures { IfErr result (λ refusal. refusal ≡ NoMemory) }
{
    draft.command(
        desc,
        &mut Words::of(b"at 5 show 0"),
        &mut Command::Suppress(true),
    )
}
