//! The answers to a node's calls.

ghost use Rattle.std.specs.Prelude.{◌≡◌, ◌+◌, ◌/◌, ◌%◌, ◌<◌, ◌≤◌, List, length, pos, count_by, ◌==◌};
ghost use Rattle.mate_num.specs.declared.bounds.TheConstants.{HOUR};
ghost use Rattle.mate_num.specs.declared.id.FunId.{FunId as FunName};
ghost use Rattle.vm_shape.specs.declared.function.FunKind.TheVariants as kind;
ghost use Rattle.world_rules.specs.State.{series_value};
ghost use Rattle.world_rules.specs.World.{World, called_kind, stream_word};
ghost use Rattle.world_air.specs.Calls.{AreCallsOf, HasSensors, words_taken};

use mate_num::FunId;
use script_steps::Series;
use vm_shape::Description;
use world_air::{CallAnswer, Calls};

/// A clock that told milliseconds would break the first clause, a random value that leaves out the greatest the second,
/// and a series that begins again behind its last value the third.
pub fn a_call_is_answered_by_its_kind(
    calls: &mut Calls,
    desc: &Description,
    series: &[Series],
    node: u8,
    fun: FunId,
    now: u32,
) -> CallAnswer
    requires fun { fun.0 < length desc.now.functions.items }
    requires counts { length calls.old.counts.items ≡ length desc.now.functions.items }
    requires hour { now ≤ HOUR }
    ensures clock { (w : World) (called : List FunName) → HasSensors w desc.now series.now → AreCallsOf w node called calls.old
        → called_kind w fun ≡ kind.Clock
        → result.value ≡ pos (result.time / 1000 % 32768) }
    ensures random { (w : World) (called : List FunName) → HasSensors w desc.now series.now → AreCallsOf w node called calls.old
        → called_kind w fun ≡ kind.Rand
        → result.value ≡ pos (stream_word w (node + (node + 1)) (words_taken w called) % 32768) }
    ensures sensor { (w : World) (called : List FunName) → HasSensors w desc.now series.now → AreCallsOf w node called calls.old
        → called_kind w fun ≡ kind.Sense
        → result.value ≡ series_value (w.series node fun.0) (count_by (λ g. g.0 == fun.0) called) }
{
    calls.answer(desc, series, node, fun, now)
}
