//! The queued invocations that nothing holds back start, in the order of their posts.

ghost use Rattle.std.specs.Prelude.{◌≡◌, MatchBool};
ghost use Rattle.node_state.specs.Keeps.{IsTimely};
ghost use Rattle.node_state.specs.Starting.{HasRoomToStart, IsRoomForAll, IsStarting, StartsNext, StartsNone, StartsAll};

use crate::executing::number;
use crate::{Parts, tell};
use mate_journal::Entry;
use mate_num::Stamp;
use vm_shape::Description;

/// Starts the first queued invocation that nothing holds back. Answers false exactly if there is none.
pub fn start_next(description: &Description, parts: &mut Parts, at: Stamp) -> bool
    requires starting { IsStarting description.now parts.old }
    requires timely { IsTimely at parts.old.log.all }
    requires room { HasRoomToStart description.now parts.old }
    ensures starts { MatchBool result (StartsNext description.now parts.old parts.new at) (StartsNone description.now parts.old parts.new) }
    ensures gone { parts.new.log.gone ≡ parts.old.log.gone }
{
    let _description = description;
    let Some(ctx) = parts.contexts.grant() else {
        return false;
    };
    let inv = number(&parts.contexts, ctx);
    tell(&mut parts.log, at, Entry::Start { inv });
    true
}

/// Starts all queued invocations that nothing holds back.
pub fn start_all(description: &Description, parts: &mut Parts, at: Stamp)
    requires starting { IsStarting description.now parts.old }
    requires timely { IsTimely at parts.old.log.all }
    requires room { IsRoomForAll description.now parts.old }
    ensures starts { StartsAll description.now parts.old parts.new at }
    ensures gone { parts.new.log.gone ≡ parts.old.log.gone }
{
    while start_next(description, parts, at) {}
}
