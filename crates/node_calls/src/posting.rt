//! Events for a handler: each becomes an invocation, or is dropped.

ghost use Rattle.std.specs.Prelude.{◌≡◌, ◌+◌, ◌<◌, ◌≤◌, [], length, MatchOption};
ghost use Rattle.mate_num.specs.declared.bounds.TheConstants.{CONTEXTS_MAX};
ghost use Rattle.node_state.specs.At.{at as at_context};
ghost use Rattle.node_state.specs.Keeps.{reading, IsTimely};
ghost use Rattle.node_state.specs.Meaning.{machine_in};
ghost use Rattle.node_state.specs.Starting.{Rests};
ghost use Rattle.node_calls.specs.Calls.{RestsAgain};
ghost use Rattle.node_calls.specs.Posting.{PostGives, IsFirstFree, HasNoneFree, CanQueue, IsQueued};

use exec_unit::Machine;
use mate_journal::{DropCause, Entry};
use mate_num::{ContextId, HandlerId, LockSet, Payload, Stamp};
use node_state::{Contexts, Parts, Seat, start_all, tell};
use vm_shape::Description;

/// What became of an event.
#[derive(Clone, Copy)]
pub enum PostAnswer {
    /// It is the invocation of this number.
    Posted { inv: u32 },
    /// Nothing is installed for the handler.
    NoCode,
    /// Each context of the handler has a live invocation.
    AllBusy,
}

/// How many contexts the handler has.
fn contexts_of(description: &Description, handler: HandlerId) -> u8
    requires { handler.0 < length description.now.handlers.items }
    ensures count { result ≡ (machine_in description.now).contexts handler }
    ensures within { (machine_in description.now).first_context handler + result ≤ CONTEXTS_MAX }
{
    description.handlers.as_slice()[usize::from(handler.0)].contexts
}

/// The handler's lowest context that no invocation is in; None exactly if there is one in each.
fn first_free(
    description: &Description,
    contexts: &Contexts,
    handler: HandlerId,
) -> Option<ContextId>
    requires { handler.0 < length description.now.handlers.items }
    ensures { MatchOption result
        (HasNoneFree (machine_in description.now) contexts.now handler)
        (IsFirstFree (machine_in description.now) contexts.now handler) }
{
    let first = description.first_context(handler).0;
    for place in first..first + contexts_of(description, handler) {
        if contexts.is_idle(ContextId(place)) {
            return Some(ContextId(place));
        }
    }
    None
}

/// Fills a payload that is empty with what the other holds. It is filled in its place, since a processor waits where what was
/// just moved in parts is read as a whole; and nothing is called to copy nothing.
fn fill(copy: &mut Payload, payload: &Payload)
    requires { copy.old.items ≡ [] }
    ensures { copy.new ≡ payload.now }
{
    if !payload.is_empty() {
        let Ok(()) = copy.try_extend_from_slice(payload.as_slice()) else {
            unreachable!()
        };
    }
}

/// Puts a new invocation of the handler into the context, where it waits for these locks behind all that wait. Answers its
/// number.
fn queue(
    description: &Description,
    parts: &mut Parts,
    handler: HandlerId,
    ctx: ContextId,
    locks: LockSet,
    payload: &Payload,
    at: Stamp,
) -> u32
    requires can { CanQueue description.now parts.old handler ctx locks }
    requires timely { IsTimely at parts.old.log.all }
    requires room { 1 ≤ parts.old.log.all.spare }
    requires few { length parts.old.log.all.entries < 4100000000 }
    ensures queued { IsQueued description.now parts.old parts.new at handler payload.now result }
    ensures gone { parts.new.log.gone ≡ parts.old.log.gone }
    ensures handlers { parts.new.handlers ≡ parts.old.handlers }
{
    parts.posts += 1;
    let inv = parts.posts;
    let mut seated = Payload::new();
    fill(&mut seated, payload);
    let seat = Seat {
        machine: Machine::new(description.turns, seated),
        count: 0,
        inv,
        handler,
    };
    parts.contexts.post(ctx, seat, locks);
    let mut told = Payload::new();
    fill(&mut told, payload);
    tell(
        &mut parts.log,
        at,
        Entry::Post {
            inv,
            handler,
            ctx,
            payload: told,
        },
    );
    inv
}

/// An event for the handler becomes an invocation in the handler's lowest idle context, which starts if nothing holds it
/// back. It is dropped with `NoCode` exactly if nothing is installed for the handler, and else with `AllBusy` exactly if no
/// context of the handler is idle; a `Dropped` entry says which.
pub fn post_in(
    description: &Description,
    parts: &mut Parts,
    handler: HandlerId,
    payload: &Payload,
    at: Stamp,
) -> PostAnswer
    requires rests { Rests description.now parts.old }
    requires timely { IsTimely at parts.old.log.all }
    requires room { 2 ≤ parts.old.log.all.spare }
    requires few { length parts.old.log.all.entries < 4100000000 }
    requires handler { handler.0 < length description.now.handlers.items }
    ensures again { RestsAgain description.now parts.old parts.new at
        (PostGives (machine_in description.now) (reading description.now parts.old.log.all) handler payload.now result) }
    ensures gone { parts.new.log.gone ≡ parts.old.log.gone }
    ensures handlers { parts.new.handlers ≡ parts.old.handlers }
{
    let Some(held) = parts.handlers.get(handler) else {
        let cause = DropCause::NoCode;
        tell(&mut parts.log, at, Entry::Dropped { handler, cause });
        return PostAnswer::NoCode;
    };
    let locks = held.locks;
    let Some(ctx) = first_free(description, &parts.contexts, handler) else {
        let cause = DropCause::AllBusy;
        tell(&mut parts.log, at, Entry::Dropped { handler, cause });
        return PostAnswer::AllBusy;
    };
    let inv = queue(description, parts, handler, ctx, locks, payload, at);
    start_all(description, parts, at);
    PostAnswer::Posted { inv }
}
