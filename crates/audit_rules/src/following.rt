//! Whether the entries of a journal follow one another, and stamps don't fall.

ghost use Rattle.std.specs.Prelude.{◌≡◌, ◌==◌, suc, IfOk, length, List, ◌∷◌, [], ◌≤◌, ◌<◌};
ghost use Rattle.mate_num.specs.declared.bounds.TheConstants.{HANDLERS_MAX};
ghost use Rattle.vm_shape.specs.Contexts.{first_context};
ghost use Rattle.mate_journal.specs.Described.{machine_of};
ghost use Rattle.mate_journal.specs.Journal.{journal_entry, journal_of};
ghost use Rattle.mate_journal.specs.Log.{Log};
ghost use Rattle.mate_journal.specs.Machine.{Meaning};
ghost use Rattle.mate_journal.specs.Tidy.{IsTidyLog};
ghost use Rattle.audit_rules.specs.Following as told;
ghost use Rattle.audit_rules.specs.Views.{HasHandlerBelow, roll_in};
ghost use Rattle.audit_rules.specs.Stamps.{rise};

use crate::phase::Stage;
use crate::roll::Roll;
use crate::seat::{is_at, is_taken};
use mate_journal::{Entry, NodeLog, Stamped};
use mate_num::{ContextId, HandlerId, NoMemory, Stamp};
use std::alloc::Global;
use vm_shape::Description;

/// Whether neither the number of the event nor the time falls, and the same event has the same time.
fn not_before(old: Stamp, new: Stamp) -> bool
    ensures { result ≡ told.not_before old new }
{
    old.event <= new.event
        && (old.time <= new.time && (old.event != new.event || old.time == new.time))
}

/// Whether stamps don't fall.
fn stamps_rise(entries: &[Stamped]) -> bool
    ensures { result ≡ rise entries.now }
{
    let mut last: Option<Stamp> = None;
    for stamped in entries {
        if let Some(before) = last {
            if !not_before(before, stamped.stamp) {
                return false;
            }
        }
        last = Some(stamped.stamp);
    }
    true
}

/// Whether `n` is the number after `posts`.
fn is_next(posts: u32, n: u32) -> bool
    ensures { result ≡ (n == suc posts) }
{
    n > 0 && n - 1 == posts
}

/// How many contexts the handler has.
fn contexts_of(desc: &Description, handler: HandlerId) -> u8
    requires { handler.0 < length desc.now.handlers.items }
    ensures { (meaning : Meaning) → result ≡ (machine_of desc.now meaning).contexts handler }
{
    desc.handlers.as_slice()[usize::from(handler.0)].contexts
}

/// Whether the context is one of the handler's.
fn is_context_of(desc: &Description, handler: HandlerId, context: ContextId) -> bool
    requires { handler.0 < length desc.now.handlers.items }
    ensures { (meaning : Meaning) → result ≡ told.is_context_of (machine_of desc.now meaning) handler context }
{
    let first = u16::from(desc.first_context(handler).0);
    let count = u16::from(contexts_of(desc, handler));
    let place = u16::from(context.0);
    first <= place && place < first + count
}

/// Whether the entry may follow those that were heard.
fn may_follow(desc: &Description, roll: &Roll, entry: &Entry) -> bool
    requires few { length desc.now.handlers.items ≤ HANDLERS_MAX }
    requires handler { HasHandlerBelow (length desc.now.handlers.items) entry.now }
    ensures { (l : Log) (meaning : Meaning)
        → result ≡ told.may_follow (machine_of desc.now meaning) (roll_in l.images roll.now) (journal_entry l entry.now) }
{
    match entry {
        Entry::Post {
            inv,
            handler,
            ctx,
            payload: _,
        } => {
            is_next(roll.posts, *inv)
                && (roll.installed[usize::from(handler.0)].is_some()
                    && (is_context_of(desc, *handler, *ctx)
                        && !is_taken(roll.seats.as_slice(), *ctx)))
        }
        Entry::Start { inv } => is_at(roll.seats.as_slice(), *inv, Stage::Queued),
        Entry::Ask {
            inv,
            fun: _,
            args: _,
        } => is_at(roll.seats.as_slice(), *inv, Stage::Ready),
        Entry::Answer { inv, value: _ } => is_at(roll.seats.as_slice(), *inv, Stage::Waiting),
        Entry::Halt { inv } => is_at(roll.seats.as_slice(), *inv, Stage::Ready),
        Entry::Fault { inv, kind: _ } => is_at(roll.seats.as_slice(), *inv, Stage::Ready),
        _ => true,
    }
}

/// Whether the entries of a tidy log's journal follow one another, and stamps don't fall. `NoMemory` comes only if memory for live
/// invocations and their calls is refused.
pub fn entries_follow(alloc: Global, desc: &Description, log: &NodeLog) -> Result<bool, NoMemory>
    requires few { length desc.now.handlers.items ≤ HANDLERS_MAX }
    requires tidy { IsTidyLog desc.now log.now }
    ensures { (meaning : Meaning) → IfOk result (λ b. b ≡ told.entries_follow (machine_of desc.now meaning) (journal_of log.now)) }
{
    let entries = log.entries();
    if !stamps_rise(entries) {
        return Ok(false);
    }
    let mut roll = Roll::nobody(alloc);
    for stamped in entries {
        if !may_follow(desc, &roll, &stamped.entry) {
            return Ok(false);
        }
        roll.hear(alloc, &stamped.entry)?;
    }
    Ok(true)
}
