//! The answers that fall due to the calls of a node's scripts.

ghost use Rattle.std.specs.Prelude.{◌≡◌, ◌+◌, ◌<◌, ◌≤◌, ℕ, true, Some, List, [], ◌∷◌, ◌++◌, length, All, OnOk};
ghost use Rattle.mate_num.specs.declared.bounds.TheConstants.{HOUR};
ghost use Rattle.mate_num.specs.declared.id.FunId.{FunId as FunName};
ghost use Rattle.mate_journal.specs.Log.{Log};
ghost use Rattle.mate_journal.specs.Journal.{journal_entry};
ghost use Rattle.mate_journal.specs.Entries.{IsEntryInRange};
ghost use Rattle.mate_journal.specs.WellFormed.{IsWaiting};
ghost use Rattle.mate_journal.specs.declared.entry.Stamped.{Stamped as StampedEntry};
ghost use Rattle.node_open.specs.View.{heard_of};
ghost use Rattle.node_open.specs.Calls.{told_by_entries};
ghost use Rattle.vm_shape.specs.declared.description.Description.{Description as Machine};
ghost use Rattle.world_rules.specs.World.{World};
ghost use Rattle.world_rules.specs.State.{answers_due, calls_in};
ghost use Rattle.world_air.specs.Calls.{AreCallsOf, HasSensors};
ghost use Rattle.world_air.specs.Air.{timed_event, timed_events};
ghost use Rattle.world_air.specs.Changes.{AddsToAir};
ghost use Rattle.journal_laws.specs.Waiting.{WaitApart, WaitsWithin, IsAwaitedBy, AreAwaited, asked_of};
ghost use Rattle.world_event.specs.Answering.{answer_item, answer_items, with_call};

use mate_journal::{Entry, Stamped};
use mate_num::{CONTEXTS_MAX, ContextId, FunId, NoMemory};
use node_open::OpenNode;
use radio_sim::{Radio, SharedEvent};
use script_steps::Series;
use vm_shape::Description;
use world_air::{Calls, schedule};

/// Whether the invocation waits in the context.
fn waits_in(node: &OpenNode, ctx: ContextId, inv: u32) -> bool
    requires { ctx.0 < CONTEXTS_MAX }
    ensures there { result ≡ true → ((heard_of node.now).invocations inv).context ≡ ctx }
    ensures found { WaitApart (heard_of node.now) → IsWaiting (heard_of node.now) inv
        → ((heard_of node.now).invocations inv).context ≡ ctx → result ≡ true }
{
    match node.asked(ctx) {
        Some(asked) => asked.inv == inv,
        None => false,
    }
}

/// The context in which the invocation waits; None if it waits in none.
fn context_of(node: &OpenNode, inv: u32) -> Option<ContextId>
    ensures { WaitApart (heard_of node.now) → WaitsWithin (heard_of node.now) inv
        → result ≡ Some ((heard_of node.now).invocations inv).context }
{
    for ctx in 0..CONTEXTS_MAX as u8 {
        if waits_in(node, ContextId(ctx), inv) {
            return Some(ContextId(ctx));
        }
    }
    None
}

/// Schedules the answer to a call of the function by the invocation, which waits for it.
fn answer_call(
    radio: &mut Radio,
    calls: &mut Calls,
    node: &OpenNode,
    desc: &Description,
    series: &[Series],
    number: u8,
    now: u32,
    inv: u32,
    fun: FunId,
) -> Result<(), NoMemory>
    requires ahead { radio.old.agenda.now ≤ now }
    requires hour { now ≤ HOUR }
    requires counts { length calls.old.counts.items ≡ length desc.now.functions.items }
    requires fun { fun.0 < length desc.now.functions.items }
    ensures due { OnOk result ((w : World) (called : List FunName) → HasSensors w desc.now series.now
        → AreCallsOf w number called calls.old → WaitApart (heard_of node.now) → WaitsWithin (heard_of node.now) inv →
        AddsToAir radio.old radio.new [] (timed_event w (answer_item w number now (heard_of node.now) called fun inv) ∷ [])) }
    ensures calls { (w : World) (called : List FunName) → HasSensors w desc.now series.now → AreCallsOf w number called calls.old
        → AreCallsOf w number (called ++ fun ∷ []) calls.new }
    ensures counts { length calls.new.counts.items ≡ length calls.old.counts.items }
    ensures now { OnOk result (radio.new.agenda.now ≡ radio.old.agenda.now) }
{
    let answer = calls.answer(desc, series, number, fun, now);
    match context_of(node, inv) {
        Some(ctx) => {
            let event = SharedEvent::Due {
                node: number,
                ctx,
                inv,
                value: answer.value,
            };
            schedule(radio, answer.time, event)?;
            Ok(())
        }
        None => Ok(()),
    }
}

/// The call that an entry records, by its invocation and its function.
fn asked_in(entry: &Entry) -> Option<(u32, FunId)>
    ensures value { (l : Log) → result ≡ asked_of (journal_entry l entry.now) }
    ensures range { (d : Machine) (n : ℕ) (f : FunName) → IsEntryInRange d entry.now → result ≡ Some (n, f)
        → f.0 < length d.functions.items }
{
    match entry {
        Entry::Ask { inv, fun, .. } => Some((*inv, *fun)),
        _ => None,
    }
}

/// Schedules the answer to the call that the entry records, if it records one.
fn answer_entry(
    radio: &mut Radio,
    calls: &mut Calls,
    node: &OpenNode,
    desc: &Description,
    series: &[Series],
    number: u8,
    now: u32,
    entry: &Entry,
) -> Result<(), NoMemory>
    requires ahead { radio.old.agenda.now ≤ now }
    requires hour { now ≤ HOUR }
    requires counts { length calls.old.counts.items ≡ length desc.now.functions.items }
    requires range { IsEntryInRange desc.now entry.now }
    ensures due { OnOk result ((w : World) (called : List FunName) (l : Log) → HasSensors w desc.now series.now
        → AreCallsOf w number called calls.old → WaitApart (heard_of node.now)
        → IsAwaitedBy (heard_of node.now) (asked_of (journal_entry l entry.now)) →
        AddsToAir radio.old radio.new []
        (timed_events w (answer_items w number now (heard_of node.now) called (asked_of (journal_entry l entry.now))))) }
    ensures calls { OnOk result ((w : World) (called : List FunName) (l : Log) → HasSensors w desc.now series.now
        → AreCallsOf w number called calls.old → AreCallsOf w number (with_call called (asked_of (journal_entry l entry.now))) calls.new) }
    ensures counts { OnOk result (length calls.new.counts.items ≡ length calls.old.counts.items) }
    ensures now { OnOk result (radio.new.agenda.now ≡ radio.old.agenda.now) }
{
    match asked_in(entry) {
        Some(asked) => {
            answer_call(
                radio, calls, node, desc, series, number, now, asked.0, asked.1,
            )?;
            Ok(())
        }
        None => Ok(()),
    }
}

/// Schedules the answers to the calls that the entries record, in their order: each comes after its function's latency, to an
/// invocation that waits on the node.
pub fn schedule_answers(
    radio: &mut Radio,
    calls: &mut Calls,
    node: &OpenNode,
    desc: &Description,
    series: &[Series],
    number: u8,
    now: u32,
    entries: &[Stamped],
) -> Result<(), NoMemory>
    requires ahead { radio.old.agenda.now ≤ now }
    requires hour { now ≤ HOUR }
    requires counts { length calls.old.counts.items ≡ length desc.now.functions.items }
    requires range { All (λ (e : StampedEntry). IsEntryInRange desc.now e.entry) entries.now }
    ensures due { OnOk result ((w : World) (called : List FunName) (l : Log) → HasSensors w desc.now series.now
        → AreCallsOf w number called calls.old → WaitApart (heard_of node.now)
        → AreAwaited (heard_of node.now) (told_by_entries l entries.now) →
        AddsToAir radio.old radio.new []
        (timed_events w (answers_due w number now (heard_of node.now) called (told_by_entries l entries.now)))) }
    ensures calls { OnOk result ((w : World) (called : List FunName) (l : Log) → HasSensors w desc.now series.now
        → AreCallsOf w number called calls.old → AreCallsOf w number (called ++ calls_in (told_by_entries l entries.now)) calls.new) }
{
    for stamped in entries {
        answer_entry(
            radio,
            calls,
            node,
            desc,
            series,
            number,
            now,
            &stamped.entry,
        )?;
    }
    Ok(())
}
