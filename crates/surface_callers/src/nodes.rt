//! One node of a network, event by event.

ghost use Rattle.std.specs.Prelude.{◌<◌, ◌≤◌, length};
ghost use Rattle.mate_num.specs.declared.bounds.TheConstants.{CONTEXTS_MAX};
ghost use Rattle.mate_journal.specs.declared.report.TheConstants.{ENTRIES_MAX};
ghost use Rattle.node_state.specs.Keeps.{IsTimely};
ghost use Rattle.node_open.specs.declared.open_node.TheConstants.{SETTLING_ENTRIES, TURN_ENTRIES};

use mate_journal::{NodeLog, VoidCause};
use mate_num::{ContextId, HandlerId, Image, NoMemory, Payload, Stamp};
use node_core::{Asked, InstallFault, Node, NotReady, PostAnswer, Standing};
use split_phase::NotWaiting;
use std::alloc::Global;
use vm_desc::Description;

/// A new node, with room for so many entries.
pub fn a_node(alloc: Global, desc: &Description, entries: usize) -> Result<Node, NoMemory> {
    let mut node = Node::new(alloc, desc)?;
    node.reserve(entries)?;
    let _room: usize = node.spare();
    Ok(node)
}

/// The number of the invocation that an event became, if it wasn't dropped.
pub fn posted(node: &mut Node, handler: HandlerId, payload: &Payload, at: Stamp) -> Option<u32>
    requires handler { handler.0 < length node.old.description.handlers.items }
    requires timely { IsTimely at node.old.log }
    requires few { length node.old.log.entries < ENTRIES_MAX }
    requires room { 2 ≤ node.old.log.spare }
{
    match node.post(handler, payload, at) {
        PostAnswer::Posted { inv } => Some(inv),
        PostAnswer::NoCode | PostAnswer::AllBusy => None,
    }
}

/// How many instructions of a context ran, of at most `n`.
pub fn stepped(node: &mut Node, ctx: ContextId, n: u32, at: Stamp) -> Result<u32, NotReady>
    requires context { ctx.0 < CONTEXTS_MAX }
    requires some { 0 < n }
    requires timely { IsTimely at node.old.log }
    requires room { TURN_ENTRIES ≤ node.old.log.spare }
{
    node.step(ctx, n, at)
}

/// Whoever is ready runs until each waits or has ended.
pub fn settled(node: &mut Node, at: Stamp)
    requires timely { IsTimely at node.old.log }
    requires room { SETTLING_ENTRIES ≤ node.old.log.spare }
{
    node.settle(at);
}

/// A call is answered.
pub fn answered(node: &mut Node, ctx: ContextId, value: i16, at: Stamp) -> Result<(), NotWaiting>
    requires context { ctx.0 < CONTEXTS_MAX }
    requires timely { IsTimely at node.old.log }
    requires room { 1 ≤ node.old.log.spare }
{
    let _asked: Option<Asked> = node.asked(ctx);
    node.answer(ctx, value, at)
}

/// The version that the node holds, if the bytes aren't installed since it is as new.
pub fn installed(node: &mut Node, bytes: &[u8], at: Stamp) -> Option<u32>
    requires timely { IsTimely at node.old.log }
    requires few { length node.old.log.entries < ENTRIES_MAX }
    requires room { 4 ≤ node.old.log.spare }
{
    match node.install(bytes, at) {
        Ok(()) | Err(InstallFault::Capsule(_) | InstallFault::Code(_)) => None,
        Err(InstallFault::NotNewer { held }) => Some(held),
    }
}

/// The node loses its store and its invocations.
pub fn reset(node: &mut Node, at: Stamp)
    requires timely { IsTimely at node.old.log }
    requires few { length node.old.log.entries < ENTRIES_MAX }
    requires room { 2 ≤ node.old.log.spare }
{
    node.reset(at);
}

/// The store is recorded.
pub fn shown(node: &mut Node, at: Stamp)
    requires timely { IsTimely at node.old.log }
    requires few { length node.old.log.entries < ENTRIES_MAX }
    requires room { 1 ≤ node.old.log.spare }
{
    node.seen(at);
}

/// A step that can't be made is recorded.
pub fn voided(node: &mut Node, cause: VoidCause, at: Stamp)
    requires timely { IsTimely at node.old.log }
    requires room { 1 ≤ node.old.log.spare }
{
    node.void(cause, at);
}

/// The context that goes on next: by itself, or once it is answered.
pub fn next_context(node: &Node) -> Option<ContextId> {
    match node.standing() {
        Standing::Can(ctx) | Standing::Outside(ctx) => Some(ctx),
        Standing::Idle => None,
    }
}

/// The version that a node holds, how long its image is, and how much it recorded.
pub fn held_by(node: Node, handler: HandlerId) -> (u32, usize, usize) {
    let version: u32 = node.held(handler);
    let image: Option<&Image> = node.image(handler);
    let length = match image {
        Some(image) => image.len(),
        None => 0,
    };
    let _log: &NodeLog = node.log();
    let log: NodeLog = node.into_log();
    (version, length, log.entries().len())
}
