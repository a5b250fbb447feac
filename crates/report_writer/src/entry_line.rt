//! The line of an entry.

ghost use Rattle.std.specs.Prelude.{◌≡◌, ◌+◌, ◌*◌, ◌≤◌, ◌++◌, codes, length, slice_get};
ghost use Rattle.mate_files.specs.Pen.{Prints};
ghost use Rattle.mate_num.specs.declared.bounds.TheConstants.{NAME_MAX};
ghost use Rattle.mate_journal.specs.Log.{Log};
ghost use Rattle.report_writer.specs.Chunk.{IsInFront};
ghost use Rattle.report_writer.specs.Words.{handler_name, function_name, number, word, values, void_words, image_word, image_text, seen_words};
ghost use Rattle.report_writer.specs.Words.{stamp_words, entry_words, IsShort};
ghost use Rattle.report_writer.specs.Text.{entry_line};

use crate::chunk::Chunk;
use crate::front::{
    LINE, number_in_front, numbered, place_in_front, print_line, value_in_front, values_in_front,
    word_in_front,
};
use crate::store_words::{STORE_LINE, store_in_front};
use crate::words::{drop_word, fault_word, image_word};
use mate_files::{Pen, Sink};
use mate_journal::{Entry, NodeLog, Stamped, VoidCause};
use mate_num::{ContextId, FunId, HandlerId, Stamp};
use vm_shape::Description;

/// The line of an entry in a node's log.
pub fn entry_line<S: Sink>(
    pen: &mut Pen,
    out: &mut S,
    desc: &Description,
    log: &NodeLog,
    node: u8,
    stamped: &Stamped,
)
    ensures { Prints (S.written out.old) (S.faults out.old) pen.old.result (S.written out.new) (S.faults out.new) pen.new.result
        (entry_line desc.now log.now node stamped.now) }
{
    match &stamped.entry {
        Entry::Install {
            handler,
            version,
            image,
        } => install_line(
            pen,
            out,
            stamped.stamp,
            node,
            handler_name(desc, *handler),
            *version,
            image_at(log, *image),
        ),
        Entry::Seen { store } => seen_line(pen, out, desc, log, stamped.stamp, node, *store),
        entry => short_line(pen, out, desc, stamped.stamp, node, entry),
    }
}

/// The line of an entry that shows neither an image nor a store.
fn short_line<S: Sink>(
    pen: &mut Pen,
    out: &mut S,
    desc: &Description,
    stamp: Stamp,
    node: u8,
    entry: &Entry,
)
    requires { IsShort entry.now }
    ensures { (log : Log) → Prints (S.written out.old) (S.faults out.old) pen.old.result (S.written out.new) (S.faults out.new)
        pen.new.result
        (stamp_words stamp node ++ entry_words desc.now log entry.now ++ codes "\n") }
{
    let mut line: Chunk<LINE> = Chunk::new();
    line.byte(b'\n');
    short_in_front(&mut line, desc, entry);
    print_line(pen, out, &mut line, stamp, node);
}

/// The words of an entry that shows neither an image nor a store, in front of the end of the line.
fn short_in_front(line: &mut Chunk<LINE>, desc: &Description, entry: &Entry)
    requires short { IsShort entry.now }
    requires few { length line.old ≤ 1 }
    ensures adds { (log : Log) → IsInFront line.old line.new (entry_words desc.now log entry.now) }
    ensures fits { length line.new ≤ 120 }
{
    match entry {
        Entry::Post {
            inv,
            handler,
            ctx,
            payload,
        } => {
            values_in_front(line, payload.as_slice());
            post_in_front(line, *inv, handler_name(desc, *handler), *ctx);
        }
        Entry::Dropped { handler, cause } => {
            word_in_front(line, drop_word(*cause).as_bytes());
            word_in_front(line, handler_name(desc, *handler));
            line.text(b" drop");
        }
        Entry::Start { inv } => numbered(line, b" start", *inv),
        Entry::Ask { inv, fun, args } => {
            values_in_front(line, args.as_slice());
            word_in_front(line, function_name(desc, *fun));
            numbered(line, b" ask", *inv);
        }
        Entry::Answer { inv, value } => {
            value_in_front(line, *value);
            numbered(line, b" answer", *inv);
        }
        Entry::Halt { inv } => numbered(line, b" halt", *inv),
        Entry::Fault { inv, kind } => {
            word_in_front(line, fault_word(*kind).as_bytes());
            numbered(line, b" fault", *inv);
        }
        Entry::Reset => line.text(b" reset"),
        Entry::Void { cause } => {
            void_in_front(line, *cause);
            line.text(b" void");
        }
        Entry::Install { .. } => unreachable!(),
        Entry::Seen { .. } => unreachable!(),
    }
}

/// What a post has before its values.
fn post_in_front(line: &mut Chunk<LINE>, inv: u32, handler: &[u8], ctx: ContextId)
    requires handler { length handler.now ≤ NAME_MAX }
    requires few { length line.old ≤ 80 }
    ensures adds { IsInFront line.old line.new (codes " post" ++ number inv ++ word handler.now ++ number ctx.0) }
    ensures fits { length line.new ≤ length line.old + 37 }
{
    place_in_front(line, ctx.0);
    word_in_front(line, handler);
    numbered(line, b" post", inv);
}

/// What a step of a script could not do.
fn void_in_front(line: &mut Chunk<LINE>, cause: VoidCause)
    requires { length line.old ≤ 1 }
    ensures adds { IsInFront line.old line.new (void_words cause) }
    ensures fits { length line.new ≤ 40 }
{
    match cause {
        VoidCause::NotReady => line.text(b" notready"),
        VoidCause::NotWaiting => line.text(b" notwaiting"),
        VoidCause::NotNewer { held } => numbered(line, b" notnewer", held),
    }
}

/// What the line of an install has before its image.
fn install_head<S: Sink>(
    pen: &mut Pen,
    out: &mut S,
    stamp: Stamp,
    node: u8,
    handler: &[u8],
    version: u32,
)
    requires { length handler.now ≤ NAME_MAX }
    ensures { Prints (S.written out.old) (S.faults out.old) pen.old.result (S.written out.new) (S.faults out.new) pen.new.result
        (stamp_words stamp node ++ (codes " install" ++ word handler.now ++ number version ++ codes " ")) }
{
    let mut line: Chunk<LINE> = Chunk::new();
    line.byte(b' ');
    number_in_front(&mut line, version);
    word_in_front(&mut line, handler);
    line.text(b" install");
    print_line(pen, out, &mut line, stamp, node);
}

fn install_line<S: Sink>(
    pen: &mut Pen,
    out: &mut S,
    stamp: Stamp,
    node: u8,
    handler: &[u8],
    version: u32,
    image: &[u8],
)
    requires { length handler.now ≤ NAME_MAX }
    ensures { Prints (S.written out.old) (S.faults out.old) pen.old.result (S.written out.new) (S.faults out.new) pen.new.result
        (stamp_words stamp node ++ (codes " install" ++ word handler.now ++ number version ++ word (image_word image.now)) ++ codes "\n") }
{
    install_head(pen, out, stamp, node, handler, version);
    image_word(pen, out, image);
    pen.text(out, "\n");
}

/// The line of a store that is shown.
fn seen_line<S: Sink>(
    pen: &mut Pen,
    out: &mut S,
    desc: &Description,
    log: &NodeLog,
    stamp: Stamp,
    node: u8,
    store: u32,
)
    ensures { Prints (S.written out.old) (S.faults out.old) pen.old.result (S.written out.new) (S.faults out.new) pen.new.result
        (stamp_words stamp node ++ (codes " seen" ++ seen_words desc.now (slice_get log.now.stores store)) ++ codes "\n") }
{
    if store_room(desc) <= LINE {
        small_seen_line(pen, out, desc, log, stamp, node, store);
    } else {
        large_seen_line(pen, out, desc, log, stamp, node, store);
    }
}

/// The most bytes that a line which shows a store takes.
fn store_room(desc: &Description) -> usize
    ensures value { result ≡ 24 * length desc.now.shared.items + 89 * length desc.now.buffers.items + 41 }
    ensures most { result ≤ 1137 }
{
    24 * desc.shared.len() + 89 * desc.buffers.len() + 41
}

fn small_seen_line<S: Sink>(
    pen: &mut Pen,
    out: &mut S,
    desc: &Description,
    log: &NodeLog,
    stamp: Stamp,
    node: u8,
    store: u32,
)
    requires { 24 * length desc.now.shared.items + 89 * length desc.now.buffers.items + 41 ≤ 192 }
    ensures { Prints (S.written out.old) (S.faults out.old) pen.old.result (S.written out.new) (S.faults out.new) pen.new.result
        (stamp_words stamp node ++ (codes " seen" ++ seen_words desc.now (slice_get log.now.stores store)) ++ codes "\n") }
{
    let mut line: Chunk<LINE> = Chunk::new();
    line.byte(b'\n');
    seen_in_front(&mut line, desc, log, store);
    print_line(pen, out, &mut line, stamp, node);
}

/// The same for a large store. It isn't inlined, so that only such a line has its room on the stack.
#[inline(never)]
fn large_seen_line<S: Sink>(
    pen: &mut Pen,
    out: &mut S,
    desc: &Description,
    log: &NodeLog,
    stamp: Stamp,
    node: u8,
    store: u32,
)
    requires { 24 * length desc.now.shared.items + 89 * length desc.now.buffers.items + 41 ≤ 1137 }
    ensures { Prints (S.written out.old) (S.faults out.old) pen.old.result (S.written out.new) (S.faults out.new) pen.new.result
        (stamp_words stamp node ++ (codes " seen" ++ seen_words desc.now (slice_get log.now.stores store)) ++ codes "\n") }
{
    let mut line: Chunk<STORE_LINE> = Chunk::new();
    line.byte(b'\n');
    seen_in_front(&mut line, desc, log, store);
    print_line(pen, out, &mut line, stamp, node);
}

/// The words of a store that is shown, in front of the end of the line.
fn seen_in_front<const ROOM: usize>(
    line: &mut Chunk<ROOM>,
    desc: &Description,
    log: &NodeLog,
    store: u32,
)
    requires { length line.old + 24 * length desc.now.shared.items + 89 * length desc.now.buffers.items + 5 ≤ ROOM }
    ensures adds { IsInFront line.old line.new (codes " seen" ++ seen_words desc.now (slice_get log.now.stores store)) }
    ensures fits { length line.new ≤ length line.old + 24 * length desc.now.shared.items + 89 * length desc.now.buffers.items + 5 }
{
    shown_in_front(line, desc, log, store);
    line.text(b" seen");
}

fn shown_in_front<const ROOM: usize>(
    line: &mut Chunk<ROOM>,
    desc: &Description,
    log: &NodeLog,
    store: u32,
)
    requires { length line.old + 24 * length desc.now.shared.items + 89 * length desc.now.buffers.items ≤ ROOM }
    ensures adds { IsInFront line.old line.new (seen_words desc.now (slice_get log.now.stores store)) }
    ensures fits { length line.new ≤ length line.old + 24 * length desc.now.shared.items + 89 * length desc.now.buffers.items }
{
    if let Some(store) = log.stores().get(store as usize) {
        store_in_front(line, desc, store);
    }
}

/// The name of a handler, or no bytes if the description has no such handler.
pub fn handler_name(desc: &Description, handler: HandlerId) -> &[u8]
    ensures value { result.now ≡ handler_name desc.now handler }
    ensures fits { length result.now ≤ NAME_MAX }
{
    match desc.handlers.as_slice().get(handler.0 as usize) {
        Some(handler) => handler.name.as_bytes(),
        None => &[],
    }
}

/// The name of a function, or no bytes if the description has no such function.
fn function_name(desc: &Description, fun: FunId) -> &[u8]
    ensures value { result.now ≡ function_name desc.now fun }
    ensures fits { length result.now ≤ NAME_MAX }
{
    match desc.functions.as_slice().get(fun.0 as usize) {
        Some(function) => function.name.as_bytes(),
        None => &[],
    }
}

/// The bytes of an image of the log, or no bytes if the log has no such image.
fn image_at(log: &NodeLog, image: u32) -> &[u8]
    ensures { result.now ≡ image_text (slice_get log.now.images image) }
{
    match log.images().get(image as usize) {
        Some(image) => image.as_slice(),
        None => &[],
    }
}
