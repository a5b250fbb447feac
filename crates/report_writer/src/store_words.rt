//! The words of a store, each put after a space in front of what is there.

ghost use Rattle.std.specs.Prelude.{◌+◌, ◌*◌, ◌≤◌, flat_map, length};
ghost use Rattle.std.specs.List.{zip};
ghost use Rattle.mate_num.specs.declared.bounds.TheConstants.{PAYLOAD_MAX};
ghost use Rattle.report_writer.specs.Chunk.{IsInFront};
ghost use Rattle.report_writer.specs.Words.{spaced, shared_word, buffer_word, store_words};

use crate::chunk::Chunk;
use crate::front::values_in_front;
use mate_num::{Name, Payload, Store};
use vm_shape::Description;

/// Room for each line that shows a store, in bytes: 24 for each shared variable, 89 for each buffer, and 41, which are at most
/// 1,137; rounded up to a multiple of 8.
pub const STORE_LINE: usize = 1144;

/// `NAME=V` per shared variable, and then `NAME=[V V]` per buffer.
pub fn store_in_front<const ROOM: usize>(line: &mut Chunk<ROOM>, desc: &Description, store: &Store)
    requires { length line.old + 24 * length desc.now.shared.items + 89 * length desc.now.buffers.items ≤ ROOM }
    ensures adds { IsInFront line.old line.new (store_words desc.now store.now) }
    ensures fits { length line.new ≤ length line.old + 24 * length desc.now.shared.items + 89 * length desc.now.buffers.items }
{
    buffers_in_front(line, desc.buffers.as_slice(), store.buffers.as_slice());
    shared_in_front(line, desc.shared.as_slice(), store.shared.as_slice());
}

fn shared_in_front<const ROOM: usize>(line: &mut Chunk<ROOM>, names: &[Name], values: &[i16])
    requires { length line.old + 24 * length names.now ≤ ROOM }
    ensures adds { IsInFront line.old line.new (flat_map shared_word (zip names.now values.now)) }
    ensures fits { length line.new ≤ length line.old + 24 * length names.now }
{
    let mut left = names.len().min(values.len());
    while left > 0 {
        left -= 1;
        shared_word(line, &names[left], values[left]);
    }
}

fn shared_word<const ROOM: usize>(line: &mut Chunk<ROOM>, name: &Name, value: i16)
    requires { length line.old + 24 ≤ ROOM }
    ensures adds { IsInFront line.old line.new (shared_word (name.now, value)) }
    ensures fits { length line.new ≤ length line.old + 24 }
{
    line.value(value);
    line.byte(b'=');
    line.text(name.as_bytes());
    line.byte(b' ');
}

fn buffers_in_front<const ROOM: usize>(line: &mut Chunk<ROOM>, names: &[Name], buffers: &[Payload])
    requires { length line.old + 89 * length names.now ≤ ROOM }
    ensures adds { IsInFront line.old line.new (flat_map buffer_word (zip names.now buffers.now)) }
    ensures fits { length line.new ≤ length line.old + 89 * length names.now }
{
    let mut left = names.len().min(buffers.len());
    while left > 0 {
        left -= 1;
        buffer_word(line, &names[left], buffers[left].as_slice());
    }
}

fn buffer_word<const ROOM: usize>(line: &mut Chunk<ROOM>, name: &Name, values: &[i16])
    requires few { length values.now ≤ PAYLOAD_MAX }
    requires room { length line.old + 89 ≤ ROOM }
    ensures adds { IsInFront line.old line.new (buffer_word (name.now, record { items = values.now })) }
    ensures fits { length line.new ≤ length line.old + 89 }
{
    line.byte(b']');
    spaced_in_front(line, values);
    line.text(b"=[");
    line.text(name.as_bytes());
    line.byte(b' ');
}

/// The values with a space between two.
fn spaced_in_front<const ROOM: usize>(line: &mut Chunk<ROOM>, vs: &[i16])
    requires few { length vs.now ≤ PAYLOAD_MAX }
    requires room { length line.old + 69 ≤ ROOM }
    ensures adds { IsInFront line.old line.new (spaced vs.now) }
    ensures fits { length line.new ≤ length line.old + 69 }
{
    if let Some((first, rest)) = vs.split_first() {
        values_in_front(line, rest);
        line.value(*first);
    }
}
