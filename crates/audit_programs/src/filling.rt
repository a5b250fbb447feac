//! A heap that holds a store.

ghost use Rattle.std.specs.Prelude.{◌≡◌, ◌<◌, ◌≤◌, length};
ghost use Rattle.mate_num.specs.declared.bounds.TheConstants.{BUFFERS_MAX, PAYLOAD_MAX, SHARED_MAX};
ghost use Rattle.mate_num.specs.Store.{appended, buffer_at, set_buffer, set_value};
ghost use Rattle.node_heap.specs.Changes.{ChangesBuffer};

use mate_num::{BufId, FaultKind, Payload, Store, VarId};
use node_heap::Heap;

/// A heap that holds what the store holds.
pub fn heap_of(store: &Store) -> Heap
    ensures { result ≡ store.now }
{
    let shared = store.shared.as_slice();
    let buffers = store.buffers.as_slice();
    let mut heap = Heap::new(shared.len() as u8, buffers.len() as u8);
    put_shared(&mut heap, shared);
    put_buffers(&mut heap, buffers);
    heap
}

/// The shared variables get these values.
fn put_shared(heap: &mut Heap, values: &[i16])
    requires count { length values.now ≡ length heap.old.shared.items }
    requires few { length values.now ≤ SHARED_MAX }
    ensures { heap.new ≡ record { shared = record { items = values.now }; buffers = heap.old.buffers } }
{
    for i in 0..values.len() {
        put_value(heap, VarId(i as u8), &values[i]);
    }
}

/// The buffers get these values.
fn put_buffers(heap: &mut Heap, buffers: &[Payload])
    requires count { length buffers.now ≡ length heap.old.buffers.items }
    requires few { length buffers.now ≤ BUFFERS_MAX }
    ensures { heap.new ≡ record { shared = heap.old.shared; buffers = record { items = buffers.now } } }
{
    for i in 0..buffers.len() {
        put_buffer(heap, BufId(i as u8), buffers[i].as_slice());
    }
}

/// A buffer gets these values.
pub(crate) fn put_buffer(heap: &mut Heap, buffer: BufId, values: &[i16])
    requires known { buffer.0 < length heap.old.buffers.items }
    requires few { length values.now ≤ PAYLOAD_MAX }
    ensures { heap.new ≡ set_buffer heap.old buffer.0 values.now }
{
    heap.clear(buffer);
    for i in 0..values.len() {
        let Ok(()) = append_value(heap, buffer, &values[i]) else {
            unreachable!()
        };
    }
}

/// A shared variable gets the value.
pub(crate) fn put_value(heap: &mut Heap, variable: VarId, value: &i16)
    requires { variable.0 < length heap.old.shared.items }
    ensures { heap.new ≡ set_value heap.old variable.0 value.now }
{
    heap.put(variable, *value);
}

/// A buffer gets one value more.
fn append_value(heap: &mut Heap, buffer: BufId, value: &i16) -> Result<(), FaultKind>
    requires { buffer.0 < length heap.old.buffers.items }
    ensures { ChangesBuffer heap.old buffer.0 (appended (buffer_at heap.old buffer.0) value.now) result heap.new }
{
    heap.append(buffer, *value)
}
