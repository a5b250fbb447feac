//! Shared variables and buffers, kept in one array of values and one of lengths.

ghost use Rattle.std.specs.Prelude.{◌≡◌, ℕ, ◌+◌, ◌*◌, ◌<◌, ◌≤◌, ℤ, pos, [], length, take, drop, slice_index, slice_index_or, Err, MatchOption, ◌↔◌};
ghost use Rattle.mate_num.specs.Store.{payload, zero_store, value_at, buffer_at, set_value, set_buffer, item_of, item_set, appended, last_of, without_last};
ghost use Rattle.mate_num.specs.declared.bounds.TheConstants.{BUFFERS_MAX, PAYLOAD_MAX, SHARED_MAX};
ghost use Rattle.node_heap.specs.Changes.{ChangesBuffer};
ghost use Rattle.node_heap.specs.Blocks.{start_of, values_of};

use arrayvec::ArrayVec;
use mate_num::{BUFFERS_MAX, BufId, FaultKind, PAYLOAD_MAX, Payload, SHARED_MAX, Store, VarId};
use std::marker::Model;

/// How many places the block has.
const PLACES: usize = SHARED_MAX + BUFFERS_MAX * PAYLOAD_MAX;

/// The shared variables and buffers of a node. Contracts see its store.
///
/// The block has `SHARED_MAX` shared variables, and then `PAYLOAD_MAX` places for each buffer. A buffer has its values
/// at the front of its places, as many as its length says.
#[derive(Drop)]
pub struct Heap {
    shared: u8,
    buffers: u8,
    values: [i16; PLACES],
    lengths: [u8; BUFFERS_MAX],
}

impl Model for Heap {
    ghost use Rattle.mate_num.specs.declared.store.Store.{Store};

    ghost Value = { Store };

    ghost use Rattle.node_heap.specs.Heap.{held_store, IsHeap};

    ghost view = { held_store };

    ghost invariant = { IsHeap };
}

/// Where the values of a buffer begin.
fn start_of(buf: BufId) -> usize
    requires { buf.0 < BUFFERS_MAX }
    ensures { result ≡ start_of buf.0 }
{
    SHARED_MAX + usize::from(buf.0) * PAYLOAD_MAX
}

impl Heap {
    /// A heap of `shared` variables that hold 0, and `buffers` empty buffers.
    pub fn new(shared: u8, buffers: u8) -> Heap
        requires shared_fits { shared ≤ SHARED_MAX }
        requires buffers_fit { buffers ≤ BUFFERS_MAX }
        ensures { result ≡ zero_store shared buffers }
    {
        Heap {
            shared,
            buffers,
            values: [0; PLACES],
            lengths: [0; BUFFERS_MAX],
        }
    }

    /// The heap becomes what `new` gives for these numbers. No more of it is written than the variables and the lengths.
    pub fn restart(&mut self, shared: u8, buffers: u8)
        requires shared_fits { shared ≤ SHARED_MAX }
        requires buffers_fit { buffers ≤ BUFFERS_MAX }
        ensures { self.new ≡ zero_store shared buffers }
    {
        self.shared = shared;
        self.buffers = buffers;
        self.values[..usize::from(shared)].fill(0);
        self.lengths = [0; BUFFERS_MAX];
    }

    /// The value of a shared variable.
    pub fn get(&self, var: VarId) -> i16
        requires { var.0 < length self.now.shared.items }
        ensures { result ≡ value_at self.now var.0 }
    {
        self.variables()[usize::from(var.0)]
    }

    /// Sets a shared variable.
    pub fn put(&mut self, var: VarId, value: i16)
        requires { var.0 < length self.old.shared.items }
        ensures { self.new ≡ set_value self.old var.0 value }
    {
        self.values[usize::from(var.0)] = value;
    }

    /// The value at an index of a buffer, from 0; the fault `Index` exactly if it is outside the buffer's values.
    pub fn item(&self, buf: BufId, index: i16) -> Result<i16, FaultKind>
        requires { buf.0 < length self.now.buffers.items }
        ensures { result ≡ item_of (buffer_at self.now buf.0) index }
    {
        let values = self.buffer_values(buf);
        match usize::try_from(index) {
            Ok(i) if i < values.len() => Ok(values[i]),
            _ => Err(FaultKind::Index),
        }
    }

    /// Changes the value at an index of a buffer, from 0. The fault `Index` comes exactly if it is outside the
    /// buffer's values, and leaves the heap as it was.
    pub fn set_item(&mut self, buf: BufId, index: i16, value: i16) -> Result<(), FaultKind>
        requires { buf.0 < length self.old.buffers.items }
        ensures { ChangesBuffer self.old buf.0 (item_set (buffer_at self.old buf.0) index value) result self.new }
    {
        let size = self.buffer_values(buf).len();
        match usize::try_from(index) {
            Ok(i) if i < size => {
                self.values[start_of(buf) + i] = value;
                Ok(())
            }
            _ => Err(FaultKind::Index),
        }
    }

    /// Appends a value to a buffer. The fault `BufferFull` comes exactly if it holds `PAYLOAD_MAX`, and leaves the heap as it was.
    pub fn append(&mut self, buf: BufId, value: i16) -> Result<(), FaultKind>
        requires { buf.0 < length self.old.buffers.items }
        ensures { ChangesBuffer self.old buf.0 (appended (buffer_at self.old buf.0) value) result self.new }
    {
        let size = self.buffer_values(buf).len();
        if size >= PAYLOAD_MAX {
            return Err(FaultKind::BufferFull);
        }
        self.values[start_of(buf) + size] = value;
        self.lengths[usize::from(buf.0)] = size as u8 + 1;
        Ok(())
    }

    /// Takes the last value out of a buffer. The fault `BufferEmpty` comes exactly if it holds none, and leaves the
    /// heap as it was.
    pub fn take(&mut self, buf: BufId) -> Result<i16, FaultKind>
        requires { buf.0 < length self.old.buffers.items }
        ensures value { result ≡ last_of (buffer_at self.old buf.0) }
        ensures rest { self.new ≡ set_buffer self.old buf.0 (without_last (buffer_at self.old buf.0)) }
    {
        let values = self.buffer_values(buf);
        let size = values.len();
        if size == 0 {
            return Err(FaultKind::BufferEmpty);
        }
        let last = values[size - 1];
        self.lengths[usize::from(buf.0)] = size as u8 - 1;
        Ok(last)
    }

    /// Empties a buffer.
    pub fn clear(&mut self, buf: BufId)
        requires { buf.0 < length self.old.buffers.items }
        ensures { self.new ≡ set_buffer self.old buf.0 [] }
    {
        self.lengths[usize::from(buf.0)] = 0;
    }

    /// Sets every shared variable.
    pub fn set_variables(&mut self, values: &[i16])
        requires { length values.now ≡ length self.old.shared.items }
        ensures { self.new ≡ record self.old { shared = record { items = values.now } } }
    {
        self.values[..values.len()].copy_from_slice(values);
    }

    /// How many values are in a buffer, from 0 to `PAYLOAD_MAX`.
    pub fn size(&self, buf: BufId) -> i16
        requires { buf.0 < length self.now.buffers.items }
        ensures { result ≡ pos (length (buffer_at self.now buf.0)) }
    {
        self.buffer_values(buf).len() as i16
    }

    /// The values in a buffer.
    pub fn payload(&self, buf: BufId) -> Payload
        requires { buf.0 < length self.now.buffers.items }
        ensures { result ≡ payload (buffer_at self.now buf.0) }
    {
        let Ok(values) = ArrayVec::try_from(self.buffer_values(buf)) else {
            unreachable!()
        };
        values
    }

    /// The values of all shared variables and buffers.
    pub fn store(&self) -> Store
        ensures { result ≡ self.now }
    {
        let mut store = Store {
            shared: ArrayVec::new(),
            buffers: ArrayVec::new(),
        };
        let Ok(()) = store.shared.try_extend_from_slice(self.variables()) else {
            unreachable!()
        };
        for buf in 0..self.buffer_count() {
            store.buffers.push(self.payload(BufId(buf)));
        }
        store
    }

    /// How many buffers there are.
    pub fn buffer_count(&self) -> u8
        ensures value { result ≡ length self.now.buffers.items }
        ensures fits { result ≤ BUFFERS_MAX }
    {
        self.buffers
    }

    /// The values of the shared variables, in their order.
    pub fn variables(&self) -> &[i16]
        ensures value { result.now ≡ self.now.shared.items }
        ensures fits { length result.now ≤ SHARED_MAX }
    {
        &self.values[..usize::from(self.shared)]
    }

    /// The values in a buffer, where they are.
    pub fn buffer_values(&self, buf: BufId) -> &[i16]
        requires { buf.0 < length self.now.buffers.items }
        ensures value { result.now ≡ buffer_at self.now buf.0 }
        ensures fits { length result.now ≤ PAYLOAD_MAX }
        ensures in_range { buf.0 < BUFFERS_MAX }
    {
        let size = usize::from(self.lengths[usize::from(buf.0)]);
        let start = start_of(buf);
        &self.values[start..start + size]
    }
}
