//! Stores of machines.

ghost use Rattle.std.specs.Prelude.{◌≡◌, ◌≤◌};
ghost use Rattle.mate_num.specs.Store.{zero_store};
ghost use Rattle.mate_num.specs.declared.bounds.TheConstants.{BUFFERS_MAX, SHARED_MAX};

use arrayvec::ArrayVec;
use mate_num::{BUFFERS_MAX, Payload, Store};

/// A store of `shared` shared variables, each 0, and `buffers` buffers, each empty.
pub fn zero_store(shared: u8, buffers: u8) -> Store
    requires shared { shared ≤ SHARED_MAX }
    requires buffers { buffers ≤ BUFFERS_MAX }
    ensures { result ≡ zero_store shared buffers }
{
    let mut values = ArrayVec::new();
    for _ in 0..shared {
        values.push(0);
    }
    let mut empty: ArrayVec<Payload, BUFFERS_MAX> = ArrayVec::new();
    for _ in 0..buffers {
        empty.push(ArrayVec::new());
    }
    Store {
        shared: values,
        buffers: empty,
    }
}
