//! The shared variables and buffers of a node at one moment.

ghost use Rattle.std.specs.Prelude.{◌≡◌};

use crate::bounds::{BUFFERS_MAX, Payload, SHARED_MAX};
use arrayvec::ArrayVec;

/// The value of every shared variable and the values in every buffer, each in the description's order.
#[derive(Drop)]
pub struct Store {
    pub shared: ArrayVec<i16, SHARED_MAX>,
    pub buffers: ArrayVec<Payload, BUFFERS_MAX>,
}

/// A copy of the values. It takes no memory.
pub fn copy_of(payload: &Payload) -> Payload
    ensures { result ≡ payload.now }
{
    let Ok(copy) = ArrayVec::try_from(payload.as_slice()) else {
        unreachable!()
    };
    copy
}

impl Store {
    /// A copy of the store. It takes no memory.
    pub fn copy(&self) -> Store
        ensures { result ≡ self.now }
    {
        let Ok(shared) = ArrayVec::try_from(self.shared.as_slice()) else {
            unreachable!()
        };
        let mut buffers: ArrayVec<Payload, BUFFERS_MAX> = ArrayVec::new();
        for buffer in self.buffers.as_slice() {
            buffers.push(copy_of(buffer));
        }
        Store { shared, buffers }
    }
}
