//! What handlers share: the things that locks are taken for.

use crate::id::{BufId, DeviceId, VarId};

/// One thing that several handlers may use.
#[derive(Clone, Copy)]
pub enum Resource {
    /// A shared variable.
    Shared(VarId),
    /// A buffer of values.
    Buffer(BufId),
    /// A device that functions speak to.
    Device(DeviceId),
}
