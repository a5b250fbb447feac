//! The keys of a description before the handlers.

use arrayvec::ArrayVec;
use mate_num::{BUFFERS_MAX, DEVICES_MAX, Name, SHARED_MAX};

/// The values of the keys before the handlers.
#[derive(Drop)]
pub struct Opening {
    pub vm_id: u32,
    pub shared: ArrayVec<Name, SHARED_MAX>,
    pub buffers: ArrayVec<Name, BUFFERS_MAX>,
    pub devices: ArrayVec<Name, DEVICES_MAX>,
    pub turns: u32,
    pub quantum: u32,
}
