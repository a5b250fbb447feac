//! Packets in hexadecimal digits: the packet, or the fault.

use cases_files::bytes_of;
use packet_codec::{decode, encode};
use std::alloc::{AllocError, Global};
use vm_shape::Description;

pub fn answer(alloc: Global, desc: &Description, case: &str) -> Result<String, AllocError> {
    let Some(bytes) = bytes_of(alloc, case)? else {
        return "no digits".to_string(alloc);
    };
    match decode(desc, &bytes) {
        Ok(packet) if encode(desc, &packet).as_slice() != bytes.as_slice() => {
            "other bytes".to_string(alloc)
        }
        Ok(packet) => format!(in alloc; "{packet:?}"),
        Err(fault) => format!(in alloc; "{fault:?}"),
    }
}
