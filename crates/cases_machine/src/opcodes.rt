//! The opcode table of a machine, and how many names its functions have.

use cases_files::in_one_line;
use mate_files::MemSink;
use opcode_gen::{function_names, print_table};
use std::alloc::{AllocError, Global};
use vm_shape::Description;

pub fn answer(alloc: Global, desc: &Description) -> Result<String, AllocError> {
    let mut sink = MemSink::new(alloc);
    if print_table(desc, &mut sink).is_err() {
        return "no table".to_string(alloc);
    }
    let names = function_names(desc).len();
    let rows = in_one_line(alloc, sink.bytes())?;
    format!(in alloc; "{names} {rows}")
}
