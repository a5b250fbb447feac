//! Files of cases, one case on each line, and what a program prints of them: each line with its answer.
#![tactic(auto)]

mod bytes;
mod marked;
mod stores;
mod tables;
mod words;

pub use bytes::{bytes_of, in_one_line};
pub use marked::marked_bytes;
pub use stores::zero_store;
pub use tables::{description, print_cases, print_table};
pub use words::{
    call_words, cause_word, device_words, end_words, fault_word, quoted, shape_words, store_words,
};
