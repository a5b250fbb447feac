//! Descriptions of machines, and their reader: from the bytes of a TOML text to the description, or to the first refusal.
#![tactic(auto)]

pub mod fields;
pub mod known;
mod opening;
mod parts;
pub mod reading;

pub use reading::read;
pub use vm_shape::{
    DOUBLINGS_MAX, DescFault, Description, FunKind, Function, Handler, HandlerKind, Key, RadioSet,
    TrickleSet, builtin, name_of, shape,
};
