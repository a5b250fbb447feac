//! A node of the network: what happens on it, in the order of its calls.
#![tactic(auto)]

pub mod calls;
pub mod open_node;
pub mod shared_machine;
pub mod standing;

pub use open_node::{OpenNode, SETTLING_ENTRIES, TURN_ENTRIES};
pub use shared_machine::SharedMachine;
pub use standing::{Asked, NotReady, Standing};
