//! A node of the network with its whole log.
#![tactic(auto)]

pub mod node;

pub use node::Node;
pub use node_calls::{InstallFault, PostAnswer};
pub use node_open::{Asked, NotReady, Standing};
