//! The commands of `mate-view`: what its words ask for, and how it is made.
#![tactic(auto)]

mod making;
mod numbers;
mod options;
mod plain;
mod request;
mod stop;

pub use making::view;
pub use options::read;
pub use request::{Request, Rows, View, Words};
pub use stop::Stop;

/// The version of the program.
pub const VERSION: &str = "1.0.0";
