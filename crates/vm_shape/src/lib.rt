//! The description of a machine, valid by its type: its handlers, functions, variables, buffers and limits.
#![tactic(auto)]

pub mod built_in;
pub mod description;
pub mod fault;
pub mod function;
pub mod handler;
pub mod key;
pub mod names;
pub mod rules;
pub mod settings;
pub mod shape_of;

pub use built_in::builtin;
pub use description::Description;
pub use fault::DescFault;
pub use function::{FunKind, Function};
pub use handler::{Handler, HandlerKind};
pub use key::Key;
pub use names::name_of;
pub use settings::{DOUBLINGS_MAX, RadioSet, TrickleSet};
pub use shape_of::shape;
