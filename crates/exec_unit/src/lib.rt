//! The machine that runs verified code, one instruction at a time, or many.
#![tactic(auto)]

mod calls;
mod instruction;
pub mod machine;
mod operands;
mod registers;
pub mod running;
mod shared;
mod stack;
pub mod step_end;
pub mod stepping;

pub use machine::Machine;
pub use running::{Ran, run};
pub use step_end::StepEnd;
pub use stepping::{resume, step};
