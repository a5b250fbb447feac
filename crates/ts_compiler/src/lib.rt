//! The compiler: from a checked script to its code.
#![tactic(auto)]

pub mod compiling;
mod emitter;
mod extent;
pub mod fault;
mod words;

pub use compiling::compile;
pub use fault::CompileFault;
