//! Programs that are right for a machine, what they mean by their sources, and the steps that a script gives with them.
#![tactic(auto)]

pub mod laws;
