//! Callers of the crates of the network and of worlds: each is named for what a body that gives another value would break.
#![tactic(auto)]

pub mod air;
pub mod calls;
pub mod contexts;
pub mod ends;
pub mod events;
pub mod exchanges;
pub mod frames;
pub mod lines;
pub mod links;
pub mod logs;
pub mod made;
pub mod motes;
pub mod packets;
pub mod queues;
pub mod runs;
pub mod scripts;
pub mod sources;
pub mod timers;
