//! The calls of a node, from rest to rest: turns, posts, answers, installs, resets, stores that are recorded.
//!
//! Each but `run_some` takes a node that rests, a stamp that may follow that of the last entry, room for the entries that it
//! makes (their greatest number), and a log whose positions are far from a u32's end. After it the node rests again.
#![tactic(auto)]

pub mod answering;
pub mod era;
pub mod installing;
pub mod posting;
pub mod ready;
pub mod running;
pub mod showing;
pub mod turns;

pub use answering::answer_in;
pub use era::reset_in;
pub use installing::{InstallFault, install_ready, install_shared};
pub use posting::{PostAnswer, post_in};
pub use ready::{ReadyCapsule, near, place_among};
pub use running::run_some;
pub use showing::{seen_in, void_in};
pub use turns::{settle, take_turn};
