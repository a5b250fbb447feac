//! How a node learns of newer capsules, collects their fragments, and sends those that it is asked for.
#![tactic(auto)]

pub mod exchange;
mod handler_state;
mod handlers;
mod kept_image;
mod kept_piece;
pub mod laws;
mod noted_image;
mod pieces;
pub mod progress;
pub mod stored_exchange;
mod summary;
mod unseen_image;

pub use exchange::{Exchange, Heard};
pub use laws::{fragments_go_together, gaps_are_asked_for};
pub use progress::Outcome;
pub use stored_exchange::StoredExchange;
