//! What pictures of reports share: their look, their head, their scale, and the shapes in them.
#![tactic(auto)]

pub mod flow;
pub mod notes;
pub mod part;
pub mod plot;
pub mod scale;
mod style;
pub mod svg;

pub use flow::Flow;
pub use part::Part;
pub use scale::{LEFT, PLOT, Scale};
