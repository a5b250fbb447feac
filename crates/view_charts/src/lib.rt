//! How versions spread, and what stores hold, as SVG pictures.
#![tactic(auto)]

mod bound_signs;
mod chart;
mod installs;
mod spread;
mod versions;

pub use chart::draw_store;
pub use spread::draw_spread;
