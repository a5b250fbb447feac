//! The timeline of a report, as an SVG picture: what happens on each node and in each context.
#![tactic(auto)]

mod contents;
mod density;
mod lanes;
mod legend;
mod marks;
mod node_lane;
mod packets;
mod signs;
mod timeline;
mod titles;

pub use timeline::draw_timeline;
