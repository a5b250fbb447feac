//! The script of a node or of a world in a file, the programs of the files that it names, and the world of a number with its programs.
#![tactic(auto)]

pub mod image;
pub mod injected;
pub mod known;
pub mod laws;
pub mod made;
pub mod named;
pub mod programs;
pub mod script;
pub mod shared_source;
pub mod world_file;

pub use injected::programs_of_world;
pub use made::{MadeWorld, made_world};
pub use named::programs_named;
pub use programs::programs_of;
pub use script::{script_in, script_of};
pub use shared_source::SharedSource;
pub use world_file::world_of;
