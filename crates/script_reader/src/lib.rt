//! The scripts of nodes and of worlds, read or refused at their first bad line, and worlds that are made from a number.
#![tactic(auto)]

mod adding;
pub mod command;
pub mod draft;
mod events;
pub mod laws;
mod line;
mod links;
pub mod made;
mod made_events;
mod reader;
pub mod refusal;
mod settings;
pub mod source;
pub mod stage;
mod world_words;

pub use command::Command;
pub use draft::Draft;
pub use laws::sources_law;
pub use made::{Generated, generate};
pub use reader::world_script;
pub use refusal::Refusal;
pub use script_steps::{
    Cause, Lines, Link, Links, Plan, Planned, ScriptFault, Series, SeriesList, Step, Steps, Values,
    What, Words, World, newest_of, node_script, note_newest, spells,
};
pub use source::source_of;
pub use stage::Stage;
