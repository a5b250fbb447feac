//! What records a node's run: entries, logs and reports; and what a right journal is.
#![tactic(auto)]

pub mod air;
pub mod entry;
pub mod law;
pub mod node_log;
pub mod open_log;
pub mod past;
pub mod program;
pub mod report;
pub mod stored_image;
pub mod stored_program;

pub use air::{Air, Aired, Airs};
pub use entry::{DropCause, Entry, Stamped, VoidCause};
pub use law::{Law, Verdict};
pub use node_log::NodeLog;
pub use open_log::OpenLog;
pub use past::Past;
pub use program::{Program, Programs};
pub use report::{ENTRIES_MAX, IntoFault, NodeLogs, RECORDS_MAX, Report, RunFault};
pub use stored_image::StoredImage;
pub use stored_program::{StoredProgram, StoredPrograms, stored};
