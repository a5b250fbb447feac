//! A journal that is read with the programs of its live invocations made ready, and whole runs of these programs.
#![tactic(auto)]

pub mod filling;
pub mod finding;
pub mod kept;
pub mod ready;
pub mod ready_roll;
pub mod runs;
pub mod settling;
pub mod table;
pub mod trial;

pub use filling::heap_of;
pub use finding::find_program;
pub use kept::KeptRun;
pub use ready::ReadyProgram;
pub use ready_roll::ReadyRoll;
pub use runs::KeptRuns;
pub use table::ReadyPrograms;
pub use trial::Trial;
