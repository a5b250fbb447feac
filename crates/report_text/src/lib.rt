//! The text of a report, written and read: a report is read back whole, or refused at its first bad line.
#![tactic(auto)]

pub mod fault;
pub mod last_line;
pub mod laws;
pub mod parts;
pub mod place;
pub mod text;

pub use fault::TextFault;
pub use last_line::LastLine;
pub use laws::{one_verdict_holds, read_report_is_tidy};
pub use report_writer::{brief, write, write_end, write_event};
pub use text::read;
