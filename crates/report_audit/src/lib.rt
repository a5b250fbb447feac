//! The audit of a report: whether it shows serial behaviour of programs, whoever wrote it.
#![tactic(auto)]

pub mod auditing;
pub mod ending;
pub mod granting;
pub mod images;
pub mod replay;
pub mod rerun;
pub mod runs;
pub mod same;
pub mod showing;
pub mod stores;
pub mod waiting;

pub use audit_rules::{Law, Verdict};
pub use auditing::{audit, audit_stored};
pub use granting::{is_granted, start_of};
pub use replay::{run_at, zero_store};
pub use rerun::all_so_far;
pub use stores::shows_right;
pub use waiting::all_held_back;
