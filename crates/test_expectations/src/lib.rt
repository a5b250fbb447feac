//! What a test may expect of a run: a small language over its report, with functions that decide it.
#![tactic(auto)]

pub mod chance;
pub mod deciding;
pub mod fact;
pub mod moment;
pub mod pattern;
pub mod relation;
pub mod seen;
pub mod shown;
pub mod why;

pub use chance::{PARTS, RUNS_MAX, is_enough, lower_bound, rank};
pub use deciding::{conjunction_holds, expectation_holds, fact_holds};
pub use fact::{Conjunction, Expectation, Fact, Literal, Place, RunOutcome, When};
pub use moment::Moment;
pub use pattern::{Happening, Pattern, ValueRange, ValueRanges};
pub use relation::{Relation, all_related};
pub use seen::{Sighting, sightings};
pub use why::{Why, why_not};
