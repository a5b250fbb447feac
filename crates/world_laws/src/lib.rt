//! What follows from the rules of a world: of its events, of what stands on the air, of installs, of how
//! fast versions spread, and of the text of a report.
#![tactic(auto)]

pub mod air;
pub mod events;
pub mod hops;
pub mod installing;
pub mod text;

pub use air::{
    packets_are_decided, packets_are_sent_for_reasons, packets_arrive_once, timers_are_told,
};
pub use events::{
    calls_are_answered, calls_are_told, causes_have_events, events_tell_theirs,
    exchanges_keep_their_rules, nodes_are_prompt, packets_arrive, rules_read_journals,
    timers_keep_their_rules,
};
pub use hops::{injected_versions_arrive, scripts_keep_the_bound, versions_spread};
pub use installing::{
    installs_are_injected, installs_are_taken, lines_come_in_order, versions_rise,
};
pub use text::text_grows_by_events;
