//! Tests that no data file can be: of files and writers outside, and of sinks that fail at a call.
#![tactic(auto)]

#[cfg(test)]
mod files;
#[cfg(test)]
mod listings;
#[cfg(test)]
mod nodes;
