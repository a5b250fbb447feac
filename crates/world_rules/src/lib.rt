//! What a right run of a world is: rules alone, and no code.
#![tactic(auto)]
