// The nearest of several ranges, and those within a distance.
#![tactic(auto)]

pub mod nearest;
pub mod nearest_calls;
