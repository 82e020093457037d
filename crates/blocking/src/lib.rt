// The plane of a view that alone hides a segment.
#![tactic(auto)]

pub mod blocking_calls;
mod cuts;
