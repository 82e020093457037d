// The volume of a view and a projection matrix.
#![tactic(auto)]

pub mod volume;
