// Projections: their numbers, and their matrices.
#![tactic(auto)]

pub mod projection;
pub mod projection_calls;
