// The exact verdict on the records of a volume and a box: their numbers as whole ones, and the box as it is placed.
#![tactic(auto)]

pub mod bbox;
mod numbers;
mod placement;
