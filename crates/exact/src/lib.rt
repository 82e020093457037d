// Whether a box and a view share an exact point, decided in whole numbers, with a point that they share. It makes no float operation.
#![tactic(auto)]

pub mod bbox;
mod constraint;
mod plane;
mod scene;
mod search;
pub mod vec;
