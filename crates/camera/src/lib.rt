// Cameras from the matrices of a view and of a projection.
#![tactic(auto)]

pub mod camera;
pub mod camera_calls;
