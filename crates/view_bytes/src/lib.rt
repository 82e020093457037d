// The volume of two matrices, from bytes to bytes.
#![tactic(auto)]

pub mod camera_view;
