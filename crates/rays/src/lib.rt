// Many rays, each asked of one triangle.
#![tactic(auto)]

pub mod rays;
pub mod rays_calls;
