// Planes, rays, boxes and views.
#![tactic(auto)]

pub mod bbox;
pub mod bbox_calls;
pub mod clip;
mod finite;
pub mod frustum;
pub mod frustum_calls;
mod gathered;
pub mod passes;
pub mod plane;
pub mod plane_calls;
mod planes_behind;
pub mod planes_behind_calls;
pub mod ray;
pub mod ray_calls;
mod reach;
mod record;
pub mod rows;
pub mod triangle;
pub mod view;
