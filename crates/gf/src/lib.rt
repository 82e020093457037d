// The C functions of include/gf.h: each is the operation of the same name, with the number of its answer. They take slices and numbers and
// have no types of their own, since this is the C interface.
#![tactic(auto)]

pub mod bbox_calls;
pub mod blocking_calls;
pub mod camera_calls;
pub mod farm_calls;
pub mod frustum_calls;
pub mod group_calls;
pub mod matrix_calls;
pub mod nearest_calls;
pub mod number_calls;
pub mod placed_calls;
pub mod plane_calls;
pub mod projection_calls;
pub mod range_calls;
pub mod ray_calls;
pub mod volume_calls;
pub mod whole_calls;
