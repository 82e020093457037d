// The operations on rays, over lent slices.
ghost use Rattle.std.specs.Prelude.{◌≡◌};
ghost use Rattle.number.specs.Answer.{reply};
ghost use Rattle.verdict.specs.RayCalls.{point_call, transformed_ray_call, plane_hit_call, triangle_hit_call};

use crate::plane::Plane;
use crate::ray::Ray;
use matrix::matrix::Mat4d;
use matrix::record::{given, lent_one, lent_two};
use matrix::vec::Vec3d;
use number::answer::Refusal;
use number::limits::{HIT_LENGTH, PLANE_HIT_LENGTH, PLANE_LENGTH, RAY_LENGTH};
use number::slice;

// The point at a distance along a ray.
pub fn point(ray: &[f64], distance: f64, out: &mut [f64]) -> Result<(), Refusal>
    ensures { reply result out.new ≡ point_call ray.now distance out.old }
{
    let along = lent_one::<Ray, Vec3d>(ray, out)?;
    along.point(distance).store(out);
    Ok(())
}

// A ray moved by a matrix.
pub fn transformed(ray: &[f64], m: &[f64], out: &mut [f64]) -> Result<(), Refusal>
    ensures { reply result out.new ≡ transformed_ray_call ray.now m.now out.old }
{
    let (along, matrix) = lent_two::<Ray, Mat4d, Ray>(ray, m, out)?;
    along.transformed(matrix).store(out);
    Ok(())
}

// A ray's hit on a plane: the distance, and 1 for its front or 0 for its back. A miss is refused. It has its own tests: by `given` it took a tenth longer.
#[tactic(auto, unfolding(crate::specs::RayCalls::plane_hit_call, number::specs::Answer::leaving))]
pub fn intersect_plane(ray: &[f64], plane: &[f64], out: &mut [f64]) -> Result<(), Refusal>
    ensures { reply result out.new ≡ plane_hit_call ray.now plane.now out.old }
{
    if ray.len() != RAY_LENGTH {
        return Err(Refusal::InputLength);
    }
    if plane.len() != PLANE_LENGTH {
        return Err(Refusal::InputLength);
    }
    if out.len() != PLANE_HIT_LENGTH {
        return Err(Refusal::OutputLength);
    }
    let hit = Ray::load(ray)
        .intersect_plane(Plane::load(plane))
        .ok_or(Refusal::Miss)?;
    slice::store(&hit.record(), out);
    Ok(())
}

// A ray's hit on a triangle: the distance, the weights of its three points, and 1 for its front or 0 for its back. A miss is
// refused.
pub fn intersect_triangle(
    ray: &[f64],
    p0: &[f64],
    p1: &[f64],
    p2: &[f64],
    out: &mut [f64],
) -> Result<(), Refusal>
    ensures { reply result out.new ≡ triangle_hit_call ray.now p0.now p1.now p2.now out.old }
{
    let cast: Ray = given(ray)?;
    let first = given(p0)?;
    let second = given(p1)?;
    let third = given(p2)?;
    if out.len() != HIT_LENGTH {
        return Err(Refusal::OutputLength);
    }
    let hit = cast.intersect_triangle(first, second, third)?;
    slice::store(&hit.record(), out);
    Ok(())
}
