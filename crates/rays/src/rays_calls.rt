// Many rays on one triangle, over lent slices. How many numbers and slots there are follows from how many rays are lent, so that none of these is a `Record`.
ghost use Rattle.std.specs.Prelude.{◌≡◌};
ghost use Rattle.number.specs.Answer.{status_of};
ghost use Rattle.rays.specs.Rays.{left, rays_call};

use crate::rays::answer;
use matrix::vec::Vec3d;
use number::answer::Refusal;
use number::limits::{HIT_LENGTH, POINT_LENGTH, RAY_LENGTH};
use verdict::ray::Triangle;

// Where each of some rays meets a triangle: five numbers and a slot for each, which says whether it hits or misses.
#[tactic(auto, using(number::proofs::Records::whole_count), unfolding(crate::specs::Rays::rays_call, verdict::specs::Ray::triangle_hit))]
pub fn intersect_triangle(
    rays: &[f64],
    p0: &[f64],
    p1: &[f64],
    p2: &[f64],
    out: &mut [f64],
    status: &mut [u32],
) -> Result<(), Refusal>
    ensures { left (status_of result) out.new status.new ≡ rays_call rays.now p0.now p1.now p2.now out.old status.old }
{
    if rays.len() == 0 {
        return Err(Refusal::InputLength);
    }
    if rays.len() % RAY_LENGTH != 0 {
        return Err(Refusal::InputLength);
    }
    if p0.len() != POINT_LENGTH {
        return Err(Refusal::InputLength);
    }
    if p1.len() != POINT_LENGTH {
        return Err(Refusal::InputLength);
    }
    if p2.len() != POINT_LENGTH {
        return Err(Refusal::InputLength);
    }
    let count = rays.len() / RAY_LENGTH;
    if out.len() != count * HIT_LENGTH {
        return Err(Refusal::OutputLength);
    }
    if status.len() != count {
        return Err(Refusal::OutputLength);
    }
    let triangle = Triangle::new(Vec3d::load(p0), Vec3d::load(p1), Vec3d::load(p2));
    answer(triangle, rays, out, status);
    Ok(())
}
