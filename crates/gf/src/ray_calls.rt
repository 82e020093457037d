// The operations on rays.
ghost use Rattle.std.specs.Prelude.{◌≡◌};
ghost use Rattle.number.specs.Answer.{answered};
ghost use Rattle.verdict.specs.RayCalls.{point_call, transformed_ray_call, plane_hit_call, triangle_hit_call};
ghost use Rattle.rays.specs.Rays.{left, rays_call};

use number::answer::status;

#[unsafe(no_mangle)]
pub extern "C" fn gf_ray_point(ray: &[f64], distance: f64, out: &mut [f64]) -> u32
    ensures { answered result out.new ≡ point_call ray.now distance out.old }
{
    status(verdict::ray_calls::point(ray, distance, out))
}

#[unsafe(no_mangle)]
pub extern "C" fn gf_ray_transformed(ray: &[f64], m: &[f64], out: &mut [f64]) -> u32
    ensures { answered result out.new ≡ transformed_ray_call ray.now m.now out.old }
{
    status(verdict::ray_calls::transformed(ray, m, out))
}

#[unsafe(no_mangle)]
pub extern "C" fn gf_ray_intersect_plane(ray: &[f64], plane: &[f64], out: &mut [f64]) -> u32
    ensures { answered result out.new ≡ plane_hit_call ray.now plane.now out.old }
{
    status(verdict::ray_calls::intersect_plane(ray, plane, out))
}

#[unsafe(no_mangle)]
pub extern "C" fn gf_ray_intersect_triangle(
    ray: &[f64],
    p0: &[f64],
    p1: &[f64],
    p2: &[f64],
    out: &mut [f64],
) -> u32
    ensures { answered result out.new ≡ triangle_hit_call ray.now p0.now p1.now p2.now out.old }
{
    status(verdict::ray_calls::intersect_triangle(ray, p0, p1, p2, out))
}

#[unsafe(no_mangle)]
pub extern "C" fn gf_rays_intersect_triangle(
    rays: &[f64],
    p0: &[f64],
    p1: &[f64],
    p2: &[f64],
    out: &mut [f64],
    status: &mut [u32],
) -> u32
    ensures { left result out.new status.new ≡ rays_call rays.now p0.now p1.now p2.now out.old status.old }
{
    number::answer::status(rays::rays_calls::intersect_triangle(rays, p0, p1, p2, out, status))
}
