// The operations on planes.
ghost use Rattle.std.specs.Prelude.{◌≡◌};
ghost use Rattle.number.specs.Answer.{answered, lone, put, put_verdict};
ghost use Rattle.verdict.specs.PlaneCalls.{new_plane_call, from_points_call, from_equation_call, distance_call, side_call, transformed_plane_call};

use number::answer::{put, put_verdict, status};

#[unsafe(no_mangle)]
pub extern "C" fn gf_plane_new(normal: &[f64], distance: f64, out: &mut [f64]) -> u32
    ensures { answered result out.new ≡ new_plane_call normal.now distance out.old }
{
    status(verdict::plane_calls::new(normal, distance, out))
}

#[unsafe(no_mangle)]
pub extern "C" fn gf_plane_from_points(p0: &[f64], p1: &[f64], p2: &[f64], out: &mut [f64]) -> u32
    ensures { answered result out.new ≡ from_points_call p0.now p1.now p2.now out.old }
{
    status(verdict::plane_calls::from_points(p0, p1, p2, out))
}

#[unsafe(no_mangle)]
pub extern "C" fn gf_plane_from_equation(equation: &[f64], out: &mut [f64]) -> u32
    ensures { answered result out.new ≡ from_equation_call equation.now out.old }
{
    status(verdict::plane_calls::from_equation(equation, out))
}

#[unsafe(no_mangle)]
pub extern "C" fn gf_plane_distance(plane: &[f64], p: &[f64], out: &mut f64) -> u32
    ensures { lone result out.new ≡ put (distance_call plane.now p.now) out.old }
{
    put(verdict::plane_calls::distance(plane, p), out)
}

#[unsafe(no_mangle)]
pub extern "C" fn gf_plane_on_positive_side(plane: &[f64], p: &[f64], out: &mut u32) -> u32
    ensures { lone result out.new ≡ put_verdict (side_call plane.now p.now) out.old }
{
    put_verdict(verdict::plane_calls::on_positive_side(plane, p), out)
}

#[unsafe(no_mangle)]
pub extern "C" fn gf_plane_transformed(plane: &[f64], m: &[f64], out: &mut [f64]) -> u32
    ensures { answered result out.new ≡ transformed_plane_call plane.now m.now out.old }
{
    status(verdict::plane_calls::transformed(plane, m, out))
}
