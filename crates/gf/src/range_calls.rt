// The operations on ranges.
ghost use Rattle.std.specs.Prelude.{◌≡◌};
ghost use Rattle.number.specs.Answer.{answered, lone, put, put_verdict};
ghost use Rattle.matrix.specs.RangeCalls.{is_empty_call, union_call, intersection_call, midpoint_call, distance_squared_call, transformed_call, corners_call};

use number::answer::{put, put_verdict, status};

#[unsafe(no_mangle)]
pub extern "C" fn gf_range_is_empty(range: &[f64], out: &mut u32) -> u32
    ensures { lone result out.new ≡ put_verdict (is_empty_call range.now) out.old }
{
    put_verdict(matrix::range_calls::is_empty(range), out)
}

#[unsafe(no_mangle)]
pub extern "C" fn gf_range_union(a: &[f64], b: &[f64], out: &mut [f64]) -> u32
    ensures { answered result out.new ≡ union_call a.now b.now out.old }
{
    status(matrix::range_calls::union(a, b, out))
}

#[unsafe(no_mangle)]
pub extern "C" fn gf_range_intersection(a: &[f64], b: &[f64], out: &mut [f64]) -> u32
    ensures { answered result out.new ≡ intersection_call a.now b.now out.old }
{
    status(matrix::range_calls::intersection(a, b, out))
}

#[unsafe(no_mangle)]
pub extern "C" fn gf_range_midpoint(range: &[f64], out: &mut [f64]) -> u32
    ensures { answered result out.new ≡ midpoint_call range.now out.old }
{
    status(matrix::range_calls::midpoint(range, out))
}

#[unsafe(no_mangle)]
pub extern "C" fn gf_range_distance_squared(range: &[f64], p: &[f64], out: &mut f64) -> u32
    ensures { lone result out.new ≡ put (distance_squared_call range.now p.now) out.old }
{
    put(matrix::range_calls::distance_squared(range, p), out)
}

#[unsafe(no_mangle)]
pub extern "C" fn gf_range_transformed(range: &[f64], m: &[f64], out: &mut [f64]) -> u32
    ensures { answered result out.new ≡ transformed_call range.now m.now out.old }
{
    status(matrix::range_calls::transformed(range, m, out))
}

#[unsafe(no_mangle)]
pub extern "C" fn gf_range_corners(range: &[f64], out: &mut [f64]) -> u32
    ensures { answered result out.new ≡ corners_call range.now out.old }
{
    status(matrix::range_calls::corners(range, out))
}
