// The nearest of several ranges, and those within a distance.
ghost use Rattle.std.specs.Prelude.{◌≡◌};
ghost use Rattle.number.specs.Answer.{lone, put, put_place};
ghost use Rattle.nearest.specs.Calls.{nearest_call, within_call};

use number::answer::{put, put_place};

#[unsafe(no_mangle)]
pub extern "C" fn gf_range_nearest(ranges: &[f64], p: &[f64], place: &mut u32) -> u32
    ensures { lone result place.new ≡ put_place (nearest_call ranges.now p.now) place.old }
{
    put_place(nearest::nearest_calls::nearest(ranges, p), place)
}

#[unsafe(no_mangle)]
pub extern "C" fn gf_range_within(
    ranges: &[f64],
    p: &[f64],
    limit: f64,
    out: &mut [u32],
    found: &mut u32,
) -> u32
    ensures { (lone result found.new ≡ put (within_call ranges.now p.now limit out.old).count found.old) × (out.new ≡ (within_call ranges.now p.now limit out.old).out) }
{
    put(nearest::nearest_calls::within(ranges, p, limit, out), found)
}
