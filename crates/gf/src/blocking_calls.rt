// The plane that alone hides a segment, and the planes that a box is behind.
ghost use Rattle.std.specs.Prelude.{◌≡◌};
ghost use Rattle.number.specs.Answer.{lone, put, put_place};
ghost use Rattle.verdict.specs.PlanesBehind.{blocking_planes_call};
ghost use Rattle.blocking.specs.Calls.{blocking_plane_call};

use number::answer::{put, put_place};

#[unsafe(no_mangle)]
pub extern "C" fn gf_blocking_plane(volume: &[f64], p0: &[f64], p1: &[f64], place: &mut u32) -> u32
    ensures { lone result place.new ≡ put_place (blocking_plane_call volume.now p0.now p1.now) place.old }
{
    put_place(
        blocking::blocking_calls::blocking_plane(volume, p0, p1),
        place,
    )
}

#[unsafe(no_mangle)]
pub extern "C" fn gf_blocking_planes(volume: &[f64], bbox: &[f64], planes: &mut u32) -> u32
    ensures { lone result planes.new ≡ put (blocking_planes_call volume.now bbox.now) planes.old }
{
    put(
        verdict::planes_behind_calls::blocking_planes(volume, bbox),
        planes,
    )
}
