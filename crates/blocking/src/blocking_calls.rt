// The plane that alone hides a segment, over lent slices.
ghost use Rattle.std.specs.Prelude.{◌≡◌};
ghost use Rattle.number.specs.Answer.{outcome_of};
ghost use Rattle.blocking.specs.Calls.{blocking_plane_call};

use crate::cuts;
use matrix::vec::Vec3d;
use number::answer::Refusal;
use verdict::frustum_calls::intersects_segment;
use verdict::view::View;

// The lowest place of a plane without which some of the segment would be in the view.
pub fn blocking_plane(volume: &[f64], p0: &[f64], p1: &[f64]) -> Result<Option<u32>, Refusal>
    ensures { outcome_of result ≡ blocking_plane_call volume.now p0.now p1.now }
{
    if intersects_segment(volume, p0, p1)? {
        return Err(Refusal::InView);
    }
    let view = View::held(volume)?;
    Ok(cuts::blocking_plane(view.planes, Vec3d::load(p0), Vec3d::load(p1)))
}
