// The planes that a box is wholly behind, over lent slices.
ghost use Rattle.std.specs.Prelude.{◌≡◌};
ghost use Rattle.number.specs.Answer.{outcome_of};
ghost use Rattle.verdict.specs.PlanesBehind.{blocking_planes_call};

use crate::frustum_calls::intersects_bbox;
use crate::rows::Rows;
use number::answer::Refusal;

// A bit for each place. None is set exactly where the box is in view.
pub fn blocking_planes(volume: &[f64], bbox: &[f64]) -> Result<u32, Refusal>
    ensures { outcome_of result ≡ blocking_planes_call volume.now bbox.now }
{
    if intersects_bbox(volume, bbox)? {
        return Ok(0);
    }
    let mut rows = Rows::NONE;
    rows.load(volume)?;
    Ok(rows.bits_behind(bbox))
}
