// The verdicts of a view, over lent slices.
ghost use Rattle.std.specs.Prelude.{◌≡◌};
ghost use Rattle.number.specs.Answer.{outcome_of};
ghost use Rattle.verdict.specs.FrustumCalls.{intersects_point_call, intersects_segment_call, intersects_triangle_call, intersects_box_call, view_volume_call};

use crate::bbox::{BBox3d, is_flag};
use crate::clip;
use crate::rows::Rows;
use crate::view::{Lent, View};
use matrix::matrix::Mat4d;
use matrix::vec::Vec3d;
use number::answer::Refusal;
use number::limits::{BOX_LENGTH, FLAG_PLACE, MATRIX_LENGTH, POINT_LENGTH};
use number::slice::{all_finite, at};

// Whether a point is in the view.
pub fn intersects_point(volume: &[f64], p: &[f64]) -> Result<bool, Refusal>
    ensures { outcome_of result ≡ intersects_point_call volume.now p.now }
{
    if p.len() != POINT_LENGTH {
        return Err(Refusal::InputLength);
    }
    let view = View::checked(
        volume,
        Lent {
            finite: all_finite(p),
            ..Lent::NOTHING
        },
    )?;
    Ok(view.holds_point(Vec3d::load(p)))
}

// Whether some of a segment is.
pub fn intersects_segment(volume: &[f64], p0: &[f64], p1: &[f64]) -> Result<bool, Refusal>
    ensures { outcome_of result ≡ intersects_segment_call volume.now p0.now p1.now }
{
    if !((p0.len() == POINT_LENGTH) & (p1.len() == POINT_LENGTH)) {
        return Err(Refusal::InputLength);
    }
    let view = View::checked(
        volume,
        Lent {
            finite: all_finite(p0) & all_finite(p1),
            ..Lent::NOTHING
        },
    )?;
    Ok(view.holds_some(Vec3d::load(p0), Vec3d::load(p1)))
}

// Whether some of a box is, by the planes alone.
pub fn intersects_bbox(volume: &[f64], bbox: &[f64]) -> Result<bool, Refusal>
    ensures { outcome_of result ≡ intersects_box_call volume.now bbox.now }
{
    if bbox.len() != BOX_LENGTH {
        return Err(Refusal::InputLength);
    }
    let view = View::checked(
        volume,
        Lent {
            flags: is_flag(at(bbox, FLAG_PLACE)),
            finite: all_finite(bbox),
            ..Lent::NOTHING
        },
    )?;
    let mut rows = Rows::NONE;
    rows.gather(view.planes);
    Ok(rows.holds_some(bbox))
}

// Whether a triangle is in view.
pub fn intersects_triangle(
    volume: &[f64],
    p0: &[f64],
    p1: &[f64],
    p2: &[f64],
) -> Result<bool, Refusal>
    ensures { outcome_of result ≡ intersects_triangle_call volume.now p0.now p1.now p2.now }
{
    if !((p0.len() == POINT_LENGTH) & (p1.len() == POINT_LENGTH) & (p2.len() == POINT_LENGTH)) {
        return Err(Refusal::InputLength);
    }
    let view = View::checked(
        volume,
        Lent {
            finite: all_finite(p0) & (all_finite(p1) & all_finite(p2)),
            ..Lent::NOTHING
        },
    )?;
    Ok(view.holds_some_triangle(Vec3d::load(p0), Vec3d::load(p1), Vec3d::load(p2)))
}

// Whether a box reaches into the clip space of a view.
pub fn intersects_view_volume(b: &[f64], m: &[f64]) -> Result<bool, Refusal>
    ensures { outcome_of result ≡ view_volume_call b.now m.now }
{
    if !((b.len() == BOX_LENGTH) & (m.len() == MATRIX_LENGTH)) {
        return Err(Refusal::InputLength);
    }
    if !is_flag(at(b, FLAG_PLACE)) {
        return Err(Refusal::Kind);
    }
    if !(all_finite(b) & all_finite(m)) {
        return Err(Refusal::MissingNumber);
    }
    Ok(clip::intersects_view_volume(BBox3d::load(b), Mat4d::load(m)))
}
