// The segment engine over signed 32-bit whole numbers.
ghost use Rattle.std.specs.Prelude.{◌≡◌, true};
ghost use Rattle.number.specs.Answer.{outcome_of};
ghost use Rattle.whole.specs.Segment.{segment_in_view};
ghost use Rattle.whole.specs.SegmentCall.{point_of, planes_of, segment_on_grid, whole_segment_call};

use crate::fraction::{Span, in_front};
use crate::view::{WholeView, lent, point_within};
use number::answer::Refusal;
use number::limits::POINT_LENGTH;

// Whether some of a segment is in front of every plane, of numbers on the grid.
fn segment_in_view(view: &WholeView, p0: &[i32; POINT_LENGTH], p1: &[i32; POINT_LENGTH]) -> bool
    requires { segment_on_grid (planes_of view.now.numbers.now view.now.count) (point_of p0.now) (point_of p1.now) ≡ true }
    ensures { result ≡ segment_in_view (planes_of view.now.numbers.now view.now.count) (point_of p0.now) (point_of p1.now) }
{
    let mut span = Span::WHOLE;
    for i in 0..view.count {
        let first = view.gap(i, p0);
        let second = view.gap(i, p1);
        if !(in_front(first) | in_front(second)) {
            return false;
        }
        span = span.cut(first, second);
    }
    !span.end.less(span.start)
}

// Whether some of a segment is in a view, all in whole numbers on the grid.
pub fn intersects_segment(view: &[i32], p0: &[i32], p1: &[i32]) -> Result<bool, Refusal>
    ensures { outcome_of result ≡ whole_segment_call view.now p0.now p1.now }
{
    let p0 = lent(p0)?;
    let p1 = lent(p1)?;
    let view = WholeView::held(view)?;
    if !(point_within(p0) & point_within(p1) & view.planes_within()) {
        return Err(Refusal::OffGrid);
    }
    Ok(segment_in_view(&view, p0, p1))
}
