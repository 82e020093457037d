// One pass over planes side by side: whether they hold a point, which of them do, and what they leave of a segment.
ghost use Rattle.std.specs.Prelude.{◌≡◌};
ghost use Rattle.matrix.specs.Constants.{positive_zero, one};
ghost use Rattle.verdict.specs.Rows.{planes_in_rows};
ghost use Rattle.verdict.specs.Steps.Passes.{sides_of};
ghost use Rattle.verdict.specs.Frustum.{point_in_view, crossing, start_cut, end_cut, span_left};

use crate::plane::Plane;
use crate::rows::Rows;
use matrix::vec::Vec3d;
use number::order;

// An end of a segment, with the planes that have it on their positive side: one bit for each, that of the first plane lowest.
#[derive(Clone, Copy)]
pub(crate) struct End {
    pub point: Vec3d,
    pub sides: u64,
}

// Where the segment from a to b meets a plane, as a number that is 0 at a and 1 at b.
pub fn crossing(plane: Plane, a: Vec3d, b: Vec3d) -> f64
    ensures { result ≡ crossing plane a b }
{
    -plane.distance(a) / plane.normal.dot(b.sub(a))
}

// What the planes passed leave of a segment from a to b: from a start to an end that are 0 at a and 1 at b.
#[derive(Clone, Copy)]
struct Span {
    start: f64,
    end: f64,
}

impl Span {
    // Past one plane more, that has a or b on its positive side or not.
    fn cut(self, plane: Plane, a: Vec3d, in_a: bool, b: Vec3d, in_b: bool) -> Span
        ensures { (result.start ≡ start_cut in_a in_b self.start (crossing plane a b)) × (result.end ≡ end_cut in_a in_b self.end (crossing plane a b)) }
    {
        if in_a {
            if in_b {
                return self;
            }
            return Span {
                start: self.start,
                end: order::min(self.end, crossing(plane, a, b)),
            };
        }
        if in_b {
            return Span {
                start: order::max(self.start, crossing(plane, a, b)),
                end: self.end,
            };
        }
        self
    }
}

impl Rows {
    // Whether a point is on the positive side of every plane.
    #[inline(always)]
    pub(crate) fn holds_point(&self, p: Vec3d) -> bool
        ensures { result ≡ point_in_view (planes_in_rows self.now.numbers self.now.count) p }
    {
        (0..self.count).all(|i| self.plane(i).on_positive_side(p))
    }

    // Of the planes those that have a point on their positive side.
    #[inline(always)]
    pub(crate) fn sides(&self, p: Vec3d) -> u64
        ensures { result ≡ sides_of (planes_in_rows self.now.numbers self.now.count) p }
    {
        let mut sides: u64 = 0;
        for i in (0..self.count).rev() {
            sides = sides * 2 + u64::from(self.plane(i).on_positive_side(p));
        }
        sides
    }

    // Whether the planes leave some of a segment, by where it crosses those that have one end alone on their positive side.
    #[inline(always)]
    pub(crate) fn span_left(&self, a: End, b: End) -> bool
        requires a_sides { a.sides ≡ sides_of (planes_in_rows self.now.numbers self.now.count) a.point }
        requires b_sides { b.sides ≡ sides_of (planes_in_rows self.now.numbers self.now.count) b.point }
        ensures { result ≡ span_left (planes_in_rows self.now.numbers self.now.count) a.point b.point positive_zero one }
    {
        let mut span = Span {
            start: 0.0,
            end: 1.0,
        };
        let mut a_left = a.sides;
        let mut b_left = b.sides;
        for i in 0..self.count {
            span = span.cut(
                self.plane(i),
                a.point,
                a_left % 2 == 1,
                b.point,
                b_left % 2 == 1,
            );
            if span.start > span.end {
                return false;
            }
            a_left /= 2;
            b_left /= 2;
        }
        true
    }
}
