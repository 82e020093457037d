// What a verdict asks of the planes of a record, which are gathered for each pass over them: where the compiler knows the count, the rows are never
// stored. So each pass is put into its callers, who give the count.
ghost use Rattle.std.specs.Prelude.{◌≡◌};
ghost use Rattle.matrix.specs.Constants.{positive_zero, one};
ghost use Rattle.verdict.specs.View.{planes_of};
ghost use Rattle.verdict.specs.Steps.Passes.{sides_of, side_left};
ghost use Rattle.verdict.specs.Frustum.{point_in_view, span_left, segment_in_view};

use crate::passes::End;
use crate::rows::Rows;
use crate::view::{Planes, all_planes};
use matrix::vec::Vec3d;

impl<'a> Planes<'a> {
    // Whether a point is on the positive side of every plane.
    #[inline(always)]
    pub(crate) fn hold_point(self, p: Vec3d) -> bool
        ensures { result ≡ point_in_view (planes_of self.entry.numbers.now self.entry.count) p }
    {
        let mut rows = Rows::NONE;
        rows.gather(self);
        rows.holds_point(p)
    }

    // A point as an end of a segment, with those planes that have it on their positive side.
    #[inline(always)]
    pub(crate) fn end(self, p: Vec3d) -> End
        ensures { (result.point ≡ p) × (result.sides ≡ sides_of (planes_of self.entry.numbers.now self.entry.count) p) }
    {
        let mut rows = Rows::NONE;
        rows.gather(self);
        End {
            point: p,
            sides: rows.sides(p),
        }
    }

    // The segment between two points, by one gathering for both.
    #[inline(always)]
    pub(crate) fn segment(self, a: Vec3d, b: Vec3d) -> Segment<'a>
        ensures { (result.planes.numbers.now ≡ self.entry.numbers.now) × (result.planes.count ≡ self.entry.count) × (result.a.point ≡ a) × (result.b.point ≡ b) }
    {
        let mut rows = Rows::NONE;
        rows.gather(self);
        Segment {
            planes: self,
            a: End {
                point: a,
                sides: rows.sides(a),
            },
            b: End {
                point: b,
                sides: rows.sides(b),
            },
        }
    }
}

// A segment before some planes, each end with those that have it on their positive side.
#[derive(Clone, Copy)]
pub(crate) struct Segment<'a> {
    pub planes: Planes<'a>,
    pub a: End,
    pub b: End,
    pub ghost a_sides: { a.sides ≡ sides_of (planes_of planes.numbers.now planes.count) a.point },
    pub ghost b_sides: { b.sides ≡ sides_of (planes_of planes.numbers.now planes.count) b.point },
}

impl<'a> Segment<'a> {
    // Whether the planes leave some of it.
    #[inline(always)]
    fn is_left(self) -> bool
        ensures { result ≡ span_left (planes_of self.entry.planes.numbers.now self.entry.planes.count) self.entry.a.point self.entry.b.point positive_zero one }
    {
        let mut rows = Rows::NONE;
        rows.gather(self.planes);
        rows.span_left(self.a, self.b)
    }

    // Whether some of it is on the positive side of every plane.
    #[inline(always)]
    pub(crate) fn is_in_view(self) -> bool
        ensures { result ≡ segment_in_view (planes_of self.entry.planes.numbers.now self.entry.planes.count) self.entry.a.point self.entry.b.point }
    {
        let all = all_planes(self.planes.count);
        if self.a.sides | self.b.sides != all {
            return false;
        }
        if (self.a.sides == all) | (self.b.sides == all) {
            return true;
        }
        self.is_left()
    }

    // The same of one whose ends are both outside.
    #[inline(always)]
    pub(crate) fn crosses_view(self) -> bool
        ensures { result ≡ side_left (planes_of self.entry.planes.numbers.now self.entry.planes.count) self.entry.a.point self.entry.b.point }
    {
        if self.a.sides | self.b.sides != all_planes(self.planes.count) {
            return false;
        }
        self.is_left()
    }
}
