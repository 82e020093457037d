// The verdicts of a view: whether a point, a segment or a box is in it.
ghost use Rattle.std.specs.Prelude.{◌≡◌, ◌&&◌, length};
ghost use Rattle.number.specs.Limits.{box_length};
ghost use Rattle.number.specs.Answer.{has};
ghost use Rattle.verdict.specs.BBox.{box_of};
ghost use Rattle.verdict.specs.View.{planes_of};
ghost use Rattle.verdict.specs.Rows.{planes_in_rows};
ghost use Rattle.verdict.specs.Frustum.{point_in_view, segment_in_view, box_in_view};

use crate::bbox::BBox3d;
use crate::reach::Space;
use crate::rows::Rows;
use crate::view::View;
use matrix::vec::Vec3d;
use number::limits::{BOX_LENGTH, FEWEST_PLANES};

impl<'a> View<'a> {
    // Whether a point is on the positive side of every plane. The fewest are passed by a count that the compiler knows.
    #[inline(always)]
    pub(crate) fn holds_point(self, p: Vec3d) -> bool
        ensures { result ≡ point_in_view (planes_of self.entry.planes.numbers.now self.entry.planes.count) p }
    {
        if self.planes.count == FEWEST_PLANES {
            return self.original().hold_point(p);
        }
        self.planes.hold_point(p)
    }

    // Whether some of a segment is on the positive side of every plane, in the same way.
    #[inline(always)]
    pub(crate) fn holds_some(self, a: Vec3d, b: Vec3d) -> bool
        ensures { result ≡ segment_in_view (planes_of self.entry.planes.numbers.now self.entry.planes.count) a b }
    {
        if self.planes.count == FEWEST_PLANES {
            return self.original().segment(a, b).is_in_view();
        }
        self.planes.segment(a, b).is_in_view()
    }
}

impl Rows {
    // Whether a box of a record reaches the positive side of every plane. An empty one does not.
    pub(crate) fn holds_some(&self, bbox: &[f64]) -> bool
        requires { length bbox.now ≡ box_length }
        ensures { result ≡ box_in_view (planes_in_rows self.now.numbers self.now.count) (box_of bbox.now) }
    {
        let b = BBox3d::load(bbox);
        if b.range.is_empty() {
            return false;
        }
        let space = Space::of(b);
        (0..self.count).all(|i| space.reaches(self.plane(i)))
    }
}

// The same for other crates; a record of another length holds no box.
pub fn box_in_view(rows: &Rows, bbox: &[f64]) -> bool
    ensures { result ≡ (has box_length bbox.now && box_in_view (planes_in_rows rows.now.numbers rows.now.count) (box_of bbox.now)) }
{
    if bbox.len() != BOX_LENGTH {
        return false;
    }
    rows.holds_some(bbox)
}
