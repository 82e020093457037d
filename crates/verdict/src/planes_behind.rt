// The planes of a view that a box is wholly behind.
ghost use Rattle.std.specs.Prelude.{◌≡◌, ◌+◌, ◌^◌, ◌<◌, length};
ghost use Rattle.number.specs.Limits.{box_length, most_planes};
ghost use Rattle.verdict.specs.BBox.{box_of};
ghost use Rattle.verdict.specs.Rows.{planes_in_rows};
ghost use Rattle.verdict.specs.PlanesBehind.{blocking_planes};

use crate::bbox::BBox3d;
use crate::reach::Space;
use crate::rows::Rows;

// Bits below a place, with that of the place.
fn with_bit(bits: u32, i: u32) -> u32
    requires { (bits < 2 ^ i) × (i < most_planes) }
    ensures { result ≡ bits + 2 ^ i }
{
    bits + (1 << i)
}

impl Rows {
    // A bit for each plane that the box of a record is behind.
    pub(crate) fn bits_behind(&self, bbox: &[f64]) -> u32
        requires { length bbox.now ≡ box_length }
        ensures { result ≡ blocking_planes (planes_in_rows self.now.numbers self.now.count) (box_of bbox.now) }
    {
        let space = Space::of(BBox3d::load(bbox));
        let mut bits: u32 = 0;
        for i in 0..self.count {
            if !space.reaches(self.plane(i)) {
                bits = with_bit(bits, i);
            }
        }
        bits
    }
}
