// Whether a box reaches into clip space.
ghost use Rattle.std.specs.Prelude.{◌≡◌};
ghost use Rattle.matrix.specs.Matrix.{product};
ghost use Rattle.verdict.specs.Frustum.{box_in_view_volume};
ghost use Rattle.verdict.specs.Steps.Passes.{corner_under, passed_by, all_sides};

use crate::bbox::BBox3d;
use matrix::matrix::Mat4d;
use matrix::range::Range3d;
use matrix::vec::Vec4d;

// The sides of clip space that some corner is within: each by its name, beside the comparison that tells it.
#[derive(Clone, Copy, Default)]
struct Sides {
    right: bool,
    left: bool,
    top: bool,
    bottom: bool,
    far: bool,
    near: bool,
}

// A corner of a range, under a matrix.
#[tactic(auto, using(matrix::proofs::Literals::one_bits))]
fn corner_under(range: Range3d, m: Mat4d, i: usize) -> Vec4d
    ensures { result ≡ corner_under range m i }
{
    let corner = range.corner(i);
    m.transform_homogeneous(Vec4d {
        x: corner.x,
        y: corner.y,
        z: corner.z,
        w: 1.0,
    })
}

impl Sides {
    fn passed_by(self, clip: Vec4d) -> Sides
        ensures { result ≡ passed_by self clip }
    {
        Sides {
            right: self.right | (clip.x < clip.w),
            left: self.left | (clip.x > -clip.w),
            top: self.top | (clip.y < clip.w),
            bottom: self.bottom | (clip.y > -clip.w),
            far: self.far | (clip.z < clip.w),
            near: self.near | (clip.z > -clip.w),
        }
    }

    // The first pair that is not within ends it.
    fn all(self) -> bool
        ensures { result ≡ all_sides self }
    {
        (self.right && self.left) && (self.top && self.bottom) && (self.far && self.near)
    }
}

// The product of two matrices, by a call: put into the pass over the corners it would take longer.
#[inline(never)]
fn product(a: Mat4d, b: Mat4d) -> Mat4d
    ensures { result ≡ product a b }
{
    a.product(b)
}

// One pass over the corners. The comparisons are strict.
pub fn intersects_view_volume(b: BBox3d, m: Mat4d) -> bool
    ensures { result ≡ box_in_view_volume b m }
{
    let to_clip = product(b.matrix, m);
    let mut sides = Sides::default();
    for i in 0..8 {
        sides = sides.passed_by(corner_under(b.range, to_clip, i));
    }
    sides.all()
}
