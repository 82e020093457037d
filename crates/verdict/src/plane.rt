// Planes, and on which side of one a point or a range is.
ghost use Rattle.std.specs.Prelude.{◌≡◌, ℕ, List, length, Float, refl};
ghost use Rattle.verdict.specs.Plane.{numbers, plane_of, facing, from_points, offset, from_equation, equation, distance_to, on_positive_side, end_toward, reaches_positive_side, under_inverse_transpose, transformed};
ghost use Rattle.number.specs.Slice.{stored};
ghost use Rattle.number.specs.Limits.{plane_length};

use matrix::matrix::Mat4d;
use matrix::range::Range3d;
use matrix::record::Record;
use matrix::vec::{Vec3d, Vec4d};
use number::limits::PLANE_LENGTH;
use number::slice;
use number::slice::at;

// On its positive side a point has a dot product with the normal of at least the distance.
#[derive(Clone, Copy)]
pub struct Plane {
    pub normal: Vec3d,
    pub distance: f64,
}

// The distance of an equation whose last number is w, for a normal of a length.
#[tactic(auto, using(matrix::proofs::Literals::zero_bits), unfolding(crate::specs::Plane::offset))]
fn offset(w: f64, length: f64) -> f64
    ensures { result ≡ offset w length }
{
    if length == 0.0 {
        return -w;
    }
    -w / length
}

// Along an axis the greatest of a range, or the least where the normal's number there is below 0 or a NaN.
#[tactic(auto, using(matrix::proofs::Literals::zero_bits), unfolding(crate::specs::Plane::end_toward))]
pub(crate) fn end_toward(n: f64, min: f64, max: f64) -> f64
    ensures { result ≡ end_toward n min max }
{
    if n >= 0.0 {
        return max;
    }
    min
}

impl Plane {
    // From a normal of any length, which is normalized, and a distance.
    pub fn new(normal: Vec3d, distance: f64) -> Plane
        ensures { result ≡ facing normal distance }
    {
        Plane {
            normal: normal.normalize(),
            distance,
        }
    }

    // From three points on it, which seen from its positive side go round against the clock.
    pub fn from_points(p0: Vec3d, p1: Vec3d, p2: Vec3d) -> Plane
        ensures { result ≡ from_points p0 p1 p2 }
    {
        let normal = p1.sub(p0).cross(p2.sub(p0)).normalize();
        Plane {
            normal,
            distance: normal.dot(p0),
        }
    }

    // From an equation n · x + w = 0, as the numbers of n and then w.
    pub fn from_equation(equation: Vec4d) -> Plane
        ensures { result ≡ from_equation equation }
    {
        let normal = Vec3d {
            x: equation.x,
            y: equation.y,
            z: equation.z,
        };
        let length = normal.length();
        Plane {
            normal: normal.unit(length),
            distance: offset(equation.w, length),
        }
    }

    pub fn equation(self) -> Vec4d
        ensures { result ≡ equation self }
    {
        Vec4d {
            x: self.normal.x,
            y: self.normal.y,
            z: self.normal.z,
            w: -self.distance,
        }
    }

    // The dot product of normal and point, less the plane's distance.
    pub fn distance(self, point: Vec3d) -> f64
        ensures { result ≡ distance_to self point }
    {
        point.dot(self.normal) - self.distance
    }

    #[tactic(auto, using(matrix::proofs::Literals::zero_bits))]
    pub fn on_positive_side(self, point: Vec3d) -> bool
        ensures { result ≡ on_positive_side self point }
    {
        self.distance(point) >= 0.0
    }

    // Whether a range that is not empty comes at least as far along the normal as the plane.
    #[tactic(auto, using(crate::proofs::ReachSum::reach_by_dot), unfolding(crate::specs::Plane::reaches_positive_side))]
    pub fn reaches_positive_side(self, range: Range3d) -> bool
        ensures { result ≡ reaches_positive_side self range }
    {
        if range.is_empty() {
            return false;
        }
        let furthest = Vec3d {
            x: end_toward(self.normal.x, range.min.x, range.max.x),
            y: end_toward(self.normal.y, range.min.y, range.max.y),
            z: end_toward(self.normal.z, range.min.z, range.max.z),
        };
        self.normal.dot(furthest) >= self.distance
    }

    // Moved by a matrix, of whose inverse the transpose is given.
    pub fn under_inverse_transpose(self, inverse_transpose: Mat4d) -> Plane
        ensures { result ≡ under_inverse_transpose inverse_transpose self }
    {
        Plane::from_equation(inverse_transpose.transform_homogeneous(self.equation()))
    }

    #[tactic(auto, unfolding(crate::specs::Plane::transformed))]
    pub fn transformed(self, matrix: Mat4d) -> Option<Plane>
        ensures { result ≡ transformed matrix self }
    {
        let inverse = matrix.inverse()?;
        Some(self.under_inverse_transpose(inverse.transpose()))
    }

    // The first four numbers of a slice.
    pub fn load(s: &[f64]) -> Plane
        ensures { result ≡ plane_of s.now }
    {
        Plane {
            normal: Vec3d::load(s),
            distance: at(s, 3),
        }
    }

    pub fn numbers(self) -> [f64; PLANE_LENGTH]
        ensures { result ≡ numbers self }
    {
        [self.normal.x, self.normal.y, self.normal.z, self.distance]
    }

    // Its numbers, into a slice of four.
    pub fn store(self, out: &mut [f64])
        ensures { out.new ≡ stored (numbers self) out.old }
    {
        slice::store(&self.numbers(), out);
    }
}

impl Record for Plane {
    ghost LENGTH = { plane_length };

    ghost read = { plane_of };

    ghost numbers = { numbers };

    const LENGTH: usize = PLANE_LENGTH;

    ghost count = { λ x. refl };

    fn load(s: &[f64]) -> Plane {
        Plane::load(s)
    }

    fn store(self, out: &mut [f64]) {
        Plane::store(self, out);
    }
}
