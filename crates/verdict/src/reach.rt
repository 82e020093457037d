// Whether a box reaches the positive side of a plane that is carried into its space: by a floating-point filter, and by the plane itself, whose length is a root, where the filter does not tell.
ghost use Rattle.std.specs.Prelude.{◌≡◌};
ghost use Rattle.verdict.specs.Plane.{reaches_positive_side, under_inverse_transpose};
ghost use Rattle.verdict.specs.Frustum.{into_space_of};
ghost use Rattle.verdict.specs.Steps.Filter.{RangeFits, extent_of, settled_of};

use crate::bbox::BBox3d;
use crate::plane::{Plane, end_toward};
use matrix::matrix::Mat4d;
use matrix::range::Range3d;
use matrix::vec::{Vec3d, Vec4d};
use number::order::abs;

// Bounds of the length of a normal; the second is one of a range's numbers too.
const SHORT: f64 = 1e-9;

const LONG: f64 = 1e18;

// Bounds of the size of what is added up.
const LEAST_SIZE: f64 = 1e-90;

const MOST_SIZE: f64 = 1e90;

// The part of that size that the error is less than.
const PART: f64 = 1e-11;

// A range's numbers in size, added up.
fn extent(range: Range3d) -> f64
    ensures { result ≡ extent_of range }
{
    abs(range.min.x)
        + abs(range.min.y)
        + abs(range.min.z)
        + abs(range.max.x)
        + abs(range.max.y)
        + abs(range.max.z)
}

// The matrix that carries planes into the space of a box; a degenerate box is taken as if its matrix were the identity.
fn into_space(b: BBox3d) -> Mat4d
    ensures { result ≡ into_space_of b }
{
    if b.is_degenerate() {
        return Mat4d::IDENTITY;
    }
    b.matrix.transpose()
}

// A box in its own space: its range there, and what carries a plane to it.
#[derive(Clone, Copy)]
pub(crate) struct Space {
    into: Mat4d,
    range: Range3d,
    extent: f64,
    ghost fits: { RangeFits range },
    ghost size: { «extent» ≡ extent_of range },
}

impl Space {
    #[inline(always)]
    pub(crate) fn of(b: BBox3d) -> Space
        ensures { (result.into ≡ into_space_of b) × (result.range ≡ b.range) }
    {
        Space {
            into: into_space(b),
            range: b.range,
            extent: extent(b.range),
        }
    }

    // Whether any of the range is on the positive side of the plane of an equation, where an estimate is further from 0 than its error.
    #[inline(always)]
    fn settled(&self, equation: Vec4d) -> Option<bool>
        ensures { result ≡ settled_of equation self.now.range }
    {
        let range = self.range;
        let normal = Vec3d {
            x: equation.x,
            y: equation.y,
            z: equation.z,
        };
        let x = normal.x * end_toward(normal.x, range.min.x, range.max.x);
        let y = normal.y * end_toward(normal.y, range.min.y, range.max.y);
        let z = normal.z * end_toward(normal.z, range.min.z, range.max.z);
        let square = normal.dot(normal);
        let size = self.extent * (3.0 + square) + abs(equation.w);
        let estimate = x + y + z + equation.w;
        let error = size * PART;
        let trusted = (self.extent < LONG)
            & (SHORT * SHORT < square)
            & (square < LONG * LONG)
            & (LEAST_SIZE < size)
            & (size < MOST_SIZE);
        if trusted & (error <= estimate) {
            return Some(!range.is_empty());
        }
        if trusted & (estimate < -error) {
            return Some(false);
        }
        None
    }

    // Whether any of the range is on the positive side of a plane, once that is carried here.
    #[inline(always)]
    pub(crate) fn reaches(&self, plane: Plane) -> bool
        ensures { result ≡ reaches_positive_side (under_inverse_transpose self.now.into plane) self.now.range }
    {
        let equation = self.into.transform_homogeneous(plane.equation());
        match self.settled(equation) {
            Some(reached) => reached,
            None => Plane::from_equation(equation).reaches_positive_side(self.range),
        }
    }
}
