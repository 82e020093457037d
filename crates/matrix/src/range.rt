// Boxes along the axes, each from a least to a greatest corner.
ghost use Rattle.std.specs.Prelude.{◌≡◌, cond, ◌&&◌, Float};
ghost use Rattle.matrix.specs.Vec.{axis4, vec3};
ghost use Rattle.matrix.specs.Range.{range, range_of, bounds, empty, is_empty, joined, union, intersection, size, midpoint, span_distance_squared, distance_squared, reach, reached, transformed, corner, corners};
ghost use Rattle.matrix.specs.Matrix.{product};
ghost use Rattle.matrix.specs.Steps.{NumbersAlong, both_numbers, all_numbers, all_ordered, Settling};
ghost use Rattle.number.specs.Arithmetic.{min_of, max_of};
ghost use Rattle.number.specs.Slice.{stored};

use crate::matrix::Mat4d;
use crate::vec::{Vec3d, Vec4d};
use number::limits::CORNERS_LENGTH;
use number::slice::at;
use number::{order, slice};

#[derive(Clone, Copy)]
pub struct Range3d {
    pub min: Vec3d,
    pub max: Vec3d,
}

// The squared distance of a number from the span between two others. Where both tests hold, the second counts; no return waits on
// either, so neither is a branch.
fn span_distance_squared(p: f64, min: f64, max: f64) -> f64
    ensures { result ≡ span_distance_squared p min max }
{
    let mut found = 0.0;
    if p > max {
        found = (p - max) * (p - max);
    }
    if p < min {
        found = (min - p) * (min - p);
    }
    found
}

fn pick(from_max: bool, min: f64, max: f64) -> f64
    ensures { result ≡ cond from_max max min }
{
    if from_max {
        return max;
    }
    min
}

// Neither is a NaN.
fn are_numbers(x: f64, y: f64) -> bool
    ensures { result ≡ both_numbers x y }
{
    (x == x) & (y == y)
}

impl Range3d {
    // Along each axis from the largest number of binary32 down to its opposite.
    pub const EMPTY: Range3d = Range3d {
        min: Vec3d {
            x: 3.4028234663852886e38,
            y: 3.4028234663852886e38,
            z: 3.4028234663852886e38,
        },
        max: Vec3d {
            x: -3.4028234663852886e38,
            y: -3.4028234663852886e38,
            z: -3.4028234663852886e38,
        },
    };

    pub fn new(min: Vec3d, max: Vec3d) -> Range3d
        ensures { result ≡ range min max }
    {
        Range3d { min, max }
    }

    pub fn is_empty(self) -> bool
        ensures { result ≡ is_empty self }
    {
        if self.min.x > self.max.x {
            return true;
        }
        if self.min.y > self.max.y {
            return true;
        }
        self.min.z > self.max.z
    }

    // Whether along each axis the least is at most the greatest: not empty, and without a NaN.
    fn is_ordered(self) -> bool
        ensures { result ≡ all_ordered self }
    {
        if !(self.min.x <= self.max.x) {
            return false;
        }
        if !(self.min.y <= self.max.y) {
            return false;
        }
        self.min.z <= self.max.z
    }

    // Whether both of two ranges are so.
    pub(crate) fn are_ordered(self, other: Range3d) -> bool
        ensures { result ≡ (all_ordered self && all_ordered other) }
    {
        if !self.is_ordered() {
            return false;
        }
        other.is_ordered()
    }

    // Whether neither of two ranges has a NaN. z goes first, each by itself: so the compiler takes x and y of both at once.
    fn are_numbers(self, other: Range3d) -> bool
        ensures { result ≡ all_numbers self other }
    {
        if !are_numbers(self.min.z, self.max.z) {
            return false;
        }
        if !are_numbers(other.min.z, other.max.z) {
            return false;
        }
        are_numbers(self.min.x, self.max.x)
            & are_numbers(self.min.y, self.max.y)
            & are_numbers(other.min.x, other.max.x)
            & are_numbers(other.min.y, other.max.y)
    }

    // The union of two ranges that are not empty, with a NaN passed over and the sign of a zero.
    fn joined(self, other: Range3d) -> Range3d
        ensures { result ≡ joined self other }
    {
        Range3d {
            min: self.min.min(other.min),
            max: self.max.max(other.max),
        }
    }

    pub fn union(self, other: Range3d) -> Range3d
        ensures { result ≡ union self other }
    {
        if self.is_empty() {
            return other;
        }
        if other.is_empty() {
            return self;
        }
        self.joined(other)
    }

    // The same of ranges without a NaN.
    pub(crate) fn joined_numbers(self, other: Range3d) -> Range3d
        requires { NumbersAlong self.min other.min × NumbersAlong self.max other.max }
        ensures { result ≡ joined self other }
    {
        Range3d {
            min: self.min.lesser(other.min),
            max: self.max.greater(other.max),
        }
    }

    // Its corners in each other's place: what both of two ranges hold is, so swapped, the union of the two swapped.
    fn corners_swapped(self) -> Range3d
        ensures { result ≡ range self.max self.min }
    {
        let least = self.max;
        let greatest = self.min;
        Range3d {
            min: least,
            max: greatest,
        }
    }

    pub fn intersection(self, other: Range3d) -> Range3d
        ensures { result ≡ intersection self other }
    {
        if self.are_numbers(other) {
            return Range3d {
                min: self.min.greater(other.min),
                max: self.max.lesser(other.max),
            };
        }
        self.corners_swapped()
            .joined(other.corners_swapped())
            .corners_swapped()
    }

    pub fn size(self) -> Vec3d
        ensures { result ≡ size self }
    {
        self.max.sub(self.min)
    }

    pub fn midpoint(self) -> Vec3d
        ensures { result ≡ midpoint self }
    {
        self.min.scale(0.5).add(self.max.scale(0.5))
    }

    pub fn distance_squared(self, p: Vec3d) -> f64
        ensures { result ≡ distance_squared self p }
    {
        span_distance_squared(p.x, self.min.x, self.max.x)
            + span_distance_squared(p.y, self.min.y, self.max.y)
            + span_distance_squared(p.z, self.min.z, self.max.z)
    }

    // What the range comes to along an axis, whose column of a matrix is given, the translation its last number: each axis of the range adds what is picked of
    // its two products.
    #[inline(always)]
    fn reach<F: Fn(f64, f64) -> f64>(self, column: Vec4d, pick: F) -> f64
        requires { F.IsAlwaysCallable pick }
        ensures { (choice : Float → Float → Float) → ((x y r : Float) → F.post pick x y r → r ≡ choice x y) → result ≡ reach choice self (vec3 (axis4 column)) (axis4 column 3) }
    {
        column.w
            + pick(self.min.x * column.x, self.max.x * column.x)
            + pick(self.min.y * column.y, self.max.y * column.y)
            + pick(self.min.z * column.z, self.max.z * column.z)
    }

    // The same along each axis: a corner of this range moved by the matrix.
    #[inline(always)]
    fn reached<F: Fn(f64, f64) -> f64 + Copy>(self, matrix: Mat4d, pick: F) -> Vec3d
        requires { F.IsAlwaysCallable pick }
        ensures { (choice : Float → Float → Float) → ((x y r : Float) → F.post pick x y r → r ≡ choice x y) → result ≡ reached choice self matrix }
    {
        let columns = matrix.transpose();
        Vec3d {
            x: self.reach(columns.r0, pick),
            y: self.reach(columns.r1, pick),
            z: self.reach(columns.r2, pick),
        }
    }

    // Whether the corners so found are those with a NaN passed over and the sign of a zero: none of their numbers is a NaN, and no number of the translation, from
    // which the sums start, is -0. A zero that is added to any other number leaves no sign.
    fn is_settled(self, translation: Vec3d) -> bool
        ensures { Settling result self translation }
    {
        if !(are_numbers(self.min.x, self.max.x)
            & are_numbers(self.min.y, self.max.y)
            & are_numbers(self.min.z, self.max.z))
        {
            return false;
        }
        translation.has_no_negative_zero()
    }

    // The range with those corners, with a NaN passed over and the sign of a zero.
    fn transformed_signed(self, matrix: Mat4d) -> Range3d
        ensures { result ≡ range (reached min_of self matrix) (reached max_of self matrix) }
    {
        Range3d {
            min: self.reached(matrix, order::min),
            max: self.reached(matrix, order::max),
        }
    }

    // Moved by the matrix: its least and greatest along each axis, by one comparison for each choice where that settles them. Each place that calls it has its
    // body, since range and matrix would go to it through memory.
    #[inline(always)]
    pub fn transformed(self, matrix: Mat4d) -> Range3d
        ensures { result ≡ transformed self matrix }
    {
        if self.is_empty() {
            return self;
        }
        let found = Range3d {
            min: self.reached(matrix, order::lower),
            max: self.reached(matrix, order::upper),
        };
        if found.is_settled(matrix.extract_translation()) {
            return found;
        }
        self.transformed_signed(matrix)
    }

    // The same without the way by one comparison, for what is seldom asked: that way would be code at each place.
    pub fn transformed_seldom(self, matrix: Mat4d) -> Range3d
        ensures { result ≡ transformed self matrix }
    {
        if self.is_empty() {
            return self;
        }
        self.transformed_signed(matrix)
    }

    // The same of a product of two matrices, of which only what the range needs is computed.
    #[inline(always)]
    pub fn transformed_by_product(self, left: Mat4d, right: Mat4d) -> Range3d
        ensures { result ≡ transformed self (product left right) }
    {
        self.transformed(left.product(right))
    }

    // The union of this range and another, moved by a product of two matrices.
    pub fn union_by_product(self, other: Range3d, left: Mat4d, right: Mat4d) -> Range3d
        ensures { result ≡ union self (transformed other (product left right)) }
    {
        let moved = other.transformed_by_product(left, right);
        if self.are_ordered(moved) {
            return self.joined_numbers(moved);
        }
        self.union(moved)
    }

    // Corner i of eight: of the lowest three bits of i each chooses between least and greatest along an axis.
    pub fn corner(self, i: usize) -> Vec3d
        ensures { result ≡ corner self i }
    {
        Vec3d {
            x: pick(i % 2 == 1, self.min.x, self.max.x),
            y: pick(i / 2 % 2 == 1, self.min.y, self.max.y),
            z: pick(i / 4 % 2 == 1, self.min.z, self.max.z),
        }
    }

    // The first six numbers of a slice.
    pub fn load(s: &[f64]) -> Range3d
        ensures { result ≡ range_of s.now }
    {
        Range3d {
            min: Vec3d::load_at(s, 0),
            max: Vec3d::load_at(s, 3),
        }
    }

    // Its numbers, into a slice of six.
    pub fn store(self, out: &mut [f64])
        ensures { out.new ≡ stored (bounds self) out.old }
    {
        let all = [
            self.min.x, self.min.y, self.min.z, self.max.x, self.max.y, self.max.z,
        ];
        slice::store(&all, out);
    }

    // The numbers of the eight corners of the range in a slice, into a slice of 24. The last four go first, before x and y of the least
    // corner are read: so the compiler stores all of them in pairs.
    pub fn store_corners(s: &[f64], out: &mut [f64])
        ensures { out.new ≡ stored (corners (range_of s.now) 8) out.old }
    {
        if out.len() != CORNERS_LENGTH {
            return;
        }
        let z = at(s, 2);
        let max = Vec3d::load_at(s, 3);
        let last = [max.z, max.x, max.y, max.z];
        slice::store_at(&last, out, 20);
        let x = at(s, 0);
        let y = at(s, 1);
        let others = [
            x, y, z, max.x, y, z, x, max.y, z, max.x, max.y, z, x, y, max.z, max.x, y, max.z, x,
            max.y,
        ];
        slice::store_at(&others, out, 0);
    }
}

impl Default for Range3d {
    ghost is_default = { λ r. r ≡ empty };

    fn default() -> Range3d {
        Range3d::EMPTY
    }
}
