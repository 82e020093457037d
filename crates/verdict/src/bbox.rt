// Boxes: ranges, each with the matrix that places it in the world.
ghost use Rattle.std.specs.Prelude.{◌≡◌, length};
ghost use Rattle.number.specs.Slice.{stored};
ghost use Rattle.verdict.specs.BBox.{is_flag, numbers, box_of, into_box, is_degenerate, aligned_range, centroid, volume, transformed_box, extended, preferred, smaller_box, aligned, merged, held, combined};

use crate::record::{vec3_at, vec4_at};
use matrix::matrix::Mat4d;
use matrix::range::Range3d;
use matrix::vec::{Vec3d, Vec4d};
use number::limits::{BOX_LENGTH, FLAG_PLACE, RANGE_LENGTH};
use number::order;
use number::slice::at;

// A range, the matrix that places it, and the zero-area flag.
#[derive(Clone, Copy)]
pub struct BBox3d {
    pub range: Range3d,
    pub matrix: Mat4d,
    pub flag: bool,
}

// A box's matrix has an inverse if its determinant is larger than this in size.
const PRECISION_LIMIT: f64 = 1e-13;

// Whether a number is one of a flag's: a zero of either sign, or 1.
#[tactic(auto, using(matrix::proofs::Literals::zero_bits, matrix::proofs::Literals::one_bits))]
pub fn is_flag(x: f64) -> bool
    ensures { result ≡ is_flag x }
{
    (x == 0.0) | (x == 1.0)
}

// Whether the first of two volumes is taken: it is smaller, or larger by the tolerance at most.
#[tactic(auto, using(matrix::proofs::Literals::min_length_bits, crate::proofs::Literals::millionth_bits))]
fn preferred(v: f64, w: f64) -> bool
    ensures { result ≡ preferred v w }
{
    let tolerance = order::max(1e-6 * order::abs(order::max(v, w)), 1e-10);
    (order::abs(v - w) <= tolerance) | (v < w)
}

impl BBox3d {
    // The inverse of its matrix, if it has one.
    #[tactic(auto, using(crate::proofs::Literals::box_epsilon_bits))]
    pub fn inverse(self) -> Option<Mat4d>
        ensures { result ≡ into_box self }
    {
        self.matrix.inverse_above(PRECISION_LIMIT)
    }

    // Whether it has none.
    #[tactic(auto, using(crate::proofs::Literals::box_epsilon_bits))]
    pub fn is_degenerate(self) -> bool
        ensures { result ≡ is_degenerate self }
    {
        !self.matrix.has_inverse_above(PRECISION_LIMIT)
    }

    #[tactic(auto, using(matrix::proofs::Literals::zero_bits, number::proofs::Nan::nan_is), unfolding(crate::specs::BBox::volume, number::specs::Arithmetic::abs_of))]
    pub fn volume(self) -> f64
        ensures { result ≡ volume self }
    {
        if self.range.is_empty() {
            return 0.0;
        }
        let size = self.range.size();
        let volume = self.matrix.determinant3() * size.x * size.y * size.z;
        if volume.is_nan() {
            return volume;
        }
        order::abs(volume)
    }

    // Moved by a matrix.
    pub fn transform(self, m: Mat4d) -> BBox3d
        ensures { result ≡ transformed_box self m }
    {
        BBox3d {
            matrix: self.matrix.product(m),
            ..self
        }
    }

    pub fn aligned_range(self) -> Range3d
        ensures { result ≡ aligned_range self }
    {
        self.range.transformed(self.matrix)
    }

    pub fn centroid(self) -> Vec3d
        ensures { result ≡ centroid self }
    {
        self.matrix.transform(self.range.midpoint())
    }

    // In its own space with another box, which the inverse of its matrix brings there.
    #[tactic(auto, unfolding(crate::specs::BBox::extended))]
    fn extended_by(self, other: BBox3d, inverse: Mat4d) -> BBox3d
        ensures { result ≡ extended self other inverse }
    {
        BBox3d {
            range: self
                .range
                .union_by_product(other.range, other.matrix, inverse),
            ..self
        }
    }

    #[tactic(auto, unfolding(crate::specs::BBox::smaller_box))]
    fn smaller(self, other: BBox3d) -> BBox3d
        ensures { result ≡ smaller_box self other }
    {
        if preferred(self.volume(), other.volume()) {
            return self;
        }
        other
    }

    // Of two boxes without an inverse: their aligned ranges united, in the world.
    #[tactic(auto, using(matrix::proofs::Literals::zero_bits, matrix::proofs::Literals::one_bits))]
    fn aligned_with(self, other: BBox3d) -> BBox3d
        ensures { result ≡ aligned self other }
    {
        BBox3d {
            range: self
                .range
                .transformed_seldom(self.matrix)
                .union(other.range.transformed_seldom(other.matrix)),
            matrix: Mat4d::IDENTITY,
            flag: false,
        }
    }

    #[tactic(auto, unfolding(crate::specs::BBox::merged))]
    fn merged(self, other: BBox3d) -> BBox3d
        ensures { result ≡ merged self other (into_box self) (into_box other) }
    {
        let into_self = self.inverse();
        let into_other = other.inverse();
        if let Some(into_self) = into_self {
            let first = self.extended_by(other, into_self);
            if let Some(into_other) = into_other {
                return first.smaller(other.extended_by(self, into_other));
            }
            return first;
        }
        if let Some(into_other) = into_other {
            return other.extended_by(self, into_other);
        }
        self.aligned_with(other)
    }

    #[tactic(auto, unfolding(crate::specs::BBox::held))]
    fn held(self, other: BBox3d) -> BBox3d
        ensures { result ≡ held self other }
    {
        if self.range.is_empty() {
            return other;
        }
        if other.range.is_empty() {
            return self;
        }
        self.merged(other)
    }

    // One box with both in it.
    #[tactic(auto, unfolding(crate::specs::BBox::combined))]
    pub fn combine(self, other: BBox3d) -> BBox3d
        ensures { result ≡ combined self other }
    {
        BBox3d {
            flag: self.flag | other.flag,
            ..self.held(other)
        }
    }

    // The numbers of a record, a slice whose length its contract asks for, as those of the verdicts do: what is lent has no length in its type. The operations on boxes read by it: behind the test of `from_record` the reading is called, and a volume takes five times as long.
    #[tactic(auto, using(matrix::proofs::Literals::one_bits))]
    pub(crate) fn load(s: &[f64]) -> BBox3d
        requires { length s.now ≡ 23 }
        ensures { result ≡ box_of s.now }
    {
        BBox3d {
            range: Range3d {
                min: vec3_at(s, 0),
                max: vec3_at(s, 3),
            },
            matrix: Mat4d {
                r0: vec4_at(s, 6),
                r1: vec4_at(s, 10),
                r2: vec4_at(s, 14),
                r3: vec4_at(s, 18),
            },
            flag: s[22] == 1.0,
        }
    }

    // The numbers of a record, for other crates: its length is tested once. A slice of another length is read number by number, with NaNs past its end, since the definition
    // says of every slice what it holds.
    #[tactic(auto, using(matrix::proofs::Literals::one_bits))]
    pub fn from_record(s: &[f64]) -> BBox3d
        ensures { result ≡ box_of s.now }
    {
        if s.len() == BOX_LENGTH {
            return BBox3d::load(s);
        }
        BBox3d {
            range: Range3d::load(s),
            matrix: Mat4d {
                r0: Vec4d::load_at(s, 6),
                r1: Vec4d::load_at(s, 10),
                r2: Vec4d::load_at(s, 14),
                r3: Vec4d::load_at(s, 18),
            },
            flag: at(s, 22) == 1.0,
        }
    }

    // Its numbers, into a slice of 23.
    pub fn store(self, out: &mut [f64])
        ensures { out.new ≡ stored (numbers self) out.old }
    {
        if out.len() == BOX_LENGTH {
            self.range.store(&mut out[..RANGE_LENGTH]);
            self.matrix.store(&mut out[RANGE_LENGTH..FLAG_PLACE]);
            out[FLAG_PLACE] = f64::from(self.flag);
        }
    }
}
