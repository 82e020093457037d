// Matrices of four rows and four columns that act on row vectors: a point goes through one as a row from the left, and
// the last row is the translation. The number at row i and column j is the number i * 4 + j of the record.
ghost use Rattle.std.specs.Prelude.{◌≡◌, Float};
ghost use Rattle.matrix.specs.Matrix.{matrix_of, entries, entry, identity, row_times, product, transpose, determinant3, right_handed, translation};
ghost use Rattle.matrix.specs.Transform.{direction, affine, divisor, transformed, homogeneous};
ghost use Rattle.matrix.specs.Vec.{axis4, dot, vec3, vec4};
ghost use Rattle.number.specs.Arithmetic.{◌⊕◌};
ghost use Rattle.number.specs.Slice.{stored};

use crate::vec::{Vec3d, Vec4d};
use number::slice;

#[derive(Clone, Copy)]
pub struct Mat4d {
    pub r0: Vec4d,
    pub r1: Vec4d,
    pub r2: Vec4d,
    pub r3: Vec4d,
}

// What a point is divided by: a zero of either sign counts as 1.
fn divisor(w: f64) -> f64
    ensures { result ≡ divisor w }
{
    if w == 0.0 {
        return 1.0;
    }
    w
}

// What a column makes of a point, as of a homogeneous one whose last number is 1.
#[inline(always)]
fn moved(p: Vec3d, column: Vec4d) -> f64
    ensures { result ≡ dot p (vec3 (axis4 column)) ⊕ column.w }
{
    p.x * column.x + p.y * column.y + p.z * column.z + column.w
}

impl Mat4d {
    pub const IDENTITY: Mat4d = Mat4d {
        r0: Vec4d {
            x: 1.0,
            y: 0.0,
            z: 0.0,
            w: 0.0,
        },
        r1: Vec4d {
            x: 0.0,
            y: 1.0,
            z: 0.0,
            w: 0.0,
        },
        r2: Vec4d {
            x: 0.0,
            y: 0.0,
            z: 1.0,
            w: 0.0,
        },
        r3: Vec4d {
            x: 0.0,
            y: 0.0,
            z: 0.0,
            w: 1.0,
        },
    };

    // A number of each column.
    #[inline(always)]
    fn by_columns<F: Fn(Vec4d) -> f64>(self, number: F) -> Vec4d
        requires { F.IsAlwaysCallable number }
        ensures { (of : Vec4d → Float) → ((v : Vec4d) (r : Float) → F.post number v r → r ≡ of v) → result ≡ vec4 (λ j. of (vec4 (λ i. entry self i j))) }
    {
        let columns = self.transpose();
        Vec4d {
            x: number(columns.r0),
            y: number(columns.r1),
            z: number(columns.r2),
            w: number(columns.r3),
        }
    }

    // A row of a product, whose left factor has this row: each sum starts at 0, so that none is -0. In full: by `by_columns` a product takes 1.1 times as long, and
    // the clip verdict 1.2 times.
    #[inline(always)]
    fn row_product(self, row: Vec4d) -> Vec4d
        ensures { result ≡ vec4 (row_times (axis4 row) self) }
    {
        Vec4d {
            x: 0.0 + row.x * self.r0.x + row.y * self.r1.x + row.z * self.r2.x + row.w * self.r3.x,
            y: 0.0 + row.x * self.r0.y + row.y * self.r1.y + row.z * self.r2.y + row.w * self.r3.y,
            z: 0.0 + row.x * self.r0.z + row.y * self.r1.z + row.z * self.r2.z + row.w * self.r3.z,
            w: 0.0 + row.x * self.r0.w + row.y * self.r1.w + row.z * self.r2.w + row.w * self.r3.w,
        }
    }

    // Each row of the left factor goes through the right one. Each place that calls it has its body, since matrices would go to it through memory.
    #[inline(always)]
    pub fn product(self, other: Mat4d) -> Mat4d
        ensures { result ≡ product self other }
    {
        Mat4d {
            r0: other.row_product(self.r0),
            r1: other.row_product(self.r1),
            r2: other.row_product(self.r2),
            r3: other.row_product(self.r3),
        }
    }

    pub fn transpose(self) -> Mat4d
        ensures { result ≡ transpose self }
    {
        Mat4d {
            r0: Vec4d {
                x: self.r0.x,
                y: self.r1.x,
                z: self.r2.x,
                w: self.r3.x,
            },
            r1: Vec4d {
                x: self.r0.y,
                y: self.r1.y,
                z: self.r2.y,
                w: self.r3.y,
            },
            r2: Vec4d {
                x: self.r0.z,
                y: self.r1.z,
                z: self.r2.z,
                w: self.r3.z,
            },
            r3: Vec4d {
                x: self.r0.w,
                y: self.r1.w,
                z: self.r2.w,
                w: self.r3.w,
            },
        }
    }

    // The determinant of the first three rows and columns.
    pub fn determinant3(self) -> f64
        ensures { result ≡ determinant3 self }
    {
        self.r0.x * self.r1.y * self.r2.z
            + self.r0.y * self.r1.z * self.r2.x
            + self.r0.z * self.r1.x * self.r2.y
            - self.r0.x * self.r1.z * self.r2.y
            - self.r0.y * self.r1.x * self.r2.z
            - self.r0.z * self.r1.y * self.r2.x
    }

    pub fn is_right_handed(self) -> bool
        ensures { result ≡ right_handed self }
    {
        self.determinant3() > 0.0
    }

    pub fn extract_translation(self) -> Vec3d
        ensures { result ≡ translation self }
    {
        self.r3.first_three()
    }

    pub fn transform_dir(self, v: Vec3d) -> Vec3d
        ensures { result ≡ direction self v }
    {
        self.by_columns(|c: Vec4d| v.x * c.x + v.y * c.y + v.z * c.z)
            .first_three()
    }

    pub fn transform_affine(self, p: Vec3d) -> Vec3d
        ensures { result ≡ affine self p }
    {
        self.by_columns(|c: Vec4d| moved(p, c)).first_three()
    }

    // The last number goes first, since the others wait for its reciprocal.
    pub fn transform(self, p: Vec3d) -> Vec3d
        ensures { result ≡ transformed self p }
    {
        let w = moved(p, self.transpose().r3);
        self.transform_affine(p).scale(1.0 / divisor(w))
    }

    // In full, as a row of a product.
    pub fn transform_homogeneous(self, v: Vec4d) -> Vec4d
        ensures { result ≡ homogeneous self v }
    {
        Vec4d {
            x: v.x * self.r0.x + v.y * self.r1.x + v.z * self.r2.x + v.w * self.r3.x,
            y: v.x * self.r0.y + v.y * self.r1.y + v.z * self.r2.y + v.w * self.r3.y,
            z: v.x * self.r0.z + v.y * self.r1.z + v.z * self.r2.z + v.w * self.r3.z,
            w: v.x * self.r0.w + v.y * self.r1.w + v.z * self.r2.w + v.w * self.r3.w,
        }
    }

    // The first 16 numbers of a slice.
    pub fn load(s: &[f64]) -> Mat4d
        ensures { result ≡ matrix_of s.now }
    {
        Mat4d {
            r0: Vec4d::load_at(s, 0),
            r1: Vec4d::load_at(s, 4),
            r2: Vec4d::load_at(s, 8),
            r3: Vec4d::load_at(s, 12),
        }
    }

    // Its numbers, into a slice of 16.
    pub fn store(self, out: &mut [f64])
        ensures { out.new ≡ stored (entries self) out.old }
    {
        let all = [
            self.r0.x, self.r0.y, self.r0.z, self.r0.w, self.r1.x, self.r1.y, self.r1.z, self.r1.w,
            self.r2.x, self.r2.y, self.r2.z, self.r2.w, self.r3.x, self.r3.y, self.r3.z, self.r3.w,
        ];
        slice::store(&all, out);
    }
}

impl Default for Mat4d {
    ghost is_default = { λ m. m ≡ identity };

    fn default() -> Mat4d {
        Mat4d::IDENTITY
    }
}
