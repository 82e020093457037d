// The inverse of a matrix by its cofactors.
ghost use Rattle.std.specs.Prelude.{◌≡◌, cond};
ghost use Rattle.matrix.specs.Vec.{axis, vec4, dot4};
ghost use Rattle.matrix.specs.Matrix.{entry};
ghost use Rattle.matrix.specs.Inverse.{three_rows, expanded, column_cofactor, cofactors, adjugate, scaled, over, inverse_above, has_inverse, inverse};

use crate::matrix::Mat4d;
use crate::vec::{Vec3d, Vec4d};
use number::order::abs;

// The size of a determinant up to which a matrix counts as singular.
pub const SINGULAR_DETERMINANT: f64 = 1e-12;

// The determinant of three rows of three, expanded down its first column and added from left to right; with every sign turned, if that is asked. This is not the
// other's opposite bit for bit: a sum that comes to 0 is +0 either way.
#[inline(always)]
fn expanded(turned: bool, a: Vec3d, b: Vec3d, c: Vec3d) -> f64
    ensures { result ≡ expanded turned (three_rows a b c) }
{
    if turned {
        return -a.x * b.y * c.z + a.x * b.z * c.y + b.x * a.y * c.z
            - b.x * a.z * c.y
            - c.x * a.y * b.z
            + c.x * a.z * b.y;
    }
    a.x * b.y * c.z - a.x * b.z * c.y - b.x * a.y * c.z + b.x * a.z * c.y + c.x * a.y * b.z
        - c.x * a.z * b.y
}

impl Mat4d {
    // The cofactors of a column, by what the rows hold of the other three. Their signs take turns, from minus on in a column with an odd number.
    #[inline(always)]
    fn cofactors<F: Fn(Vec4d) -> Vec3d>(self, odd: bool, others: F) -> Vec4d
        requires { F.IsAlwaysCallable others }
        ensures { (rest : Vec4d → Vec3d) → ((v : Vec4d) (r : Vec3d) → F.post others v r → r ≡ rest v) → result ≡ vec4 (column_cofactor (cond odd 1 0) (λ r c. axis (rest (vec4 (entry self r))) c)) }
    {
        let r0 = others(self.r0);
        let r1 = others(self.r1);
        let r2 = others(self.r2);
        let r3 = others(self.r3);
        Vec4d {
            x: expanded(odd, r1, r2, r3),
            y: expanded(!odd, r0, r2, r3),
            z: expanded(odd, r0, r1, r3),
            w: expanded(!odd, r0, r1, r2),
        }
    }

    // The cofactors of each column, which are the rows of the adjugate.
    #[inline(always)]
    fn adjugate(self) -> Mat4d
        ensures { result ≡ adjugate self }
    {
        Mat4d {
            r0: self.cofactors(
                false,
                |r: Vec4d| Vec3d {
                    x: r.y,
                    y: r.z,
                    z: r.w,
                },
            ),
            r1: self.cofactors(
                true,
                |r: Vec4d| Vec3d {
                    x: r.x,
                    y: r.z,
                    z: r.w,
                },
            ),
            r2: self.cofactors(
                false,
                |r: Vec4d| Vec3d {
                    x: r.x,
                    y: r.y,
                    z: r.w,
                },
            ),
            r3: self.cofactors(
                true,
                |r: Vec4d| Vec3d {
                    x: r.x,
                    y: r.y,
                    z: r.z,
                },
            ),
        }
    }

    // The cofactors of a column each, which are a row of the adjugate.
    pub fn cofactors0(self) -> Vec4d
        ensures { result ≡ cofactors self 0 }
    {
        self.adjugate().r0
    }

    pub fn cofactors1(self) -> Vec4d
        ensures { result ≡ cofactors self 1 }
    {
        self.adjugate().r1
    }

    pub fn cofactors2(self) -> Vec4d
        ensures { result ≡ cofactors self 2 }
    {
        self.adjugate().r2
    }

    pub fn cofactors3(self) -> Vec4d
        ensures { result ≡ cofactors self 3 }
    {
        self.adjugate().r3
    }

    // The determinant: the first row times its cofactors, which are the first column of the adjugate.
    pub fn determinant_by(self, adjugate: Mat4d) -> f64
        ensures { result ≡ dot4 (entry self 0) (λ i. entry adjugate i 0) }
    {
        self.r0.x * adjugate.r0.x
            + self.r0.y * adjugate.r1.x
            + self.r0.z * adjugate.r2.x
            + self.r0.w * adjugate.r3.x
    }

    fn scaled(self, factor: f64) -> Mat4d
        ensures { result ≡ scaled self factor }
    {
        Mat4d {
            r0: self.r0.scale(factor),
            r1: self.r1.scale(factor),
            r2: self.r2.scale(factor),
            r3: self.r3.scale(factor),
        }
    }

    // An adjugate over its determinant, where that is larger than epsilon in size. The NaN has a test of its own, since
    // the one in `abs` then goes.
    #[inline(always)]
    pub fn over(self, det: f64, epsilon: f64) -> Option<Mat4d>
        ensures { result ≡ over epsilon det self }
    {
        if det.is_nan() {
            return None;
        }
        if abs(det) > epsilon {
            return Some(self.scaled(1.0 / det));
        }
        None
    }

    // The inverse where the determinant is larger than epsilon in size. Each place that calls it has its body, since matrices would go to it through memory.
    #[inline(always)]
    pub fn inverse_above(self, epsilon: f64) -> Option<Mat4d>
        ensures { result ≡ inverse_above epsilon self }
    {
        let adjugate = self.adjugate();
        let det = self.determinant_by(adjugate);
        adjugate.over(det, epsilon)
    }

    // Whether there is one, of which the determinant alone is computed.
    pub fn has_inverse_above(self, epsilon: f64) -> bool
        ensures { result ≡ has_inverse (inverse_above epsilon self) }
    {
        let det = self.determinant_by(self.adjugate());
        if det.is_nan() {
            return false;
        }
        abs(det) > epsilon
    }

    #[inline(always)]
    pub fn inverse(self) -> Option<Mat4d>
        ensures { result ≡ inverse self }
    {
        self.inverse_above(SINGULAR_DETERMINANT)
    }
}
