// Records of so many numbers each in lent slices, and what an operation does that reads some and writes one.
ghost use Rattle.std.specs.Prelude.{◌≡◌, ℕ, List, length, ◌&&◌, Float, refl, Ok, Err};
ghost use Rattle.number.specs.Answer.{has, unless, reply, writing};
ghost use Rattle.number.specs.Limits.{point_length, homogeneous_length, range_length, matrix_length};
ghost use Rattle.number.specs.Slice.{stored};
ghost use Rattle.matrix.specs.Vec.{vec3_of, vec4_of, coordinates, coordinates4};
ghost use Rattle.matrix.specs.Matrix.{matrix_of, entries};
ghost use Rattle.matrix.specs.Range.{range_of, bounds};

use crate::matrix::Mat4d;
use crate::range::Range3d;
use crate::vec::{Vec3d, Vec4d};
use number::answer::Refusal;
use number::limits::{HOMOGENEOUS_LENGTH, MATRIX_LENGTH, POINT_LENGTH, RANGE_LENGTH};

// What is held by a fixed count of numbers.
pub trait Record: Copy {
    ghost LENGTH: { ℕ };

    ghost read: { List Float → Self };

    ghost numbers: { Self → List Float };

    const LENGTH: usize;

    fn load(s: &[f64]) -> Self
        ensures { result ≡ read s.now };

    fn store(self, out: &mut [f64])
        ensures { out.new ≡ stored (numbers self) out.old };

    ghost count: { (x : Self) → length (numbers x) ≡ LENGTH };
}

impl Record for Vec3d {
    ghost LENGTH = { point_length };

    ghost read = { vec3_of };

    ghost numbers = { coordinates };

    const LENGTH: usize = POINT_LENGTH;

    ghost count = { λ x. refl };

    fn load(s: &[f64]) -> Vec3d {
        Vec3d::load(s)
    }

    fn store(self, out: &mut [f64]) {
        Vec3d::store(self, out);
    }
}

impl Record for Vec4d {
    ghost LENGTH = { homogeneous_length };

    ghost read = { vec4_of };

    ghost numbers = { coordinates4 };

    const LENGTH: usize = HOMOGENEOUS_LENGTH;

    ghost count = { λ x. refl };

    fn load(s: &[f64]) -> Vec4d {
        Vec4d::load(s)
    }

    fn store(self, out: &mut [f64]) {
        Vec4d::store(self, out);
    }
}

impl Record for Mat4d {
    ghost LENGTH = { matrix_length };

    ghost read = { matrix_of };

    ghost numbers = { entries };

    const LENGTH: usize = MATRIX_LENGTH;

    ghost count = { λ x. refl };

    fn load(s: &[f64]) -> Mat4d {
        Mat4d::load(s)
    }

    fn store(self, out: &mut [f64]) {
        Mat4d::store(self, out);
    }
}

impl Record for Range3d {
    ghost LENGTH = { range_length };

    ghost read = { range_of };

    ghost numbers = { bounds };

    const LENGTH: usize = RANGE_LENGTH;

    ghost count = { λ x. refl };

    fn load(s: &[f64]) -> Range3d {
        Range3d::load(s)
    }

    fn store(self, out: &mut [f64]) {
        Range3d::store(self, out);
    }
}

// The record in a slice of its length.
#[inline(always)]
pub fn given<A: Record>(s: &[f64]) -> Result<A, Refusal>
    ensures { result ≡ unless (has A.LENGTH s.now) (Err Refusal.InputLength) (Ok (A.read s.now)) }
{
    if s.len() == A::LENGTH {
        Ok(A::load(s))
    } else {
        Err(Refusal::InputLength)
    }
}

// The same where there is room for a result, a slice of the length of its record. Nothing is read before all lengths are looked at: so the compiler takes the tests
// at once.
#[inline(always)]
pub fn lent_one<A: Record, R: Record>(a: &[f64], room: &[f64]) -> Result<A, Refusal>
    ensures { result ≡ unless (has A.LENGTH a.now) (Err Refusal.InputLength) (unless (has R.LENGTH room.now) (Err Refusal.OutputLength) (Ok (A.read a.now))) }
{
    if a.len() != A::LENGTH {
        return Err(Refusal::InputLength);
    }
    if room.len() != R::LENGTH {
        return Err(Refusal::OutputLength);
    }
    Ok(A::load(a))
}

// The same of two.
#[inline(always)]
pub fn lent_two<A: Record, B: Record, R: Record>(
    a: &[f64],
    b: &[f64],
    room: &[f64],
) -> Result<(A, B), Refusal>
    ensures { result ≡ unless (has A.LENGTH a.now && has B.LENGTH b.now) (Err Refusal.InputLength) (unless (has R.LENGTH room.now) (Err Refusal.OutputLength) (Ok (A.read a.now, B.read b.now))) }
{
    if a.len() != A::LENGTH {
        return Err(Refusal::InputLength);
    }
    let second = lent_one::<B, R>(b, room)?;
    Ok((A::load(a), second))
}

// What is made of one record, into a slice of its length, by the same tests.
#[inline(always)]
pub(crate) fn of_one<A: Record, R: Record, F: FnOnce(A) -> R>(
    a: &[f64],
    out: &mut [f64],
    make: F,
) -> Result<(), Refusal>
    requires { F.IsAlwaysCallable make }
    ensures { (made : A → R) → ((x : A) (r : R) → F.post make x r → r ≡ made x) → reply result out.new ≡ writing (has A.LENGTH a.now) R.LENGTH (R.numbers (made (A.read a.now))) out.old }
{
    if a.len() != A::LENGTH {
        return Err(Refusal::InputLength);
    }
    if out.len() != R::LENGTH {
        return Err(Refusal::OutputLength);
    }
    make(A::load(a)).store(out);
    Ok(())
}

// The same of two.
#[inline(always)]
pub(crate) fn of_two<A: Record, B: Record, R: Record, F: FnOnce(A, B) -> R>(
    a: &[f64],
    b: &[f64],
    out: &mut [f64],
    make: F,
) -> Result<(), Refusal>
    requires { F.IsAlwaysCallable make }
    ensures { (made : A → B → R) → ((x : A) (y : B) (r : R) → F.post make x y r → r ≡ made x y) → reply result out.new ≡ writing (has A.LENGTH a.now && has B.LENGTH b.now) R.LENGTH (R.numbers (made (A.read a.now) (B.read b.now))) out.old }
{
    if a.len() != A::LENGTH {
        return Err(Refusal::InputLength);
    }
    if b.len() != B::LENGTH {
        return Err(Refusal::InputLength);
    }
    if out.len() != R::LENGTH {
        return Err(Refusal::OutputLength);
    }
    make(A::load(a), B::load(b)).store(out);
    Ok(())
}
