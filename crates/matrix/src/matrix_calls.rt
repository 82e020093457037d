// The operations on matrices, over lent slices.
ghost use Rattle.std.specs.Prelude.{◌≡◌};
ghost use Rattle.number.specs.Answer.{reply, outcome_of};
ghost use Rattle.matrix.specs.MatrixCalls.{product_call, transpose_call, inverse_call, transform_call, affine_call, homogeneous_call, direction_call, determinant_call, right_handed_call};

use crate::matrix::Mat4d;
use crate::record::{given, of_one, of_two};
use number::answer::Refusal;
use number::limits::MATRIX_LENGTH;

// The product of two matrices.
pub fn product(a: &[f64], b: &[f64], out: &mut [f64]) -> Result<(), Refusal>
    ensures { reply result out.new ≡ product_call a.now b.now out.old }
{
    of_two(a, b, out, Mat4d::product)
}

// The transpose of a matrix.
pub fn transpose(m: &[f64], out: &mut [f64]) -> Result<(), Refusal>
    ensures { reply result out.new ≡ transpose_call m.now out.old }
{
    of_one(m, out, Mat4d::transpose)
}

// The inverse of a matrix. It is refused as singular where its determinant is not larger than 1e-12 in size.
pub fn inverse(m: &[f64], out: &mut [f64]) -> Result<(), Refusal>
    ensures { reply result out.new ≡ inverse_call m.now out.old }
{
    let matrix: Mat4d = given(m)?;
    if out.len() != MATRIX_LENGTH {
        return Err(Refusal::OutputLength);
    }
    matrix.inverse().ok_or(Refusal::Singular)?.store(out);
    Ok(())
}

// A point through a matrix, divided by its last number.
pub fn transform(m: &[f64], p: &[f64], out: &mut [f64]) -> Result<(), Refusal>
    ensures { reply result out.new ≡ transform_call m.now p.now out.old }
{
    of_two(m, p, out, Mat4d::transform)
}

// A point through a matrix whose last column is ignored.
pub fn transform_affine(m: &[f64], p: &[f64], out: &mut [f64]) -> Result<(), Refusal>
    ensures { reply result out.new ≡ affine_call m.now p.now out.old }
{
    of_two(m, p, out, Mat4d::transform_affine)
}

// A homogeneous point through a matrix.
pub fn transform_homogeneous(m: &[f64], v: &[f64], out: &mut [f64]) -> Result<(), Refusal>
    ensures { reply result out.new ≡ homogeneous_call m.now v.now out.old }
{
    of_two(m, v, out, Mat4d::transform_homogeneous)
}

// A direction through a matrix.
pub fn transform_dir(m: &[f64], v: &[f64], out: &mut [f64]) -> Result<(), Refusal>
    ensures { reply result out.new ≡ direction_call m.now v.now out.old }
{
    of_two(m, v, out, Mat4d::transform_dir)
}

// The determinant of the first three rows and columns.
#[tactic(auto, unfolding(crate::specs::MatrixCalls::determinant_call, number::specs::Answer::answering))]
pub fn determinant3(m: &[f64]) -> Result<f64, Refusal>
    ensures { outcome_of result ≡ determinant_call m.now }
{
    Ok(given::<Mat4d>(m)?.determinant3())
}

// Whether that determinant is above 0, so that nothing is mirrored.
pub fn is_right_handed(m: &[f64]) -> Result<bool, Refusal>
    ensures { outcome_of result ≡ right_handed_call m.now }
{
    Ok(given::<Mat4d>(m)?.is_right_handed())
}
