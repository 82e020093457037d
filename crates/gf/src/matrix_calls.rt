// The operations on matrices.
ghost use Rattle.std.specs.Prelude.{◌≡◌};
ghost use Rattle.number.specs.Answer.{answered, lone, put, put_verdict};
ghost use Rattle.matrix.specs.MatrixCalls.{product_call, transpose_call, inverse_call, transform_call, affine_call, direction_call, homogeneous_call, determinant_call, right_handed_call};

use number::answer::{put, put_verdict, status};

#[unsafe(no_mangle)]
pub extern "C" fn gf_product(a: &[f64], b: &[f64], out: &mut [f64]) -> u32
    ensures { answered result out.new ≡ product_call a.now b.now out.old }
{
    status(matrix::matrix_calls::product(a, b, out))
}

#[unsafe(no_mangle)]
pub extern "C" fn gf_transpose(m: &[f64], out: &mut [f64]) -> u32
    ensures { answered result out.new ≡ transpose_call m.now out.old }
{
    status(matrix::matrix_calls::transpose(m, out))
}

#[unsafe(no_mangle)]
pub extern "C" fn gf_inverse(m: &[f64], out: &mut [f64]) -> u32
    ensures { answered result out.new ≡ inverse_call m.now out.old }
{
    status(matrix::matrix_calls::inverse(m, out))
}

#[unsafe(no_mangle)]
pub extern "C" fn gf_transform(m: &[f64], p: &[f64], out: &mut [f64]) -> u32
    ensures { answered result out.new ≡ transform_call m.now p.now out.old }
{
    status(matrix::matrix_calls::transform(m, p, out))
}

#[unsafe(no_mangle)]
pub extern "C" fn gf_transform_affine(m: &[f64], p: &[f64], out: &mut [f64]) -> u32
    ensures { answered result out.new ≡ affine_call m.now p.now out.old }
{
    status(matrix::matrix_calls::transform_affine(m, p, out))
}

#[unsafe(no_mangle)]
pub extern "C" fn gf_transform_dir(m: &[f64], p: &[f64], out: &mut [f64]) -> u32
    ensures { answered result out.new ≡ direction_call m.now p.now out.old }
{
    status(matrix::matrix_calls::transform_dir(m, p, out))
}

#[unsafe(no_mangle)]
pub extern "C" fn gf_transform_homogeneous(m: &[f64], v: &[f64], out: &mut [f64]) -> u32
    ensures { answered result out.new ≡ homogeneous_call m.now v.now out.old }
{
    status(matrix::matrix_calls::transform_homogeneous(m, v, out))
}

#[unsafe(no_mangle)]
pub extern "C" fn gf_determinant3(m: &[f64], out: &mut f64) -> u32
    ensures { lone result out.new ≡ put (determinant_call m.now) out.old }
{
    put(matrix::matrix_calls::determinant3(m), out)
}

#[unsafe(no_mangle)]
pub extern "C" fn gf_is_right_handed(m: &[f64], out: &mut u32) -> u32
    ensures { lone result out.new ≡ put_verdict (right_handed_call m.now) out.old }
{
    put_verdict(matrix::matrix_calls::is_right_handed(m), out)
}
