// The operations on projections.
ghost use Rattle.std.specs.Prelude.{◌≡◌};
ghost use Rattle.number.specs.Answer.{answered};
ghost use Rattle.projection.specs.ProjectionCalls.{projection_call, recovery_call};

use number::answer::status;

#[unsafe(no_mangle)]
pub extern "C" fn gf_projection_matrix(params: &[f64], out: &mut [f64]) -> u32
    ensures { answered result out.new ≡ projection_call params.now out.old }
{
    status(projection::projection_calls::matrix(params, out))
}

#[unsafe(no_mangle)]
pub extern "C" fn gf_projection_from_matrix(m: &[f64], out: &mut [f64]) -> u32
    ensures { answered result out.new ≡ recovery_call m.now out.old }
{
    status(projection::projection_calls::from_matrix(m, out))
}
