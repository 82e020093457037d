// Projections built and recovered, over lent slices. Each has its own tests: a projection's record may name no kind, so that it is no `Record`.
ghost use Rattle.std.specs.Prelude.{◌≡◌};
ghost use Rattle.number.specs.Answer.{reply};
ghost use Rattle.projection.specs.ProjectionCalls.{projection_call, recovery_call};

use crate::projection::ProjectionParams;
use number::answer::Refusal;
use number::limits::{MATRIX_LENGTH, PROJECTION_LENGTH};

// The matrix of a projection. It is refused where the first number names no kind.
pub fn matrix(params: &[f64], out: &mut [f64]) -> Result<(), Refusal>
    ensures { reply result out.new ≡ projection_call params.now out.old }
{
    if params.len() != PROJECTION_LENGTH {
        return Err(Refusal::InputLength);
    }
    if out.len() != MATRIX_LENGTH {
        return Err(Refusal::OutputLength);
    }
    let volume = ProjectionParams::load(params).ok_or(Refusal::Kind)?;
    volume.matrix().store(out);
    Ok(())
}

// The projection of a matrix. It is refused where the matrix is none.
pub fn from_matrix(m: &[f64], out: &mut [f64]) -> Result<(), Refusal>
    ensures { reply result out.new ≡ recovery_call m.now out.old }
{
    if m.len() != MATRIX_LENGTH {
        return Err(Refusal::InputLength);
    }
    if out.len() != PROJECTION_LENGTH {
        return Err(Refusal::OutputLength);
    }
    let volume = ProjectionParams::from_record(m).ok_or(Refusal::NotAProjection)?;
    volume.store(out);
    Ok(())
}
