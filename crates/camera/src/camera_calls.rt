// A camera from two matrices, over lent slices.
ghost use Rattle.std.specs.Prelude.{◌≡◌};
ghost use Rattle.number.specs.Answer.{reply};
ghost use Rattle.camera.specs.Camera.{camera_call};

use crate::camera::Camera;
use number::answer::Refusal;
use number::limits::{CAMERA_LENGTH, MATRIX_LENGTH};

// The camera of a view and a projection. A refused one leaves the previous record.
pub fn set_from_view_and_projection(
    view: &[f64],
    projection: &[f64],
    focal_length: f32,
    out: &mut [f64],
) -> Result<(), Refusal>
    ensures { reply result out.new ≡ camera_call view.now projection.now focal_length out.old }
{
    if view.len() != MATRIX_LENGTH {
        return Err(Refusal::InputLength);
    }
    if projection.len() != MATRIX_LENGTH {
        return Err(Refusal::InputLength);
    }
    if out.len() != CAMERA_LENGTH {
        return Err(Refusal::OutputLength);
    }
    let camera = Camera::set_from_view_and_projection(view, projection, focal_length)?;
    camera.store(out);
    Ok(())
}
