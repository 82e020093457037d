// The operations on cameras.
ghost use Rattle.std.specs.Prelude.{◌≡◌};
ghost use Rattle.number.specs.Answer.{answered};
ghost use Rattle.camera.specs.Camera.{camera_call};

use number::answer::status;

#[unsafe(no_mangle)]
pub extern "C" fn gf_camera_set_from_view_and_projection(
    view: &[f64],
    projection: &[f64],
    focal_length: f32,
    out: &mut [f64],
) -> u32
    ensures { answered result out.new ≡ camera_call view.now projection.now focal_length out.old }
{
    status(camera::camera_calls::set_from_view_and_projection(view, projection, focal_length, out))
}
