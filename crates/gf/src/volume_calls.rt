// Volumes from matrices.
ghost use Rattle.std.specs.Prelude.{◌≡◌};
ghost use Rattle.number.specs.Answer.{answered};
ghost use Rattle.volume.specs.Volume.{from_matrices_call};

use number::answer::status;

#[unsafe(no_mangle)]
pub extern "C" fn gf_volume_from_view_and_projection(
    view: &[f64],
    projection: &[f64],
    out: &mut [f64],
) -> u32
    ensures { answered result out.new ≡ from_matrices_call view.now projection.now out.old }
{
    status(volume::volume::from_view_and_projection(view, projection, out))
}
