// The operations on projections, cameras and view volumes. The focal length is recorded as the number that it is widened to.
use camera::camera_calls::set_from_view_and_projection;
use number::answer::Refusal;
use number::format::narrow;
use number::slice::at;
use projection::projection_calls;
use replay::inputs::Inputs;
use volume::volume::from_view_and_projection;

#[derive(Clone, Copy)]
pub(crate) enum CameraOperation {
    Projection,
    Recovery,
    Camera,
    Volume,
}

impl From<u8> for CameraOperation {
    fn from(number: u8) -> CameraOperation {
        match number {
            1 => CameraOperation::Projection,
            2 => CameraOperation::Recovery,
            3 => CameraOperation::Camera,
            _ => CameraOperation::Volume,
        }
    }
}

impl CameraOperation {
    pub(crate) fn call(self, inputs: Inputs<'_>, out: &mut [f64]) -> Result<(), Refusal> {
        let Inputs { a, b, c, .. } = inputs;
        match self {
            CameraOperation::Projection => projection_calls::matrix(a, out),
            CameraOperation::Recovery => projection_calls::from_matrix(a, out),
            CameraOperation::Camera => set_from_view_and_projection(a, b, narrow(at(c, 0)), out),
            CameraOperation::Volume => from_view_and_projection(a, b, out),
        }
    }
}
