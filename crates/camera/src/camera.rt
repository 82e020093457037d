// Cameras, and how one follows from the matrices of a view and of a projection.
ghost use Rattle.std.specs.Prelude.{◌≡◌};
ghost use Rattle.number.specs.Slice.{all_finite, stored};
ghost use Rattle.matrix.specs.Inverse.{inverse};
ghost use Rattle.matrix.specs.Matrix.{matrix_of};
ghost use Rattle.projection.specs.Projection.{recovered_from};
ghost use Rattle.camera.specs.Camera.{numbers, to_aperture, camera_of, opened};

use matrix::matrix::Mat4d;
use number::answer::Refusal;
use number::format::{narrow, widen};
use number::limits::CAMERA_LENGTH;
use number::slice;
use projection::projection::{Projection, ProjectionParams};

// The transform is the inverse of the view, and so places the camera. Near and far count the world's unit. The other five numbers are
// lengths in the camera and count tenths of that unit.
#[derive(Clone, Copy)]
pub struct Camera {
    pub transform: Mat4d,
    pub projection: Projection,
    pub focal_length: f32,
    pub horizontal_aperture: f32,
    pub vertical_aperture: f32,
    pub horizontal_aperture_offset: f32,
    pub vertical_aperture_offset: f32,
    pub near: f32,
    pub far: f32,
}

// The factor from a length of the window to one of the aperture: the focal length in perspective, since the window is 1 away from the
// eye, and along parallels the change of the unit alone.
fn to_aperture(projection: Projection, focal_length: f32) -> f64
    ensures { result ≡ to_aperture projection focal_length }
{
    match projection {
        Projection::Perspective => widen(focal_length) * Camera::FOCAL_LENGTH_UNIT
            / Camera::APERTURE_UNIT,
        Projection::Orthographic => 1.0 / Camera::APERTURE_UNIT,
    }
}

impl Camera {
    // How long an aperture of 1 is in the world.
    pub const APERTURE_UNIT: f64 = 0.1;

    // How long a focal length of 1 is there.
    pub const FOCAL_LENGTH_UNIT: f64 = 0.1;

    // The camera that stands by a transform and sees a volume.
    fn seeing(transform: Mat4d, params: ProjectionParams, focal_length: f32) -> Camera
        ensures { result ≡ camera_of transform params focal_length }
    {
        let projection = params.projection;
        let scale = to_aperture(projection, focal_length);
        Camera {
            transform,
            projection,
            focal_length,
            horizontal_aperture: narrow(params.width() * scale),
            vertical_aperture: narrow(params.height() * scale),
            horizontal_aperture_offset: narrow(0.5 * (params.right + params.left) * scale),
            vertical_aperture_offset: narrow(0.5 * (params.top + params.bottom) * scale),
            near: narrow(params.near),
            far: narrow(params.far),
        }
    }

    // Its numbers, in the order of its record. Each stands once: from the arrays of its parts they would be copied a second time.
    fn numbers(self) -> [f64; CAMERA_LENGTH]
        ensures { result ≡ numbers self }
    {
        let m = self.transform;
        [
            m.r0.x,
            m.r0.y,
            m.r0.z,
            m.r0.w,
            m.r1.x,
            m.r1.y,
            m.r1.z,
            m.r1.w,
            m.r2.x,
            m.r2.y,
            m.r2.z,
            m.r2.w,
            m.r3.x,
            m.r3.y,
            m.r3.z,
            m.r3.w,
            f64::from(self.projection),
            widen(self.focal_length),
            widen(self.horizontal_aperture),
            widen(self.vertical_aperture),
            widen(self.horizontal_aperture_offset),
            widen(self.vertical_aperture_offset),
            widen(self.near),
            widen(self.far),
        ]
    }

    // Whether all of them are finite.
    fn is_finite(self) -> bool
        ensures { result ≡ all_finite (numbers self) }
    {
        let all = self.numbers();
        slice::all_finite(&all)
    }

    // The camera of what the inverse of a view and the recovery of a projection came to.
    fn opened(
        inverted: Option<Mat4d>,
        recovered: Option<ProjectionParams>,
        focal_length: f32,
    ) -> Result<Camera, Refusal>
        ensures { result ≡ opened inverted recovered focal_length }
    {
        let transform = inverted.ok_or(Refusal::Singular)?;
        let params = recovered.ok_or(Refusal::NotAProjection)?;
        let camera = Camera::seeing(transform, params, focal_length);
        if !camera.is_finite() {
            return Err(Refusal::NotFinite);
        }
        Ok(camera)
    }

    // The camera of a view and a projection, matrices that are read where they are lent. A lens of twice the focal length with apertures
    // twice as large has the same projection, so that the focal length has to be told besides.
    #[tactic(auto, using(matrix::proofs::Composed::inverse_from, matrix::proofs::Literals::singular_bits), unfolding(matrix::specs::Inverse::adjugate))]
    pub fn set_from_view_and_projection(
        view: &[f64],
        projection: &[f64],
        focal_length: f32,
    ) -> Result<Camera, Refusal>
        ensures { result ≡ opened (inverse (matrix_of view.now)) (recovered_from projection.now) focal_length }
    {
        let recovered = ProjectionParams::from_record(projection);
        Camera::opened(Mat4d::load(view).inverse(), recovered, focal_length)
    }

    // Its numbers, into a slice of 24.
    pub fn store(self, out: &mut [f64])
        ensures { out.new ≡ stored (numbers self) out.old }
    {
        let all = self.numbers();
        slice::store(&all, out);
    }
}
