// Projections: the numbers of one, the matrix that is built from them, and the numbers recovered from a matrix.
ghost use Rattle.std.specs.Prelude.{◌≡◌, Bool};
ghost use Rattle.projection.specs.Projection.{kind_number, kind_of, numbers, params_loaded, two, width, height, depth, perspective, orthographic, projecting, around, perspective_of, orthographic_of, close, close_at, close_to, bounded, confirmed, recovered, recovered_from};
ghost use Rattle.matrix.specs.Constants.{positive_zero};
ghost use Rattle.matrix.specs.Matrix.{entries};
ghost use Rattle.number.specs.Arithmetic.{◌⊗◌, ◌⊘◌};
ghost use Rattle.number.specs.Every.{every_below};
ghost use Rattle.number.specs.Slice.{stored};

use matrix::matrix::Mat4d;
use matrix::vec::Vec4d;
use number::limits::MATRIX_LENGTH;
use number::order::{abs, is_finite, upper};
use number::slice;
use number::slice::at;

// Two numbers of a matrix are close where they differ by no more than this part of the larger size, or of 1 if neither is larger.
pub const TOLERANCE: f64 = 1e-6;

#[derive(Clone, Copy, Debug, PartialEq, Eq)]
pub enum Projection {
    Perspective,
    Orthographic,
}

// The edges of a window, which in perspective is 1 away from the eye, and how far away the volume begins and ends.
#[derive(Clone, Copy)]
pub struct ProjectionParams {
    pub projection: Projection,
    pub left: f64,
    pub right: f64,
    pub bottom: f64,
    pub top: f64,
    pub near: f64,
    pub far: f64,
}

// The number of a kind in a record.
impl From<Projection> for f64 {
    ghost from_gives = { λ p n. n ≡ kind_number p };

    fn from(projection: Projection) -> f64 {
        match projection {
            Projection::Perspective => 0.0,
            Projection::Orthographic => 1.0,
        }
    }
}

impl Projection {
    // The kind with a number, if there is one.
    fn from_number(kind: f64) -> Option<Projection>
        ensures { result ≡ kind_of kind }
    {
        if kind == 0.0 {
            return Some(Projection::Perspective);
        }
        if kind == 1.0 {
            return Some(Projection::Orthographic);
        }
        None
    }
}

// The window of a matrix that is taken for a projection: its width and height, and where its center is.
#[derive(Clone, Copy)]
struct Window {
    width: f64,
    height: f64,
    x: f64,
    y: f64,
}

impl Window {
    // That of a matrix, whose center is a part of it times the numbers of a row.
    #[inline(always)]
    fn of(m: Mat4d, part: f64, row: Vec4d) -> Window
        ensures { result ≡ record { width = two ⊘ m.r0.x; height = two ⊘ m.r1.y; x = part ⊗ (two ⊘ m.r0.x) ⊗ row.x; y = part ⊗ (two ⊘ m.r1.y) ⊗ row.y } }
    {
        let width = 2.0 / m.r0.x;
        let height = 2.0 / m.r1.y;
        Window {
            width,
            height,
            x: part * width * row.x,
            y: part * height * row.y,
        }
    }

    // The volume that it shows.
    #[inline(always)]
    fn volume(self, projection: Projection, near: f64, far: f64) -> ProjectionParams
        ensures { result ≡ around projection self.width self.height self.x self.y near far }
    {
        ProjectionParams {
            projection,
            left: self.x - 0.5 * self.width,
            right: self.x + 0.5 * self.width,
            bottom: self.y - 0.5 * self.height,
            top: self.y + 0.5 * self.height,
            near,
            far,
        }
    }
}

// The volume of a matrix that is taken for a perspective one.
fn perspective_of(m: Mat4d) -> ProjectionParams
    ensures { result ≡ perspective_of m }
{
    let window = Window::of(m, 0.5, m.r2);
    let near = m.r3.z / (m.r2.z - 1.0);
    let far = m.r3.z / (m.r2.z + 1.0);
    window.volume(Projection::Perspective, near, far)
}

// The volume of a matrix that is taken for an orthographic one.
fn orthographic_of(m: Mat4d) -> ProjectionParams
    ensures { result ≡ orthographic_of m }
{
    let window = Window::of(m, -0.5, m.r3);
    let half_depth = 1.0 / m.r2.z;
    let middle = half_depth * m.r3.z;
    window.volume(
        Projection::Orthographic,
        middle + half_depth,
        middle - half_depth,
    )
}

// Whether a number of a matrix is close to the one that is built. Nearly all are told by their difference alone: where that is at most the tolerance, both are
// finite, and their sizes do not matter.
fn close(given: f64, built: f64) -> bool
    ensures { result ≡ close given built }
{
    let off = abs(given - built);
    if off <= TOLERANCE {
        return true;
    }
    let size = upper(upper(1.0, abs(given)), abs(built));
    is_finite(given) & is_finite(built) & (off <= TOLERANCE * size)
}

// The same where a projection holds 0: no number above 1 is a millionth of its own size, so that its size is held to the millionth alone.
fn close_to_zero(given: f64) -> bool
    ensures { result ≡ close given positive_zero }
{
    abs(given) <= TOLERANCE
}

// Whether a volume, seen in perspective, gives a matrix back. What is 0 in what is built is known here and told by one comparison, so that each kind has its own.
fn gives_perspective(volume: ProjectionParams, matrix: Mat4d) -> bool
    ensures { result ≡ close_to matrix (perspective volume) }
{
    let built = volume.perspective();
    volume.has_window_of(matrix)
        & close(matrix.r2.x, built.r2.x)
        & close(matrix.r2.y, built.r2.y)
        & close(matrix.r2.z, built.r2.z)
        & close(matrix.r2.w, built.r2.w)
        & close_to_zero(matrix.r3.x)
        & close_to_zero(matrix.r3.y)
        & close(matrix.r3.z, built.r3.z)
        & close_to_zero(matrix.r3.w)
}

// The same of one that is seen along parallels.
fn gives_orthographic(volume: ProjectionParams, matrix: Mat4d) -> bool
    ensures { result ≡ close_to matrix (orthographic volume) }
{
    let built = volume.orthographic();
    volume.has_window_of(matrix)
        & close_to_zero(matrix.r2.x)
        & close_to_zero(matrix.r2.y)
        & close(matrix.r2.z, built.r2.z)
        & close_to_zero(matrix.r2.w)
        & close(matrix.r3.x, built.r3.x)
        & close(matrix.r3.y, built.r3.y)
        & close(matrix.r3.z, built.r3.z)
        & close(matrix.r3.w, built.r3.w)
}

// A volume of a matrix, if its numbers are finite and it gives the matrix back.
#[inline(always)]
fn confirmed<F: FnOnce(ProjectionParams, Mat4d) -> bool>(
    volume: ProjectionParams,
    matrix: Mat4d,
    gives: F,
) -> Option<ProjectionParams>
    requires { F.IsAlwaysCallable gives }
    ensures { ((b : Bool) → F.post gives volume matrix b → b ≡ close_to matrix (projecting volume)) → result ≡ confirmed volume matrix }
{
    if volume.bounded() & gives(volume, matrix) {
        return Some(volume);
    }
    None
}

impl ProjectionParams {
    pub fn width(self) -> f64
        ensures { result ≡ width self }
    {
        self.right - self.left
    }

    pub fn height(self) -> f64
        ensures { result ≡ height self }
    {
        self.top - self.bottom
    }

    fn depth(self) -> f64
        ensures { result ≡ depth self }
    {
        self.far - self.near
    }

    // The factors from its window to the square between -1 and 1.
    fn factor_across(self) -> f64
        ensures { result ≡ two ⊘ width self }
    {
        2.0 / self.width()
    }

    fn factor_up(self) -> f64
        ensures { result ≡ two ⊘ height self }
    {
        2.0 / self.height()
    }

    // Whether the first two rows of a matrix, which are those of a window, are close to its own.
    #[inline(always)]
    fn has_window_of(self, matrix: Mat4d) -> bool
        ensures { result ≡ every_below 8 (close_at (entries matrix) (entries (perspective self))) }
    {
        close(matrix.r0.x, self.factor_across())
            & close_to_zero(matrix.r0.y)
            & close_to_zero(matrix.r0.z)
            & close_to_zero(matrix.r0.w)
            & close_to_zero(matrix.r1.x)
            & close(matrix.r1.y, self.factor_up())
            & close_to_zero(matrix.r1.z)
            & close_to_zero(matrix.r1.w)
    }

    // A matrix of its window, whose last two rows are given.
    #[inline(always)]
    fn through_window(self, r2: Vec4d, r3: Vec4d) -> Mat4d
        ensures { result ≡ record { r0 = record { x = two ⊘ width self; y = positive_zero; z = positive_zero; w = positive_zero }; r1 = record { x = positive_zero; y = two ⊘ height self; z = positive_zero; w = positive_zero }; r2 = r2; r3 = r3 } }
    {
        Mat4d {
            r0: Vec4d {
                x: self.factor_across(),
                y: 0.0,
                z: 0.0,
                w: 0.0,
            },
            r1: Vec4d {
                x: 0.0,
                y: self.factor_up(),
                z: 0.0,
                w: 0.0,
            },
            r2,
            r3,
        }
    }

    // Its matrix in perspective.
    pub fn perspective(self) -> Mat4d
        ensures { result ≡ perspective self }
    {
        let depth = self.depth();
        let r2 = Vec4d {
            x: (self.right + self.left) / self.width(),
            y: (self.top + self.bottom) / self.height(),
            z: -(self.far + self.near) / depth,
            w: -1.0,
        };
        let r3 = Vec4d {
            x: 0.0,
            y: 0.0,
            z: -2.0 * self.near * self.far / depth,
            w: 0.0,
        };
        self.through_window(r2, r3)
    }

    // Its matrix along parallels.
    pub fn orthographic(self) -> Mat4d
        ensures { result ≡ orthographic self }
    {
        let depth = self.depth();
        let r2 = Vec4d {
            x: 0.0,
            y: 0.0,
            z: -2.0 / depth,
            w: 0.0,
        };
        let r3 = Vec4d {
            x: -(self.right + self.left) / self.width(),
            y: -(self.top + self.bottom) / self.height(),
            z: -(self.far + self.near) / depth,
            w: 1.0,
        };
        self.through_window(r2, r3)
    }

    // Its matrix, by its kind.
    pub fn matrix(self) -> Mat4d
        ensures { result ≡ projecting self }
    {
        match self.projection {
            Projection::Perspective => self.perspective(),
            Projection::Orthographic => self.orthographic(),
        }
    }

    // Whether its six numbers are finite.
    fn bounded(self) -> bool
        ensures { result ≡ bounded self }
    {
        let all = [
            self.left,
            self.right,
            self.bottom,
            self.top,
            self.near,
            self.far,
        ];
        slice::all_finite(&all)
    }

    // The volume of a matrix, by its kind, if the matrix can be built from it.
    pub fn from_matrix(matrix: Mat4d) -> Option<ProjectionParams>
        ensures { result ≡ recovered matrix }
    {
        if abs(matrix.r2.w + 1.0) < TOLERANCE {
            return confirmed(perspective_of(matrix), matrix, gives_perspective);
        }
        if abs(matrix.r2.w) < TOLERANCE {
            return confirmed(orthographic_of(matrix), matrix, gives_orthographic);
        }
        None
    }

    // The same of the matrix in a slice; a slice of another length holds none. A matrix that is passed by value is copied, which takes a quarter of
    // the time.
    pub fn from_record(m: &[f64]) -> Option<ProjectionParams>
        ensures { result ≡ recovered_from m.now }
    {
        if m.len() != MATRIX_LENGTH {
            return None;
        }
        ProjectionParams::from_matrix(Mat4d::load(m))
    }

    // The first seven numbers of a slice.
    pub fn load(s: &[f64]) -> Option<ProjectionParams>
        ensures { result ≡ params_loaded s.now }
    {
        let projection = Projection::from_number(at(s, 0))?;
        Some(ProjectionParams {
            projection,
            left: at(s, 1),
            right: at(s, 2),
            bottom: at(s, 3),
            top: at(s, 4),
            near: at(s, 5),
            far: at(s, 6),
        })
    }

    // Its numbers, into a slice of seven.
    pub fn store(self, out: &mut [f64])
        ensures { out.new ≡ stored (numbers self) out.old }
    {
        let all = [
            f64::from(self.projection),
            self.left,
            self.right,
            self.bottom,
            self.top,
            self.near,
            self.far,
        ];
        slice::store(&all, out);
    }
}
