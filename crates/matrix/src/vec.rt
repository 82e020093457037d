// Row vectors of three numbers, and of four where a point is homogeneous.
ghost use Rattle.std.specs.Prelude.{◌≡◌, ◌+◌};
ghost use Rattle.matrix.specs.Vec.{sum, difference, multiple, multiple4, dot, cross, length_of, unit, normalized, least, greatest, vec3, vec4, vec3_of, vec4_of, axis4, coordinates, coordinates4};
ghost use Rattle.matrix.specs.Steps.{Numbers, NumbersAlong, no_negative_zeros, VecValues};
ghost use Rattle.number.specs.Arithmetic.{min_of, max_of};
ghost use Rattle.number.specs.Slice.{at, stored};

use number::format::to_bits;
use number::root::sqrt;
use number::slice::at;
use number::{order, slice};

// A shorter vector is normalized as if it had this length.
pub const MIN_VECTOR_LENGTH: f64 = 1e-10;

// Of three numbers and of four there is a type each, with its own reading, storing and scaling: x, y, z and w say more than the places of an array would, and
// there are no other lengths.
#[derive(Clone, Copy)]
pub struct Vec3d {
    pub x: f64,
    pub y: f64,
    pub z: f64,
}

#[derive(Clone, Copy)]
pub struct Vec4d {
    pub x: f64,
    pub y: f64,
    pub z: f64,
    pub w: f64,
}

// The smaller and the larger of two numbers that are no NaNs, without a branch: chosen in either order they differ between two zeros alone, whose sign "or" makes
// negative where either is, and "and" positive.
fn lesser(x: f64, y: f64) -> f64
    requires { Numbers x y }
    ensures { result ≡ min_of x y }
{
    f64::from_bits(f64::to_bits(order::lower(x, y)) | f64::to_bits(order::lower(y, x)))
}

fn greater(x: f64, y: f64) -> f64
    requires { Numbers x y }
    ensures { result ≡ max_of x y }
{
    f64::from_bits(f64::to_bits(order::upper(x, y)) & f64::to_bits(order::upper(y, x)))
}

impl Vec3d {
    // What is made of the two numbers along each axis.
    #[inline(always)]
    fn along<F: Fn(f64, f64) -> f64>(self, other: Vec3d, number: F) -> Vec3d
        requires { F.pre number self.x other.x × F.pre number self.y other.y × F.pre number self.z other.z }
        ensures { F.post number self.x other.x result.x × F.post number self.y other.y result.y × F.post number self.z other.z result.z }
    {
        Vec3d {
            x: number(self.x, other.x),
            y: number(self.y, other.y),
            z: number(self.z, other.z),
        }
    }

    pub fn add(self, other: Vec3d) -> Vec3d
        ensures { result ≡ sum self other }
    {
        self.along(other, |x, y| x + y)
    }

    pub fn sub(self, other: Vec3d) -> Vec3d
        ensures { result ≡ difference self other }
    {
        self.along(other, |x, y| x - y)
    }

    pub fn scale(self, factor: f64) -> Vec3d
        ensures { result ≡ multiple self factor }
    {
        Vec3d {
            x: self.x * factor,
            y: self.y * factor,
            z: self.z * factor,
        }
    }

    pub fn dot(self, other: Vec3d) -> f64
        ensures { result ≡ dot self other }
    {
        self.x * other.x + self.y * other.y + self.z * other.z
    }

    pub fn cross(self, other: Vec3d) -> Vec3d
        ensures { result ≡ cross self other }
    {
        Vec3d {
            x: self.y * other.z - self.z * other.y,
            y: self.z * other.x - self.x * other.z,
            z: self.x * other.y - self.y * other.x,
        }
    }

    // The smaller number along each axis.
    pub fn min(self, other: Vec3d) -> Vec3d
        ensures { result ≡ least self other }
    {
        self.along(other, order::min)
    }

    // The larger number along each axis.
    pub fn max(self, other: Vec3d) -> Vec3d
        ensures { result ≡ greatest self other }
    {
        self.along(other, order::max)
    }

    // The same of vectors without a NaN. That is asked at each call and held by no type, since one test tells it of the four corners of two ranges at once.
    pub(crate) fn lesser(self, other: Vec3d) -> Vec3d
        requires { NumbersAlong self other }
        ensures { result ≡ least self other }
    {
        self.along(other, lesser)
    }

    pub(crate) fn greater(self, other: Vec3d) -> Vec3d
        requires { NumbersAlong self other }
        ensures { result ≡ greatest self other }
    {
        self.along(other, greater)
    }

    // Whether none of its numbers is -0.
    pub(crate) fn has_no_negative_zero(self) -> bool
        ensures { (result ≡ no_negative_zeros self) × VecValues self }
    {
        (to_bits(self.x) != 0x8000_0000_0000_0000)
            & (to_bits(self.y) != 0x8000_0000_0000_0000)
            & (to_bits(self.z) != 0x8000_0000_0000_0000)
    }

    pub fn length(self) -> f64
        ensures { result ≡ length_of self }
    {
        sqrt(self.dot(self))
    }

    // Scaled to length 1, by the length that it has.
    pub fn unit(self, length: f64) -> Vec3d
        ensures { result ≡ unit self length }
    {
        self.scale(1.0 / order::max(length, MIN_VECTOR_LENGTH))
    }

    pub fn normalize(self) -> Vec3d
        ensures { result ≡ normalized self }
    {
        self.unit(self.length())
    }

    // Three numbers of a slice, the first of them at a place. That is a u32, so that no place after it is past a usize.
    pub fn load_at(s: &[f64], from: u32) -> Vec3d
        ensures { result ≡ vec3 (λ i. at s.now (from + i)) }
    {
        let i = from as usize;
        Vec3d {
            x: at(s, i),
            y: at(s, i + 1),
            z: at(s, i + 2),
        }
    }

    // The first three numbers of a slice.
    pub fn load(s: &[f64]) -> Vec3d
        ensures { result ≡ vec3_of s.now }
    {
        Vec3d::load_at(s, 0)
    }

    // Its numbers, into a slice of three.
    pub fn store(self, out: &mut [f64])
        ensures { out.new ≡ stored (coordinates self) out.old }
    {
        slice::store(&[self.x, self.y, self.z], out);
    }
}

impl Vec4d {
    pub fn scale(self, factor: f64) -> Vec4d
        ensures { result ≡ multiple4 self factor }
    {
        Vec4d {
            x: self.x * factor,
            y: self.y * factor,
            z: self.z * factor,
            w: self.w * factor,
        }
    }

    // The first three of its numbers.
    pub(crate) fn first_three(self) -> Vec3d
        ensures { result ≡ vec3 (axis4 self) }
    {
        Vec3d {
            x: self.x,
            y: self.y,
            z: self.z,
        }
    }

    // Four numbers of a slice, the first of them at a place.
    pub fn load_at(s: &[f64], from: u32) -> Vec4d
        ensures { result ≡ vec4 (λ i. at s.now (from + i)) }
    {
        let i = from as usize;
        Vec4d {
            x: at(s, i),
            y: at(s, i + 1),
            z: at(s, i + 2),
            w: at(s, i + 3),
        }
    }

    // The first four numbers of a slice.
    pub fn load(s: &[f64]) -> Vec4d
        ensures { result ≡ vec4_of s.now }
    {
        Vec4d::load_at(s, 0)
    }

    // Its numbers, into a slice of four.
    pub fn store(self, out: &mut [f64])
        ensures { out.new ≡ stored (coordinates4 self) out.old }
    {
        slice::store(&[self.x, self.y, self.z, self.w], out);
    }
}
