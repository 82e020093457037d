// Three whole numbers by axis. Floats have a type of their own: nothing here rounds, and what is proved of one is not of the other.
ghost use Rattle.std.specs.Prelude.{◌≡◌, ◌≤◌, nat_abs};
ghost use Rattle.number.specs.Limits.{normal_limit};
ghost use Rattle.whole.specs.Plane.{dotℤ};
ghost use Rattle.exact.specs.Vertex.{minor, cross};
ghost use Rattle.exact.specs.Steps.{vec_of, vec, Sized, Products};

#[derive(Clone, Copy)]
pub struct Vec3<T> {
    pub x: T,
    pub y: T,
    pub z: T,
}

// A determinant of two rows, of entries of normals.
fn minor(a: i64, b: i64, c: i64, d: i64) -> i64
    requires { (nat_abs a ≤ normal_limit) × (nat_abs b ≤ normal_limit) × (nat_abs c ≤ normal_limit) × (nat_abs d ≤ normal_limit) }
    ensures { result ≡ minor a b c d }
{
    a * d - b * c
}

impl Vec3<i64> {
    pub(crate) fn dot(self, other: Vec3<i64>) -> i64
        requires { Products self other }
        ensures { result ≡ dotℤ (vec_of self) (vec_of other) }
    {
        self.x * other.x + self.y * other.y + self.z * other.z
    }

    // Of two normals.
    pub(crate) fn cross(self, other: Vec3<i64>) -> Vec3<i64>
        requires { Sized normal_limit self × Sized normal_limit other }
        ensures { result ≡ vec (cross (vec_of self) (vec_of other)) }
    {
        Vec3 {
            x: minor(self.y, self.z, other.y, other.z),
            y: minor(self.z, self.x, other.z, other.x),
            z: minor(self.x, self.y, other.x, other.y),
        }
    }
}
