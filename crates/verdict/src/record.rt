// Vectors read from a record, at places that it has. Two functions, since each is the list of its vector's own fields: one for both would need a trait with an impl for each.
ghost use Rattle.std.specs.Prelude.{◌≡◌, ◌+◌, ◌<◌, length};
ghost use Rattle.number.specs.Slice.{at};
ghost use Rattle.matrix.specs.Vec.{vec3, vec4};

use matrix::vec::{Vec3d, Vec4d};

pub(crate) fn vec3_at(s: &[f64], from: usize) -> Vec3d
    requires { from + 2 < length s.now }
    ensures { result ≡ vec3 (λ i. at s.now (from + i)) }
{
    Vec3d {
        x: s[from],
        y: s[from + 1],
        z: s[from + 2],
    }
}

pub(crate) fn vec4_at(s: &[f64], from: usize) -> Vec4d
    requires { from + 3 < length s.now }
    ensures { result ≡ vec4 (λ i. at s.now (from + i)) }
{
    Vec4d {
        x: s[from],
        y: s[from + 1],
        z: s[from + 2],
        w: s[from + 3],
    }
}
