// Planes and exact points: on which side of a plane a point lies, and the point where three planes meet.
ghost use Rattle.std.specs.Prelude.{◌≡◌, true, ◌≤◌, pos, nat_abs};
ghost use Rattle.std.specs.Int.Signed.{le_z};
ghost use Rattle.whole.specs.SegmentCall.{plane_within};
ghost use Rattle.exact.specs.Vertex.{signed_by};
ghost use Rattle.exact.specs.Steps.{vec_of, vec, plane_of, gap_at, vertex_of, Only, Sized, largest_coordinate, largest_determinant, SmallPoint};

use crate::vec::Vec3;

// The points whose dot product with the normal is at least the distance. That its numbers are within the limits is asked where it matters: the definitions make a plane
// of any numbers.
#[derive(Clone, Copy)]
pub struct Plane {
    pub normal: Vec3<i64>,
    pub distance: i64,
}

// Three numbers over k, which is at least 1.
#[derive(Clone, Copy)]
pub struct Point {
    pub numbers: Vec3<i64>,
    pub k: i64,
}

impl Plane {
    // Whether a point satisfies the plane.
    pub(crate) fn holds(self, p: Point) -> bool
        requires { (plane_within (plane_of self) ≡ true) × SmallPoint p }
        ensures { result ≡ le_z (pos 0) (gap_at (plane_of self) p) }
    {
        let normal = self.normal;
        let numbers = p.numbers;
        let reach = normal.dot(numbers);
        0 <= reach - p.k * self.distance
    }
}

// The point that is over k, by the size of k; a k of 0 is no point's.
fn over(numbers: Vec3<i64>, k: i64) -> Option<Point>
    requires { Sized largest_coordinate numbers × (nat_abs k ≤ largest_determinant) }
    ensures { Only (record { numbers = vec (λ j. signed_by k (vec_of numbers j)); k = pos (nat_abs k) }) result }
{
    if k == 0 {
        return None;
    }
    if k < 0 {
        let turned = Vec3 {
            x: -numbers.x,
            y: -numbers.y,
            z: -numbers.z,
        };
        return Some(Point {
            numbers: turned,
            k: -k,
        });
    }
    Some(Point { numbers, k })
}

// The point where three planes meet, by Cramer's rule.
pub(crate) fn vertex(a: Plane, b: Plane, c: Plane) -> Option<Point>
    requires { (plane_within (plane_of a) ≡ true) × (plane_within (plane_of b) ≡ true) × (plane_within (plane_of c) ≡ true) }
    ensures { Only (vertex_of (plane_of a) (plane_of b) (plane_of c)) result }
{
    let first = a.normal;
    let second = b.normal;
    let third = c.normal;
    let bc = second.cross(third);
    let ca = third.cross(first);
    let ab = first.cross(second);
    let k = third.dot(ab);
    let distances = Vec3 {
        x: a.distance,
        y: b.distance,
        z: c.distance,
    };
    let along_x = Vec3 {
        x: bc.x,
        y: ca.x,
        z: ab.x,
    };
    let along_y = Vec3 {
        x: bc.y,
        y: ca.y,
        z: ab.y,
    };
    let along_z = Vec3 {
        x: bc.z,
        y: ca.z,
        z: ab.z,
    };
    let numbers = Vec3 {
        x: along_x.dot(distances),
        y: along_y.dot(distances),
        z: along_z.dot(distances),
    };
    over(numbers, k)
}
