// The constraints of a box and a view, read as they are lent, and points that satisfy them.
ghost use Rattle.std.specs.Prelude.{◌≡◌, true, false, cond, ◌+◌, ◌-◌, ◌<◌, ◌≤◌, pos, ◌*ℤ◌};
ghost use Rattle.std.specs.Int.Signed.{lt_z};
ghost use Rattle.number.specs.Limits.{normal_limit};
ghost use Rattle.whole.specs.SegmentCall.{plane_at};
ghost use Rattle.exact.specs.BBoxCall.{low_corner};
ghost use Rattle.exact.specs.Steps.{vec_of, vec, plane, axis_direction, faces, face_at, constraint_at, farthest, whole_point, Sized, SmallPoint, Seen};

use crate::plane::{Plane, Point};
use crate::scene::Scene;
use crate::vec::Vec3;
use whole::view::view_length;

// How many faces a box has.
pub(crate) const FACES: u32 = 6;

// So long along an axis.
fn axis(i: u32, length: i64) -> Vec3<i64>
    requires { i < 3 }
    ensures { result ≡ vec (λ j. length *ℤ axis_direction i j) }
{
    match i {
        0 => Vec3 {
            x: length,
            y: 0,
            z: 0,
        },
        1 => Vec3 {
            x: 0,
            y: length,
            z: 0,
        },
        _ => Vec3 {
            x: 0,
            y: 0,
            z: length,
        },
    }
}

// The least coordinate under a normal's entry below 0, and the greatest elsewhere.
fn pick(entry: i64, least: i32, greatest: i32) -> i64
    ensures { result ≡ cond (lt_z entry (pos 0)) least greatest }
{
    let picked = if entry < 0 { least } else { greatest };
    i64::from(picked)
}

impl<'a> Scene<'a> {
    // How many there are.
    pub(crate) fn constraints(&self) -> u32
        ensures { result ≡ faces + self.now.view.count }
    {
        FACES + self.view.count
    }

    // A face of the box: the first three are at its least coordinates, the others at its greatest.
    fn face(&self, i: u32) -> Plane
        requires { i < faces }
        ensures { result ≡ plane (face_at self.now.bounds.now i) }
    {
        let at = i64::from(self.bounds[i as usize]);
        if i < 3 {
            return Plane {
                normal: axis(i, 1),
                distance: at,
            };
        }
        Plane {
            normal: axis(i - 3, -1),
            distance: -at,
        }
    }

    // A plane of the view.
    fn plane(&self, i: u32) -> Plane
        requires { i < self.now.view.count }
        ensures { result ≡ plane (plane_at self.now.view.numbers.now i) }
    {
        let from = view_length(i);
        let numbers = self.view.numbers;
        let normal = Vec3 {
            x: i64::from(numbers[from]),
            y: i64::from(numbers[from + 1]),
            z: i64::from(numbers[from + 2]),
        };
        Plane {
            normal,
            distance: i64::from(numbers[from + 3]),
        }
    }

    pub(crate) fn constraint(&self, i: u32) -> Plane
        requires { i < faces + self.now.view.count }
        ensures { result ≡ plane (constraint_at self.now.view.numbers.now self.now.bounds.now i) }
    {
        if i < FACES {
            return self.face(i);
        }
        self.plane(i - FACES)
    }

    // The least corner of the box.
    pub(crate) fn least_corner(&self) -> Point
        ensures { result ≡ whole_point (low_corner self.now.bounds.now) }
    {
        let [x, y, z, _, _, _] = *self.bounds;
        Point {
            numbers: Vec3 {
                x: i64::from(x),
                y: i64::from(y),
                z: i64::from(z),
            },
            k: 1,
        }
    }

    // The corner of the box that is farthest along a normal.
    pub(crate) fn farthest(&self, normal: Vec3<i64>) -> Point
        requires { Sized normal_limit normal }
        ensures { result ≡ whole_point (farthest self.now.bounds.now (vec_of normal)) }
    {
        let [x, y, z, to_x, to_y, to_z] = *self.bounds;
        Point {
            numbers: Vec3 {
                x: pick(normal.x, x, to_x),
                y: pick(normal.y, y, to_y),
                z: pick(normal.z, z, to_z),
            },
            k: 1,
        }
    }

    // Whether a point satisfies the first n constraints.
    pub(crate) fn in_view(&self, n: u32, p: Point) -> bool
        requires { (n ≤ faces + self.now.view.count) × SmallPoint p }
        ensures { let seen = Seen self.now.view.numbers.now self.now.bounds.now n p in (result ≡ true → seen) × (result ≡ false → ¬ seen) }
    {
        for i in 0..n {
            let c = self.constraint(i);
            if !c.holds(p) {
                return false;
            }
        }
        true
    }
}
