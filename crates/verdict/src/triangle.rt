// Whether a triangle is in view.
ghost use Rattle.std.specs.Prelude.{◌≡◌, ◌≤◌, take, if◌then◌else◌};
ghost use Rattle.verdict.specs.Ray.{triangle_hit};
ghost use Rattle.verdict.specs.View.{ray_count, planes_of, rays_of};
ghost use Rattle.verdict.specs.Steps.Passes.{near_and_far_in};
ghost use Rattle.verdict.specs.Frustum.{is_hit, some_hit, triangle_in_view};

use crate::gathered::Segment;
use crate::ray::Ray;
use crate::view::{NEAR_PLANE, ORIGINAL_PLANES, RAY_COUNT, View};
use matrix::vec::Vec3d;

// How many rays are tried, by the planes that have all three points on their positive side: one where the near and the far plane do.
fn sight_lines(sides: u64) -> u32
    ensures { (result ≡ (if near_and_far_in sides then 1 else ray_count)) × (result ≤ ray_count) }
{
    if (sides >> NEAR_PLANE) % 4 == 3 {
        return 1;
    }
    RAY_COUNT
}

fn meets(ray: Ray, p0: Vec3d, p1: Vec3d, p2: Vec3d) -> bool
    ensures { result ≡ is_hit (triangle_hit ray p0 p1 p2) }
{
    ray.intersect_triangle(p0, p1, p2).is_ok()
}

impl<'a> View<'a> {
    // Whether one of the first rays meets a triangle.
    fn line_meets(self, lines: u32, p0: Vec3d, p1: Vec3d, p2: Vec3d) -> bool
        requires { lines ≤ ray_count }
        ensures { result ≡ some_hit (take lines (rays_of self.entry.planes.numbers.now self.entry.planes.count)) p0 p1 p2 }
    {
        (0..lines).any(|i| meets(self.ray(i), p0, p1, p2))
    }

    // Whether a triangle is in view, by the original planes: a corner is, or some of a side, or one of the record's rays meets it.
    pub(crate) fn holds_some_triangle(self, p0: Vec3d, p1: Vec3d, p2: Vec3d) -> bool
        ensures { result ≡ triangle_in_view (planes_of self.entry.planes.numbers.now self.entry.planes.count) (rays_of self.entry.planes.numbers.now self.entry.planes.count) p0 p1 p2 }
    {
        let planes = self.original();
        let end0 = planes.end(p0);
        let end1 = planes.end(p1);
        let end2 = planes.end(p2);
        if end0.sides | end1.sides | end2.sides != ORIGINAL_PLANES {
            return false;
        }
        if (end0.sides == ORIGINAL_PLANES)
            | (end1.sides == ORIGINAL_PLANES)
            | (end2.sides == ORIGINAL_PLANES)
        {
            return true;
        }
        let side0 = Segment {
            planes,
            a: end0,
            b: end1,
        };
        if side0.crosses_view() {
            return true;
        }
        let side1 = Segment {
            planes,
            a: end1,
            b: end2,
        };
        if side1.crosses_view() {
            return true;
        }
        let side2 = Segment {
            planes,
            a: end2,
            b: end0,
        };
        if side2.crosses_view() {
            return true;
        }
        self.line_meets(
            sight_lines(end0.sides & end1.sides & end2.sides),
            p0,
            p1,
            p2,
        )
    }
}
