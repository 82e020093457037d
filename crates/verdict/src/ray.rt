// Rays, and where they meet planes and triangles.
ghost use Rattle.std.specs.Prelude.{◌≡◌, ℕ, List, length, Float, refl};
ghost use Rattle.verdict.specs.Ray.{numbers, ray_of, point_at, transformed, plane_hit, plane_numbers, triangle_numbers, faced, projected, settled, beta_of, alpha_of, gamma_of, triangle_of, meeting_of, hit_of, triangle_hit};
ghost use Rattle.number.specs.Slice.{stored};
ghost use Rattle.number.specs.Limits.{ray_length};

use crate::plane::Plane;
use matrix::matrix::Mat4d;
use matrix::record::Record;
use matrix::vec::{MIN_VECTOR_LENGTH, Vec3d};
use number::answer::Refusal;
use number::format::{narrow, widen};
use number::limits::{HIT_LENGTH, PLANE_HIT_LENGTH, RAY_LENGTH};
use number::order::abs;
use number::slice;

// Distances along it count directions, which may be of any length.
#[derive(Clone, Copy)]
pub struct Ray {
    pub start: Vec3d,
    pub direction: Vec3d,
}

// A ray's hit on a plane: the distance, and whether on the front, which is the positive side.
#[derive(Clone, Copy)]
pub struct PlaneHit {
    pub distance: f64,
    pub front: bool,
}

// A ray's hit on a triangle: the distance, the weights of the first, second and third point, and whether on the front, from which
// the points go round against the clock.
#[derive(Clone, Copy)]
pub struct TriangleHit {
    pub distance: f64,
    pub gamma: f64,
    pub alpha: f64,
    pub beta: f64,
    pub front: bool,
}

// The numbers of a ray that meets a triangle's plane, and whether they are those of a hit; zeros where it misses the plane. It is no Option: what would be a branch
// is a number here, so that the numbers of several rays are on their way at a time.
#[derive(Clone, Copy)]
pub struct Meeting {
    pub numbers: TriangleHit,
    pub hit: bool,
}

impl Meeting {
    const NONE: Meeting = Meeting {
        numbers: TriangleHit {
            distance: 0.0,
            gamma: 0.0,
            alpha: 0.0,
            beta: 0.0,
            front: false,
        },
        hit: false,
    };
}

impl PlaneHit {
    // The distance, and 1 for the front or 0 for the back.
    #[tactic(auto, using(crate::proofs::Flags::front_number))]
    pub(crate) fn record(self) -> [f64; PLANE_HIT_LENGTH]
        ensures { result ≡ plane_numbers self }
    {
        [self.distance, f64::from(self.front)]
    }
}

impl TriangleHit {
    // The distance, the weights of the three points, and 1 for the front or 0 for the back.
    #[tactic(auto, using(crate::proofs::Flags::front_number))]
    pub fn record(self) -> [f64; HIT_LENGTH]
        ensures { result ≡ triangle_numbers self }
    {
        [
            self.distance,
            self.gamma,
            self.alpha,
            self.beta,
            f64::from(self.front),
        ]
    }
}

// The axis along which a normal is longest.
#[derive(Clone, Copy)]
enum Axis {
    X,
    Y,
    Z,
}

// What is left of a vector that is projected along an axis.
#[derive(Clone, Copy)]
struct Flat {
    u: f64,
    v: f64,
}

// What the hits of a triangle share, so that many rays have it from one: its plane, its first point, the axis that the plane faces, and the second
// and the third point from the first, projected along it.
#[derive(Clone, Copy)]
pub struct Triangle {
    plane: Plane,
    first: Vec3d,
    axis: Axis,
    second: Flat,
    third: Flat,
}

#[tactic(auto, unfolding(crate::specs::Ray::faced))]
fn faced(normal: Vec3d) -> Axis
    ensures { result ≡ faced normal }
{
    let x = abs(normal.x);
    let y = abs(normal.y);
    let z = abs(normal.z);
    if x > y && x > z {
        return Axis::X;
    }
    if y > z {
        return Axis::Y;
    }
    Axis::Z
}

fn projected(axis: Axis, v: Vec3d) -> Flat
    ensures { result ≡ projected axis v }
{
    match axis {
        Axis::X => Flat { u: v.y, v: v.z },
        Axis::Y => Flat { u: v.z, v: v.x },
        Axis::Z => Flat { u: v.x, v: v.y },
    }
}

// 0 for a weight strictly between −1e-10 and 0, and every other as it is.
#[tactic(auto, using(matrix::proofs::Literals::zero_bits, matrix::proofs::Literals::min_length_bits), unfolding(crate::specs::Ray::settled))]
fn settled(weight: f64) -> f64
    ensures { result ≡ settled weight }
{
    if weight < 0.0 && weight > -MIN_VECTOR_LENGTH {
        return 0.0;
    }
    weight
}

// The weight of the first point, rounded through f32.
#[tactic(auto, using(matrix::proofs::Literals::one_bits), unfolding(crate::specs::Ray::gamma_of))]
fn gamma(alpha: f64, beta: f64) -> f64
    ensures { result ≡ gamma_of alpha beta }
{
    settled(widen(narrow(1.0 - (alpha + beta))))
}

impl Triangle {
    pub fn new(p0: Vec3d, p1: Vec3d, p2: Vec3d) -> Triangle
        ensures { result ≡ triangle_of p0 p1 p2 }
    {
        let plane = Plane::from_points(p0, p1, p2);
        let axis = faced(plane.normal);
        Triangle {
            plane,
            first: p0,
            axis,
            second: projected(axis, p1.sub(p0)),
            third: projected(axis, p2.sub(p0)),
        }
    }

    // The weight of the third point, of a point met that is seen from the first and projected.
    #[tactic(auto, unfolding(crate::specs::Ray::beta_of))]
    fn beta(self, met: Flat) -> f64
        ensures { result ≡ beta_of met self.second self.third }
    {
        let second = self.second;
        let third = self.third;
        settled((met.v * second.u - met.u * second.v) / (third.v * second.u - third.u * second.v))
    }

    // The weight of the second point, by that of the third.
    #[tactic(auto, using(matrix::proofs::Literals::min_length_bits), unfolding(crate::specs::Ray::alpha_of))]
    fn alpha(self, met: Flat, beta: f64) -> f64
        ensures { result ≡ alpha_of met self.second self.third beta }
    {
        let second = self.second;
        let third = self.third;
        if abs(second.v) > MIN_VECTOR_LENGTH {
            return settled((met.v - beta * third.v) / second.v);
        }
        settled((met.u - beta * third.u) / second.u)
    }

    // Where a ray meets it: each weight is looked at as soon as it is there.
    fn hit_by(self, ray: Ray) -> Result<TriangleHit, Refusal>
        ensures { result ≡ hit_of ray self }
    {
        let Some(PlaneHit { distance, front }) = ray.intersect_plane(self.plane) else {
            return Err(Refusal::Miss);
        };
        let met = projected(self.axis, ray.point(distance).sub(self.first));
        let beta = self.beta(met);
        if !(beta >= 0.0) {
            return Err(Refusal::Miss);
        }
        if !(beta <= 1.0) {
            return Err(Refusal::Miss);
        }
        let alpha = self.alpha(met, beta);
        let gamma = gamma(alpha, beta);
        if alpha < 0.0 {
            return Err(Refusal::Miss);
        }
        if gamma < 0.0 {
            return Err(Refusal::Miss);
        }
        Ok(TriangleHit {
            distance,
            gamma,
            alpha,
            beta,
            front,
        })
    }

    // The same with all weights before any is looked at.
    #[tactic(auto, using(matrix::proofs::Literals::zero_bits, matrix::proofs::Literals::one_bits), unfolding(crate::specs::Ray::meeting_of, crate::specs::Ray::weighed))]
    pub fn met_by(self, ray: Ray) -> Meeting
        ensures { result ≡ meeting_of ray self }
    {
        let Some(PlaneHit { distance, front }) = ray.intersect_plane(self.plane) else {
            return Meeting::NONE;
        };
        let met = projected(self.axis, ray.point(distance).sub(self.first));
        let beta = self.beta(met);
        let alpha = self.alpha(met, beta);
        let gamma = gamma(alpha, beta);
        Meeting {
            numbers: TriangleHit {
                distance,
                gamma,
                alpha,
                beta,
                front,
            },
            hit: (beta >= 0.0) & (beta <= 1.0) & !(alpha < 0.0) & !(gamma < 0.0),
        }
    }
}

impl Ray {
    // The start plus so many directions.
    pub fn point(self, distance: f64) -> Vec3d
        ensures { result ≡ point_at self distance }
    {
        self.start.add(self.direction.scale(distance))
    }

    pub fn transformed(self, matrix: Mat4d) -> Ray
        ensures { result ≡ transformed matrix self }
    {
        Ray {
            start: matrix.transform(self.start),
            direction: matrix.transform_dir(self.direction),
        }
    }

    #[tactic(auto, using(matrix::proofs::Literals::zero_bits, matrix::proofs::Literals::min_length_bits), unfolding(crate::specs::Ray::plane_hit))]
    pub fn intersect_plane(self, plane: Plane) -> Option<PlaneHit>
        ensures { result ≡ plane_hit self plane }
    {
        let facing = self.direction.dot(plane.normal);
        if abs(facing) < MIN_VECTOR_LENGTH {
            return None;
        }
        let on_plane = plane.normal.scale(plane.distance);
        let distance = on_plane.sub(self.start).dot(plane.normal) / facing;
        (distance >= 0.0).then_some(PlaneHit {
            distance,
            front: facing < 0.0,
        })
    }

    #[tactic(auto, unfolding(crate::specs::Ray::triangle_hit))]
    pub fn intersect_triangle(self, p0: Vec3d, p1: Vec3d, p2: Vec3d) -> Result<TriangleHit, Refusal>
        ensures { result ≡ triangle_hit self p0 p1 p2 }
    {
        Triangle::new(p0, p1, p2).hit_by(self)
    }

    // The first six numbers of a slice.
    pub fn load(s: &[f64]) -> Ray
        ensures { result ≡ ray_of s.now }
    {
        Ray {
            start: Vec3d::load(s),
            direction: Vec3d::load_at(s, 3),
        }
    }

    pub fn numbers(self) -> [f64; RAY_LENGTH]
        ensures { result ≡ numbers self }
    {
        let start = self.start;
        let direction = self.direction;
        [
            start.x,
            start.y,
            start.z,
            direction.x,
            direction.y,
            direction.z,
        ]
    }

    // Its numbers, into a slice of six.
    pub fn store(self, out: &mut [f64])
        ensures { out.new ≡ stored (numbers self) out.old }
    {
        slice::store(&self.numbers(), out);
    }
}

impl Record for Ray {
    ghost LENGTH = { ray_length };

    ghost read = { ray_of };

    ghost numbers = { numbers };

    const LENGTH: usize = RAY_LENGTH;

    ghost count = { λ x. refl };

    fn load(s: &[f64]) -> Ray {
        Ray::load(s)
    }

    fn store(self, out: &mut [f64]) {
        Ray::store(self, out);
    }
}
