// A view as it is lent: how many planes it has, the planes, which have it on their positive sides, then rays along its edges. What
// knows its layout is here.
ghost use Rattle.std.specs.Prelude.{◌≡◌, ◌<◌, ◌≤◌, length, IfOk, IfErr};
ghost use Rattle.number.specs.Limits.{fewest_planes, most_planes};
ghost use Rattle.number.specs.Answer.{outcome, outcome_of, refused, number_of};
ghost use Rattle.verdict.specs.View.{ray_count, plane_start, ray_start, volume_length, plane_count_of, planes_held, plane_at, ray_at};
ghost use Rattle.verdict.specs.FrustumCalls.{planes_checked};
ghost use Rattle.verdict.specs.Steps.Passes.{all_planes};

use crate::plane::Plane;
use crate::ray::Ray;
use crate::record::vec3_at;
use matrix::vec::Vec3d;
use number::answer::Refusal;
use number::limits::{FEWEST_PLANES, MOST_PLANES};
use number::slice::at;

// A bit for each of the original planes.
pub(crate) const ORIGINAL_PLANES: u64 = (1 << FEWEST_PLANES) - 1;

// The near plane, which the far one follows.
pub(crate) const NEAR_PLANE: u32 = 4;

pub(crate) const RAY_COUNT: u32 = 4;

// Where plane i begins, behind the count: a plane is four numbers.
pub fn plane_start(i: u32) -> usize
    ensures { result ≡ plane_start i }
{
    1 + i as usize * 4
}

// Where ray i begins, behind the last plane: a ray is six numbers.
fn ray_start(count: u32, i: u32) -> usize
    ensures { result ≡ ray_start count i }
{
    plane_start(count) + i as usize * 6
}

// How many numbers a record of so many planes has.
pub fn volume_length(count: u32) -> usize
    ensures { result ≡ volume_length count }
{
    ray_start(count, RAY_COUNT)
}

// How many planes the number in front says there are: a whole one from the fewest to the most.
pub fn plane_count_of(x: f64) -> Result<u32, Refusal>
    ensures { outcome_of result ≡ plane_count_of x }
{
    if !(FEWEST_PLANES as f64 <= x) {
        return Err(Refusal::PlaneCount);
    }
    if !(x <= MOST_PLANES as f64) {
        return Err(Refusal::PlaneCount);
    }
    let count = std::num::truncating_f64_to_u64(x) as u32;
    if x != count as f64 {
        return Err(Refusal::PlaneCount);
    }
    Ok(count)
}

// How many planes a record holds, by its count and its length. The fewest are asked for first, since most records hold these.
pub fn planes_held(volume: &[f64]) -> Result<u32, Refusal>
    ensures { outcome_of result ≡ planes_held volume.now }
{
    if volume.len() < volume_length(FEWEST_PLANES) {
        return Err(Refusal::InputLength);
    }
    let first = volume[0];
    if first == FEWEST_PLANES as f64 {
        if volume.len() != volume_length(FEWEST_PLANES) {
            return Err(Refusal::InputLength);
        }
        return Ok(FEWEST_PLANES);
    }
    let count = plane_count_of(first)?;
    if volume.len() != volume_length(count) {
        return Err(Refusal::InputLength);
    }
    Ok(count)
}

// What a call is lent beside a volume, tested: room for the answer, the flags of boxes, and every number. What it is not lent passes.
#[derive(Clone, Copy)]
pub struct Lent {
    pub room: bool,
    pub flags: bool,
    pub finite: bool,
}

impl Lent {
    pub const NOTHING: Lent = Lent {
        room: true,
        flags: true,
        finite: true,
    };
}

// How many planes a volume holds, once all that is lent passes, for what reads the numbers of a record by this count and asks for no plane.
pub fn checked(volume: &[f64], room: bool, flags: bool, finite: bool) -> Result<u32, Refusal>
    ensures { outcome_of result ≡ planes_checked volume.now room flags finite }
{
    let view = View::checked(
        volume,
        Lent {
            room,
            flags,
            finite,
        },
    )?;
    Ok(view.planes.count)
}

// A bit for each of so many planes.
pub(crate) fn all_planes(count: u32) -> u64
    requires { count ≤ most_planes }
    ensures { result ≡ all_planes count }
{
    (1 << count) - 1
}

// The first planes of a record, as many as are counted.
#[derive(Clone, Copy)]
pub struct Planes<'a> {
    pub numbers: &'a [f64],
    pub count: u32,
    pub ghost most: { count ≤ most_planes },
    pub ghost long: { plane_start count ≤ length numbers.now },
}

impl<'a> Planes<'a> {
    // The plane at a place. Behind those that are counted it is what the record has there, with a NaN for each number past its end.
    #[inline(always)]
    pub fn plane(self, i: u32) -> Plane
        ensures { result ≡ plane_at self.entry.numbers.now i }
    {
        let from = plane_start(i);
        if i < self.count {
            return Plane {
                normal: vec3_at(self.numbers, from),
                distance: self.numbers[from + 3],
            };
        }
        Plane {
            normal: Vec3d {
                x: at(self.numbers, from),
                y: at(self.numbers, from + 1),
                z: at(self.numbers, from + 2),
            },
            distance: at(self.numbers, from + 3),
        }
    }
}

// A record of so many planes, the original ones at least, and of the rays.
#[derive(Clone, Copy)]
pub struct View<'a> {
    pub planes: Planes<'a>,
    pub ghost fewest: { fewest_planes ≤ planes.count },
    pub ghost whole: { length planes.numbers.now ≡ volume_length planes.count },
}

impl<'a> View<'a> {
    // What a volume holds, by its count and its length.
    pub fn held(volume: &'a [f64]) -> Result<View<'a>, Refusal>
        ensures held { IfOk result (λ v. (v.planes.numbers.now ≡ volume.now) × (outcome v.planes.count ≡ planes_held volume.now)) }
        ensures refused { IfErr result (λ e. refused (number_of e) ≡ planes_held volume.now) }
    {
        let count = planes_held(volume)?;
        Ok(View {
            planes: Planes {
                numbers: volume,
                count,
            },
        })
    }

    // The same once all that is lent passes: its count and its length, then room, flags, and every number, its own and those beside it.
    pub fn checked(volume: &'a [f64], lent: Lent) -> Result<View<'a>, Refusal>
        ensures held { IfOk result (λ v. (v.planes.numbers.now ≡ volume.now) × (outcome v.planes.count ≡ planes_checked volume.now lent.room lent.flags lent.finite)) }
        ensures refused { IfErr result (λ e. refused (number_of e) ≡ planes_checked volume.now lent.room lent.flags lent.finite) }
    {
        let view = View::held(volume)?;
        if !lent.room {
            return Err(Refusal::OutputLength);
        }
        if !lent.flags {
            return Err(Refusal::Kind);
        }
        if !(view.all_numbers_finite() & lent.finite) {
            return Err(Refusal::MissingNumber);
        }
        Ok(view)
    }

    // The original planes alone.
    #[inline(always)]
    pub(crate) fn original(self) -> Planes<'a>
        ensures { (result.numbers.now ≡ self.entry.planes.numbers.now) × (result.count ≡ fewest_planes) }
    {
        Planes {
            numbers: self.planes.numbers,
            count: FEWEST_PLANES,
        }
    }

    #[inline(always)]
    pub(crate) fn ray(self, i: u32) -> Ray
        requires { i < ray_count }
        ensures { result ≡ ray_at self.entry.planes.numbers.now self.entry.planes.count i }
    {
        let from = ray_start(self.planes.count, i);
        Ray {
            start: vec3_at(self.planes.numbers, from),
            direction: vec3_at(self.planes.numbers, from + 3),
        }
    }
}
