// A view in whole numbers, as it is lent: how many planes it has, then the planes. It is no view of the floats' crates: it has other numbers, other limits and no rays.
ghost use Rattle.std.specs.Prelude.{◌≡◌, true, ◌+◌, ◌<◌, ◌≤◌, ◌≢◌, length, MatchResult};
ghost use Rattle.number.specs.Every.{every};
ghost use Rattle.number.specs.Limits.{grid_limit};
ghost use Rattle.number.specs.Answer.{number_of, refused, outcome};
ghost use Rattle.whole.specs.Plane.{gap};
ghost use Rattle.whole.specs.SegmentCall.{point_of, plane_at, planes_of, view_length, count_of, planes_held, within, point_within, plane_within};

use number::answer::Refusal;
use number::limits::{FEWEST_PLANES, GRID_LIMIT, MOST_PLANES, PLANE_LENGTH, POINT_LENGTH};

// The largest entry of a normal, and the largest distance of a plane, in size.
const NORMAL_LIMIT: u32 = 128;

const DISTANCE_LIMIT: u32 = 16_777_216;

// How many planes the number in front says there are; below 0 it says that there are none.
pub fn count_of(x: i32) -> u32
    ensures { result ≡ count_of x }
{
    u32::try_from(x).unwrap_or(0)
}

// How many numbers a view of so many planes has, which is where the next plane would begin.
pub fn view_length(count: u32) -> usize
    ensures { result ≡ view_length count }
{
    1 + count as usize * PLANE_LENGTH
}

// Whether a number is at most a limit in size.
fn within(x: i32, limit: u32) -> bool
    ensures { result ≡ within limit x }
{
    x.unsigned_abs() <= limit
}

// Whether a coordinate is on the grid.
pub fn on_grid(x: i32) -> bool
    ensures { result ≡ within grid_limit x }
{
    within(x, GRID_LIMIT as u32)
}

// The numbers of a slice of so many.
pub fn lent<const N: usize>(numbers: &[i32]) -> Result<&[i32; N], Refusal>
    ensures { MatchResult result
        (λ array. (length numbers.now ≡ N) × (array.now ≡ numbers.now))
        (λ refusal. (length numbers.now ≢ N) × (number_of refusal ≡ 1)) }
{
    numbers.as_array().ok_or(Refusal::InputLength)
}

// Whether a point is on the grid.
pub(crate) fn point_within(p: &[i32; POINT_LENGTH]) -> bool
    ensures { result ≡ point_within (point_of p.now) }
{
    let [x, y, z] = *p;
    on_grid(x) & on_grid(y) & on_grid(z)
}

#[derive(Clone, Copy)]
pub struct WholeView<'a> {
    pub numbers: &'a [i32],
    pub count: u32,
    pub ghost holds_planes: { view_length count ≤ length numbers.now },
}

impl<'a> WholeView<'a> {
    #[tactic(auto, unfolding(crate::specs::SegmentCall::planes_held))]
    // The view that the numbers are, by the count in front and their length.
    pub fn held(numbers: &'a [i32]) -> Result<WholeView<'a>, Refusal>
        ensures { MatchResult result
            (λ view. (view.numbers.now ≡ numbers.now) × (outcome view.count ≡ planes_held numbers.now))
            (λ refusal. refused (number_of refusal) ≡ planes_held numbers.now) }
    {
        if numbers.len() < view_length(FEWEST_PLANES) {
            return Err(Refusal::InputLength);
        }
        let count = count_of(numbers[0]);
        if count < FEWEST_PLANES || MOST_PLANES < count {
            return Err(Refusal::PlaneCount);
        }
        if numbers.len() != view_length(count) {
            return Err(Refusal::InputLength);
        }
        Ok(WholeView { numbers, count })
    }

    // Whether plane i is a segment plane.
    fn plane_within(&self, i: u32) -> bool
        requires { i < self.now.count }
        ensures { result ≡ plane_within (plane_at self.now.numbers.now i) }
    {
        let from = view_length(i);
        within(self.numbers[from], NORMAL_LIMIT)
            & within(self.numbers[from + 1], NORMAL_LIMIT)
            & within(self.numbers[from + 2], NORMAL_LIMIT)
            & within(self.numbers[from + 3], DISTANCE_LIMIT)
    }

    // Whether every plane is.
    pub fn planes_within(&self) -> bool
        ensures { result ≡ every plane_within (planes_of self.now.numbers.now self.now.count) }
    {
        for i in 0..self.count {
            if !self.plane_within(i) {
                return false;
            }
        }
        true
    }

    // How far in front of plane i a point lies, both on the grid.
    pub(crate) fn gap(&self, i: u32, p: &[i32; POINT_LENGTH]) -> i64
        requires { (i < self.now.count) × (plane_within (plane_at self.now.numbers.now i) ≡ true) × (point_within (point_of p.now) ≡ true) }
        ensures { result ≡ gap (plane_at self.now.numbers.now i) (point_of p.now) }
    {
        let from = view_length(i);
        let [x, y, z] = *p;
        self.numbers[from] as i64 * x as i64
            + self.numbers[from + 1] as i64 * y as i64
            + self.numbers[from + 2] as i64 * z as i64
            - self.numbers[from + 3] as i64
    }
}
