// Ranges in one slice: the place of the nearest to a point, and the places of those within a distance.
ghost use Rattle.std.specs.Prelude.{◌≡◌, true, false, ◌&&◌, not, ◌<◌, length, take, MatchOption};
ghost use Rattle.number.specs.Slots.{slots_of};
ghost use Rattle.nearest.specs.Steps.{with_range};
ghost use Rattle.nearest.specs.Nearest.{range_count, range_at, are_ranges, nearest_of, places_within};
ghost use Rattle.std.specs.Float.Ieee.{lt, le};
ghost use Rattle.matrix.specs.Range.{is_empty, span_distance_squared, distance_squared};

use matrix::range::Range3d;
use matrix::vec::Vec3d;
use number::limits::RANGE_LENGTH;
use number::order::upper;
use number::slots::UNUSED;

// The most ranges of a slice.
pub const MOST_RANGES: usize = 1024;

// Whether a slice holds ranges, one at least and no more than the most.
fn are_ranges(ranges: &[f64]) -> bool
    ensures { result ≡ are_ranges ranges.now }
{
    (ranges.len() > 0)
        & (ranges.len() % RANGE_LENGTH == 0)
        & (ranges.len() <= MOST_RANGES * RANGE_LENGTH)
}

// The place of the nearest of the ranges passed, and its squared distance.
#[derive(Clone, Copy)]
struct Nearest {
    place: u32,
    distance: f64,
}

// What is found with one range more, at a place.
#[tactic(auto, using(crate::proofs::Steps::a_nan, number::proofs::Nan::not_nan), unfolding(crate::specs::Steps::with_range))]
fn with(found: Option<Nearest>, range: Range3d, p: Vec3d, place: u32) -> Option<Nearest>
    ensures { result ≡ with_range found range p place }
{
    if range.is_empty() {
        return found;
    }
    let distance = range.distance_squared(p);
    if distance != distance {
        return found;
    }
    if let Some(nearest) = found {
        if !(distance < nearest.distance) {
            return found;
        }
    }
    Some(Nearest { place, distance })
}

// The squared distance of a number from a span that is not turned round. It is on one side at most, so that of both differences one is above zero at most. By
// `Range3d::distance_squared`, which chooses between squares, a range takes an eighth longer.
fn span_distance_squared(p: f64, min: f64, max: f64) -> f64
    requires { lt max min ≡ false }
    ensures { result ≡ span_distance_squared p min max }
{
    let beside = upper(upper(0.0, min - p), p - max);
    beside * beside
}

// Whether a range that is not empty is within a squared distance.
#[tactic(auto, using(crate::proofs::Spans::not_turned), unfolding(matrix::specs::Range::is_empty, matrix::specs::Range::distance_squared))]
fn is_within(range: Range3d, p: Vec3d, limit: f64) -> bool
    ensures { result ≡ (not (is_empty range) && le (distance_squared range p) limit) }
{
    if range.is_empty() {
        return false;
    }
    let distance = span_distance_squared(p.x, range.min.x, range.max.x)
        + span_distance_squared(p.y, range.min.y, range.max.y)
        + span_distance_squared(p.z, range.min.z, range.max.z);
    distance <= limit
}

// Ranges in one slice, one behind another: one at least, and no more than the most.
#[derive(Clone, Copy)]
pub(crate) struct Ranges<'a> {
    numbers: &'a [f64],
    pub ghost held: { are_ranges numbers.now ≡ true },
}

impl<'a> Ranges<'a> {
    // Those of a slice, if it holds ranges.
    #[inline(always)]
    pub(crate) fn of(numbers: &'a [f64]) -> Option<Ranges<'a>>
        ensures { MatchOption result (are_ranges numbers.now ≡ false) (λ r. r.numbers.now ≡ numbers.now) }
    {
        if !are_ranges(numbers) {
            return None;
        }
        Some(Ranges { numbers })
    }

    // How many there are.
    pub(crate) fn count(self) -> u32
        ensures { result ≡ range_count self.entry.numbers.now }
    {
        (self.numbers.len() / RANGE_LENGTH) as u32
    }

    // The range at a place.
    fn range(self, i: u32) -> Range3d
        requires { i < range_count self.numbers.now }
        ensures { result ≡ range_at self.entry.numbers.now i }
    {
        let from = i as usize * RANGE_LENGTH;
        Range3d::load(&self.numbers[from..from + RANGE_LENGTH])
    }

    // The place of the nearest, if there is one.
    #[tactic(auto, using(crate::proofs::Steps::at_first, crate::proofs::Steps::next, crate::proofs::Steps::at_last))]
    pub(crate) fn nearest(self, p: Vec3d) -> Option<u32>
        ensures { result ≡ nearest_of self.entry.numbers.now p }
    {
        let mut found: Option<Nearest> = None;
        for i in 0..self.count() {
            found = with(found, self.range(i), p, i);
        }
        found.map(|nearest| nearest.place)
    }

    // The places of those that are within a squared distance, to the front of the slots; answers how many they are.
    fn places_within(self, count: u32, p: Vec3d, limit: f64, out: &mut [u32]) -> u32
        requires { (count ≡ range_count self.numbers.now) × (length out.old ≡ count) }
        ensures { (result ≡ length (places_within self.entry.numbers.now p limit)) × (take result out.new ≡ places_within self.entry.numbers.now p limit) × (length out.new ≡ length out.old) }
    {
        let mut found: u32 = 0;
        for i in 0..count {
            // written over by the next that is within, or cleared at the end
            out[found as usize] = i;
            found += u32::from(is_within(self.range(i), p, limit));
        }
        found
    }

    // The same, and the slots behind them are unused.
    pub(crate) fn list(self, p: Vec3d, limit: f64, out: &mut [u32]) -> u32
        requires { length out.old ≡ range_count self.numbers.now }
        ensures { (result ≡ length (places_within self.entry.numbers.now p limit)) × (out.new ≡ slots_of (range_count self.entry.numbers.now) (places_within self.entry.numbers.now p limit)) }
    {
        let count = self.count();
        let found = self.places_within(count, p, limit, out);
        out[found as usize..].fill(UNUSED);
        found
    }
}
