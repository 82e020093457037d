// The nearest range and those within a distance, over lent slices.
ghost use Rattle.std.specs.Prelude.{◌≡◌};
ghost use Rattle.number.specs.Answer.{outcome_of};
ghost use Rattle.nearest.specs.Calls.{nearest_call, listing, within_call};

use crate::nearest::Ranges;
use matrix::vec::Vec3d;
use number::answer::Refusal;
use number::limits::POINT_LENGTH;

// The place of the range that is nearest to a point, the first of those as near.
#[tactic(auto, unfolding(crate::specs::Calls::nearest_call, number::specs::Answer::answering))]
pub fn nearest(ranges: &[f64], p: &[f64]) -> Result<Option<u32>, Refusal>
    ensures { outcome_of result ≡ nearest_call ranges.now p.now }
{
    let ranges = Ranges::of(ranges).ok_or(Refusal::InputLength)?;
    if p.len() != POINT_LENGTH {
        return Err(Refusal::InputLength);
    }
    Ok(ranges.nearest(Vec3d::load(p)))
}

// The places of the ranges within a squared distance of a point, rising, to the front of the slots; answers how many they are.
#[tactic(auto, unfolding(crate::specs::Calls::within_call))]
pub fn within(ranges: &[f64], p: &[f64], limit: f64, out: &mut [u32]) -> Result<u32, Refusal>
    ensures { listing (outcome_of result) out.new ≡ within_call ranges.now p.now limit out.old }
{
    let ranges = Ranges::of(ranges).ok_or(Refusal::InputLength)?;
    if p.len() != POINT_LENGTH {
        return Err(Refusal::InputLength);
    }
    if out.len() != ranges.count() as usize {
        return Err(Refusal::OutputLength);
    }
    Ok(ranges.list(Vec3d::load(p), limit, out))
}
