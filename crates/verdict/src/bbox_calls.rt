// The operations on boxes, over lent slices. Each has its own tests: a box's record has a flag that is looked at behind the lengths, so that it is no `Record`.
ghost use Rattle.std.specs.Prelude.{◌≡◌, true, false, MatchResult};
ghost use Rattle.number.specs.Answer.{reply, outcome_of};
ghost use Rattle.verdict.specs.BBoxCalls.{flagged, combine_call, transform_box_call, volume_call, aligned_range_call, centroid_call};

use crate::bbox::{BBox3d, is_flag};
use matrix::matrix::Mat4d;
use number::answer::Refusal;
use number::limits::{BOX_LENGTH, FLAG_PLACE, MATRIX_LENGTH, POINT_LENGTH, RANGE_LENGTH};
use number::slice::at;

// A record whose flag is none is refused.
fn flagged(b: &[f64]) -> Result<(), Refusal>
    ensures { MatchResult result (λ done. flagged b.now ≡ true) (λ refusal. (flagged b.now ≡ false) × (refusal ≡ Refusal.Kind)) }
{
    if is_flag(at(b, FLAG_PLACE)) {
        Ok(())
    } else {
        Err(Refusal::Kind)
    }
}

// Two boxes combined into one.
#[tactic(auto, unfolding(crate::specs::BBoxCalls::combine_call, number::specs::Answer::leaving))]
pub fn combine(a: &[f64], b: &[f64], out: &mut [f64]) -> Result<(), Refusal>
    ensures { reply result out.new ≡ combine_call a.now b.now out.old }
{
    if a.len() != BOX_LENGTH {
        return Err(Refusal::InputLength);
    }
    if b.len() != BOX_LENGTH {
        return Err(Refusal::InputLength);
    }
    if out.len() != BOX_LENGTH {
        return Err(Refusal::OutputLength);
    }
    flagged(a)?;
    flagged(b)?;
    BBox3d::load(a).combine(BBox3d::load(b)).store(out);
    Ok(())
}

// A box moved by a matrix.
#[tactic(auto, unfolding(crate::specs::BBoxCalls::transform_box_call, number::specs::Answer::leaving))]
pub fn transform(b: &[f64], m: &[f64], out: &mut [f64]) -> Result<(), Refusal>
    ensures { reply result out.new ≡ transform_box_call b.now m.now out.old }
{
    if b.len() != BOX_LENGTH {
        return Err(Refusal::InputLength);
    }
    if m.len() != MATRIX_LENGTH {
        return Err(Refusal::InputLength);
    }
    if out.len() != BOX_LENGTH {
        return Err(Refusal::OutputLength);
    }
    flagged(b)?;
    BBox3d::load(b).transform(Mat4d::load(m)).store(out);
    Ok(())
}

// The volume of a placed box.
#[tactic(auto, unfolding(crate::specs::BBoxCalls::volume_call))]
pub fn volume(b: &[f64]) -> Result<f64, Refusal>
    ensures { outcome_of result ≡ volume_call b.now }
{
    if b.len() != BOX_LENGTH {
        return Err(Refusal::InputLength);
    }
    if !is_flag(at(b, FLAG_PLACE)) {
        return Err(Refusal::Kind);
    }
    Ok(BBox3d::load(b).volume())
}

// The least and the greatest of a placed box along each axis.
#[tactic(auto, unfolding(crate::specs::BBoxCalls::aligned_range_call, number::specs::Answer::leaving))]
pub fn aligned_range(b: &[f64], out: &mut [f64]) -> Result<(), Refusal>
    ensures { reply result out.new ≡ aligned_range_call b.now out.old }
{
    if b.len() != BOX_LENGTH {
        return Err(Refusal::InputLength);
    }
    if out.len() != RANGE_LENGTH {
        return Err(Refusal::OutputLength);
    }
    flagged(b)?;
    BBox3d::load(b).aligned_range().store(out);
    Ok(())
}

// The midpoint of a box's range, placed.
#[tactic(auto, unfolding(crate::specs::BBoxCalls::centroid_call, number::specs::Answer::leaving))]
pub fn centroid(b: &[f64], out: &mut [f64]) -> Result<(), Refusal>
    ensures { reply result out.new ≡ centroid_call b.now out.old }
{
    if b.len() != BOX_LENGTH {
        return Err(Refusal::InputLength);
    }
    if out.len() != POINT_LENGTH {
        return Err(Refusal::OutputLength);
    }
    flagged(b)?;
    BBox3d::load(b).centroid().store(out);
    Ok(())
}
