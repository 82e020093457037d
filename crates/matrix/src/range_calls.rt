// The operations on ranges, over lent slices.
ghost use Rattle.std.specs.Prelude.{◌≡◌};
ghost use Rattle.number.specs.Answer.{reply, outcome_of};
ghost use Rattle.matrix.specs.RangeCalls.{is_empty_call, union_call, intersection_call, midpoint_call, distance_squared_call, transformed_call, corners_call};

use crate::range::Range3d;
use crate::record::{given, of_one, of_two};
use number::answer::Refusal;
use number::limits::{CORNERS_LENGTH, RANGE_LENGTH};
use number::slice::at;

// Whether a range is empty.
pub fn is_empty(range: &[f64]) -> Result<bool, Refusal>
    ensures { outcome_of result ≡ is_empty_call range.now }
{
    if range.len() != RANGE_LENGTH {
        return Err(Refusal::InputLength);
    }
    // the numbers of an axis are read when its turn comes: the first that shows it settles it
    if at(range, 0) > at(range, 3) {
        return Ok(true);
    }
    if at(range, 1) > at(range, 4) {
        return Ok(true);
    }
    if at(range, 2) > at(range, 5) {
        return Ok(true);
    }
    Ok(false)
}

// Two ranges united.
pub fn union(a: &[f64], b: &[f64], out: &mut [f64]) -> Result<(), Refusal>
    ensures { reply result out.new ≡ union_call a.now b.now out.old }
{
    if a.len() != RANGE_LENGTH {
        return Err(Refusal::InputLength);
    }
    if b.len() != RANGE_LENGTH {
        return Err(Refusal::InputLength);
    }
    if out.len() != RANGE_LENGTH {
        return Err(Refusal::OutputLength);
    }
    // each way stores for itself: by `of_two`, with one place that stores, a union takes 1.06 times as long
    let first = Range3d::load(a);
    let second = Range3d::load(b);
    if first.are_ordered(second) {
        first.joined_numbers(second).store(out);
        return Ok(());
    }
    first.union(second).store(out);
    Ok(())
}

// What two ranges have in common.
pub fn intersection(a: &[f64], b: &[f64], out: &mut [f64]) -> Result<(), Refusal>
    ensures { reply result out.new ≡ intersection_call a.now b.now out.old }
{
    of_two(a, b, out, Range3d::intersection)
}

// Half the least corner plus half the greatest.
pub fn midpoint(range: &[f64], out: &mut [f64]) -> Result<(), Refusal>
    ensures { reply result out.new ≡ midpoint_call range.now out.old }
{
    of_one(range, out, Range3d::midpoint)
}

// The square of the distance between a point and a range.
#[tactic(auto, unfolding(crate::specs::RangeCalls::distance_squared_call, number::specs::Answer::answering))]
pub fn distance_squared(range: &[f64], p: &[f64]) -> Result<f64, Refusal>
    ensures { outcome_of result ≡ distance_squared_call range.now p.now }
{
    Ok(given::<Range3d>(range)?.distance_squared(given(p)?))
}

// A range moved by a matrix: its least and greatest along each axis.
pub fn transformed(range: &[f64], m: &[f64], out: &mut [f64]) -> Result<(), Refusal>
    ensures { reply result out.new ≡ transformed_call range.now m.now out.old }
{
    of_two(range, m, out, Range3d::transformed)
}

// The eight corners of a range.
pub fn corners(range: &[f64], out: &mut [f64]) -> Result<(), Refusal>
    ensures { reply result out.new ≡ corners_call range.now out.old }
{
    if range.len() != RANGE_LENGTH {
        return Err(Refusal::InputLength);
    }
    if out.len() != CORNERS_LENGTH {
        return Err(Refusal::OutputLength);
    }
    Range3d::store_corners(range, out);
    Ok(())
}
