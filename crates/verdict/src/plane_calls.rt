// The operations on planes, over lent slices.
ghost use Rattle.std.specs.Prelude.{◌≡◌};
ghost use Rattle.number.specs.Answer.{reply, outcome_of};
ghost use Rattle.verdict.specs.PlaneCalls.{new_plane_call, from_points_call, from_equation_call, distance_call, side_call, transformed_plane_call};

use crate::plane::Plane;
use matrix::record::{given, lent_one};
use matrix::vec::{Vec3d, Vec4d};
use number::answer::Refusal;
use number::limits::{PLANE_LENGTH, POINT_LENGTH};

// A plane from a normal and a distance.
pub fn new(normal: &[f64], distance: f64, out: &mut [f64]) -> Result<(), Refusal>
    ensures { reply result out.new ≡ new_plane_call normal.now distance out.old }
{
    let unscaled = lent_one::<Vec3d, Plane>(normal, out)?;
    Plane::new(unscaled, distance).store(out);
    Ok(())
}

// A plane from three points on it.
#[tactic(auto, unfolding(crate::specs::PlaneCalls::from_points_call, number::specs::Answer::leaving))]
pub fn from_points(p0: &[f64], p1: &[f64], p2: &[f64], out: &mut [f64]) -> Result<(), Refusal>
    ensures { reply result out.new ≡ from_points_call p0.now p1.now p2.now out.old }
{
    if p0.len() != POINT_LENGTH {
        return Err(Refusal::InputLength);
    }
    if p1.len() != POINT_LENGTH {
        return Err(Refusal::InputLength);
    }
    if p2.len() != POINT_LENGTH {
        return Err(Refusal::InputLength);
    }
    if out.len() != PLANE_LENGTH {
        return Err(Refusal::OutputLength);
    }
    Plane::from_points(Vec3d::load(p0), Vec3d::load(p1), Vec3d::load(p2)).store(out);
    Ok(())
}

// A plane from its equation.
pub fn from_equation(equation: &[f64], out: &mut [f64]) -> Result<(), Refusal>
    ensures { reply result out.new ≡ from_equation_call equation.now out.old }
{
    let numbers = lent_one::<Vec4d, Plane>(equation, out)?;
    Plane::from_equation(numbers).store(out);
    Ok(())
}

// The signed distance of a point from a plane.
#[tactic(auto, unfolding(crate::specs::PlaneCalls::distance_call, number::specs::Answer::answering))]
pub fn distance(plane: &[f64], p: &[f64]) -> Result<f64, Refusal>
    ensures { outcome_of result ≡ distance_call plane.now p.now }
{
    Ok(given::<Plane>(plane)?.distance(given(p)?))
}

// Whether a point is on the positive side of a plane, touching included.
pub fn on_positive_side(plane: &[f64], p: &[f64]) -> Result<bool, Refusal>
    ensures { outcome_of result ≡ side_call plane.now p.now }
{
    Ok(given::<Plane>(plane)?.on_positive_side(given(p)?))
}

// A plane moved by a matrix. A singular matrix is refused.
#[tactic(auto, unfolding(crate::specs::PlaneCalls::transformed_plane_call, number::specs::Answer::leaving))]
pub fn transformed(plane: &[f64], m: &[f64], out: &mut [f64]) -> Result<(), Refusal>
    ensures { reply result out.new ≡ transformed_plane_call plane.now m.now out.old }
{
    let original: Plane = given(plane)?;
    let matrix = given(m)?;
    if out.len() != PLANE_LENGTH {
        return Err(Refusal::OutputLength);
    }
    original
        .transformed(matrix)
        .ok_or(Refusal::Singular)?
        .store(out);
    Ok(())
}
