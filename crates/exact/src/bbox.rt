// The exact verdict on a box over signed 32-bit whole numbers.
ghost use Rattle.std.specs.Prelude.{◌≡◌, ◌&&◌, MatchResult};
ghost use Rattle.std.specs.Int.Signed.{le_z};
ghost use Rattle.number.specs.Limits.{grid_limit};
ghost use Rattle.number.specs.Answer.{number_of, refused, outcome, outcome_of};
ghost use Rattle.whole.specs.SegmentCall.{within};
ghost use Rattle.exact.specs.BBoxCall.{box_within, count_checked, WholeBoxCall};

use crate::scene::Scene;
use crate::vec::Vec3;
use number::answer::Refusal;
use number::limits::RANGE_LENGTH;
use whole::view::{WholeView, lent, on_grid};

// How many numbers a witness has.
const WITNESS_LENGTH: usize = 4;

// Whether a box has both corners on the grid along an axis, and the least not past the greatest.
fn axis_within(least: i32, greatest: i32) -> bool
    ensures { result ≡ (within grid_limit least && within grid_limit greatest && le_z least greatest) }
{
    on_grid(least) & on_grid(greatest) & (least <= greatest)
}

// And so along each.
fn box_within(bounds: &[i32; RANGE_LENGTH]) -> bool
    ensures { result ≡ box_within bounds.now }
{
    let [x, y, z, to_x, to_y, to_z] = *bounds;
    axis_within(x, to_x) & axis_within(y, to_y) & axis_within(z, to_z)
}

// The box and the view, where nothing is refused. The witness has room for so many numbers.
fn checked<'a>(view: &'a [i32], bounds: &'a [i32], room: usize) -> Result<Scene<'a>, Refusal>
    ensures { MatchResult result
        (λ scene. (scene.view.numbers.now ≡ view.now) × (scene.bounds.now ≡ bounds.now) × (outcome scene.view.count ≡ count_checked view.now bounds.now room))
        (λ refusal. refused (number_of refusal) ≡ count_checked view.now bounds.now room) }
{
    let bounds = lent(bounds)?;
    let view = WholeView::held(view)?;
    if room != WITNESS_LENGTH {
        return Err(Refusal::OutputLength);
    }
    if !(view.planes_within() & box_within(bounds)) {
        return Err(Refusal::OffGrid);
    }
    Ok(Scene { view, bounds })
}

// Whether a box and a view share an exact point, and where they do such a point: its numbers, then its k.
pub fn intersects_bbox(view: &[i32], bounds: &[i32], witness: &mut [i64]) -> Result<bool, Refusal>
    ensures { WholeBoxCall view.now bounds.now witness.old (outcome_of result) witness.new }
{
    let scene = checked(view, bounds, witness.len())?;
    if !scene.reaches() {
        return Ok(false);
    }
    let Some(p) = scene.shared() else {
        return Ok(false);
    };
    let Vec3 { x, y, z } = p.numbers;
    witness.copy_from_slice(&[x, y, z, p.k]);
    Ok(true)
}
