// The exact verdict on a box, over the records of a volume and a box.
ghost use Rattle.std.specs.Prelude.{◌≡◌, true, false, ◌&&◌, length, MatchResult};
ghost use Rattle.number.specs.Limits.{box_length};
ghost use Rattle.number.specs.Answer.{number_of, outcome_of};
ghost use Rattle.whole.specs.SegmentCall.{view_length};
ghost use Rattle.placed.specs.Numbers.{are_whole_numbers};
ghost use Rattle.placed.specs.Placement.{quarter_turned};
ghost use Rattle.placed.specs.BBoxCall.{count_in, box_numbers, box_in, on_grid, ByGrid, ExactBoxCall};
ghost use Rattle.placed.specs.Steps.{placed_bounds, HoldsPlanes};

use crate::numbers::load;
use crate::placement::Placement;
use exact::bbox::intersects_bbox;
use number::answer::Refusal;
use number::limits::{BOX_LENGTH, FLAG_PLACE, MOST_PLANES, PLANE_LENGTH, RANGE_LENGTH};
use number::slice::{all_finite, at};
use verdict::bbox::is_flag;
use verdict::view::checked;
use whole::view::view_length;

// Room for the count and the planes of a view.
const VIEW_ROOM: usize = 1 + MOST_PLANES as usize * PLANE_LENGTH;

// The least and the greatest corner of the placed box, where the numbers in front of its flag are whole and a grid box's.
fn place(bbox: &[f64]) -> Result<[i32; RANGE_LENGTH], Refusal>
    requires { length bbox.now ≡ box_length }
    ensures { let held = are_whole_numbers (box_numbers bbox.now) && quarter_turned (box_in bbox.now) in MatchResult result
        (λ bounds. (held ≡ true) × (bounds ≡ placed_bounds (box_in bbox.now)))
        (λ refusal. (held ≡ false) × (number_of refusal ≡ 7)) }
{
    let placement = Placement::of(bbox)?;
    if !placement.quarter_turned() {
        return Err(Refusal::OffGrid);
    }
    Ok(placement.bounds())
}

// Whether placed box and view share an exact point, of records that the verdict by floats takes. The slice has room for the view in whole numbers.
fn by_grid(volume: &[f64], bbox: &[f64], view: &mut [i32]) -> Result<bool, Refusal>
    requires { HoldsPlanes volume.now (count_in volume.now) × (length bbox.now ≡ box_length) × (length view.old ≡ view_length (count_in volume.now)) }
    ensures { ByGrid volume.now bbox.now (outcome_of result) (on_grid volume.now bbox.now) }
{
    load(volume, view)?;
    let bounds = place(bbox)?;
    let mut witness = [0; 4];
    intersects_bbox(view, &bounds, &mut witness)
}

// Whether a box as it is placed and a view share an exact point.
pub fn exact_bbox(volume: &[f64], bbox: &[f64]) -> Result<bool, Refusal>
    ensures { ExactBoxCall volume.now bbox.now (outcome_of result) }
{
    if bbox.len() != BOX_LENGTH {
        return Err(Refusal::InputLength);
    }
    let count = checked(
        volume,
        true,
        is_flag(at(bbox, FLAG_PLACE)),
        all_finite(bbox),
    )?;
    let mut room = [0i32; VIEW_ROOM];
    by_grid(volume, bbox, &mut room[0..view_length(count)])
}
