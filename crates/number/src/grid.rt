// The survey grid: metres to whole centimetres.
ghost use Rattle.std.specs.Prelude.{◌≡◌};
ghost use Rattle.number.specs.Answer.{and_then, outcome, outcome_of, reply};
ghost use Rattle.number.specs.Grid.{centimetres, coordinate_of, placed, grid_call};
ghost use Rattle.number.specs.Slice.{at};
ghost use Rattle.std.specs.Float.{binary64};
ghost use Rattle.std.specs.Float.Ieee.{of_int};

use crate::answer::Refusal;
use crate::limits::{GRID_LIMIT, POINT_LENGTH};
use crate::nearest;
use crate::parts::Parts;
use crate::slice::{at, store};

// The whole coordinate nearest to a number of centimetres, of two the even one.
pub fn whole(x: f64) -> Option<i32>
    ensures { result ≡ placed x }
{
    let parts = Parts::of(x)?;
    let magnitude = parts.magnitude;
    // 2 ^ 17, above the grid's limit
    if 0x4100_0000_0000_0000 <= magnitude.bits {
        return None;
    }
    // below a half
    if magnitude.bits < 0x3fe0_0000_0000_0000 {
        return Some(0);
    }
    let scaled = magnitude.scaled();
    let size = nearest(scaled.significand, 1126 - scaled.scale);
    if GRID_LIMIT < size {
        return None;
    }
    let size = size as i32;
    Some(if parts.negative { -size } else { size })
}

// The number at a place of a point in metres, on the grid.
fn coordinate(p: &[f64], place: usize) -> Result<f64, Refusal>
    ensures { outcome_of result ≡ and_then (coordinate_of (placed (centimetres (at p.now place)))) (λ z. outcome (of_int binary64 z)) }
{
    whole(at(p, place) * 100.0)
        .map(f64::from)
        .ok_or(Refusal::OffGrid)
}

// The grid point of a point in metres.
pub fn grid(p: &[f64], out: &mut [f64]) -> Result<(), Refusal>
    ensures { reply result out.new ≡ grid_call p.now out.old }
{
    if p.len() != POINT_LENGTH {
        return Err(Refusal::InputLength);
    }
    if out.len() != POINT_LENGTH {
        return Err(Refusal::OutputLength);
    }
    let point = [coordinate(p, 0)?, coordinate(p, 1)?, coordinate(p, 2)?];
    store(&point, out);
    Ok(())
}
