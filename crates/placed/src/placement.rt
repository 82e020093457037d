// A box in whole numbers: whether its range and its matrix are a grid box's, and where it is placed.
ghost use Rattle.std.specs.Prelude.{◌≡◌, true, false, ◌+◌, ◌*◌, ◌≤◌, ◌<◌, eqb, length, nat_abs, ◌+ℤ◌, MatchResult};
ghost use Rattle.number.specs.Answer.{number_of};
ghost use Rattle.number.specs.Limits.{flag_place, box_length, distance_limit, grid_limit};
ghost use Rattle.whole.specs.Plane.{dotℤ};
ghost use Rattle.whole.specs.SegmentCall.{number_at};
ghost use Rattle.exact.specs.Steps.{vec_of, vec, Sized};
ghost use Rattle.placed.specs.Numbers.{are_whole_numbers, whole_numbers};
ghost use Rattle.placed.specs.Placement.{sizes, box_of, placed_least, placed_greatest, grid_along, quarter_turned};
ghost use Rattle.placed.specs.BBoxCall.{box_numbers};
ghost use Rattle.placed.specs.Steps.{placed_bounds, BoxNumbers, Placing};

use crate::numbers::load;
use exact::vec::Vec3;
use number::answer::Refusal;
use number::limits::{FLAG_PLACE, RANGE_LENGTH};
use whole::view::on_grid;

// Whether one of them is 1 or -1, and the others are 0.
fn is_single(v: Vec3<i32>) -> bool
    requires { Sized distance_limit v }
    ensures { result ≡ eqb (sizes (vec_of v)) 1 }
{
    v.x.unsigned_abs() + v.y.unsigned_abs() + v.z.unsigned_abs() == 1
}

// A point along an axis of a placement: by the column of its turn, and its translation.
fn moved(point: Vec3<i32>, column: Vec3<i32>, translation: i32) -> i32
    requires { Sized grid_limit point × Sized 1 column × (nat_abs translation ≤ grid_limit) }
    ensures { result ≡ dotℤ (vec_of point) (vec_of column) +ℤ translation }
{
    point.x * column.x + point.y * column.y + point.z * column.z + translation
}

// The numbers in front of a box's flag: a range, and the matrix that places it.
#[derive(Clone, Copy)]
pub(crate) struct Placement {
    pub numbers: [i32; FLAG_PLACE],
    pub ghost small: { BoxNumbers numbers },
}

impl Placement {
    // Of a box's record, where these numbers are whole.
    pub(crate) fn of(bbox: &[f64]) -> Result<Placement, Refusal>
        requires { length bbox.now ≡ box_length }
        ensures { MatchResult result
            (λ placement. (are_whole_numbers (box_numbers bbox.now) ≡ true) × (placement.numbers ≡ whole_numbers (box_numbers bbox.now)))
            (λ refusal. (are_whole_numbers (box_numbers bbox.now) ≡ false) × (number_of refusal ≡ 7)) }
    {
        let mut numbers = [0; FLAG_PLACE];
        load(bbox, &mut numbers)?;
        Ok(Placement { numbers })
    }

    // Three of them, so many places apart.
    fn vec_at(&self, from: usize, apart: usize) -> Vec3<i32>
        requires { from + 2 * apart < flag_place }
        ensures { result ≡ vec (λ k. number_at self.now.numbers (from + k * apart)) }
    {
        Vec3 {
            x: self.numbers[from],
            y: self.numbers[from + apart],
            z: self.numbers[from + 2 * apart],
        }
    }

    // Whether along an axis the range is on the grid and not empty, and the matrix a quarter-turn placement's.
    fn grid_along(&self, i: usize) -> bool
        requires { i < 3 }
        ensures { result ≡ grid_along (box_of self.now.numbers) i }
    {
        let low = self.numbers[i];
        let high = self.numbers[3 + i];
        let row = self.vec_at(6 + i * 4, 1);
        let column = self.vec_at(6 + i, 4);
        let translation = self.numbers[18 + i];
        let last = self.numbers[9 + i * 4];
        on_grid(low)
            & on_grid(high)
            & (low <= high)
            & is_single(row)
            & is_single(column)
            & on_grid(translation)
            & (last == 0)
    }

    // And so along each.
    pub(crate) fn quarter_turned(&self) -> bool
        ensures { result ≡ quarter_turned (box_of self.now.numbers) }
    {
        self.grid_along(0) & self.grid_along(1) & self.grid_along(2) & (self.numbers[21] == 1)
    }

    // The least and the greatest coordinate of the placed box along an axis.
    fn extent(&self, j: usize) -> (i32, i32)
        requires { Placing self.now.numbers × (j < 3) }
        ensures { (result.0 ≡ placed_least (box_of self.now.numbers) j) × (result.1 ≡ placed_greatest (box_of self.now.numbers) j) }
    {
        let column = self.vec_at(6 + j, 4);
        let translation = self.numbers[18 + j];
        let from = moved(self.vec_at(0, 1), column, translation);
        let to = moved(self.vec_at(3, 1), column, translation);
        (from.min(to), to.max(from))
    }

    // The least and the greatest corner of the placed box.
    pub(crate) fn bounds(&self) -> [i32; RANGE_LENGTH]
        requires { Placing self.now.numbers }
        ensures { result ≡ placed_bounds (box_of self.now.numbers) }
    {
        let (x, to_x) = self.extent(0);
        let (y, to_y) = self.extent(1);
        let (z, to_z) = self.extent(2);
        [x, y, z, to_x, to_y, to_z]
    }
}
