// The boxes of a group, and the box that they are combined into.
ghost use Rattle.std.specs.Prelude.{◌≡◌, ◌*◌, ◌/◌, ◌%◌, ◌<◌, ◌≤◌, length, drop};
ghost use Rattle.number.specs.Limits.{box_length};
ghost use Rattle.number.specs.Records.{record_at, records};
ghost use Rattle.verdict.specs.BBox.{box_of};
ghost use Rattle.group.specs.Group.{combined_with, all_flagged};

use number::limits::{BOX_LENGTH, FLAG_PLACE, MOST_BOXES};
use verdict::bbox::{BBox3d, is_flag};

// The most numbers of a group, those of the most boxes.
pub const MOST_NUMBERS: usize = MOST_BOXES * BOX_LENGTH;

// Box records, one behind the other.
#[derive(Clone, Copy)]
pub struct Boxes<'a> {
    numbers: &'a [f64],
    pub count: usize,
    pub ghost whole: { length numbers.now ≡ count * box_length },
}

impl<'a> Boxes<'a> {
    pub(crate) fn of(numbers: &'a [f64]) -> Boxes<'a>
        requires { length numbers.now % box_length ≡ 0 }
        ensures { (result.numbers.now ≡ numbers.now) × (result.count ≡ length numbers.now / box_length) }
    {
        Boxes {
            numbers,
            count: numbers.len() / BOX_LENGTH,
        }
    }

    // The record at a place.
    pub(crate) fn record(self, i: usize) -> &'a [f64]
        requires { i < self.count }
        ensures { result.now ≡ record_at box_length self.entry.numbers.now i }
    {
        let from = i * BOX_LENGTH;
        let to = from + BOX_LENGTH;
        &self.numbers[from..to]
    }

    // Whether the flag of each record is one.
    pub(crate) fn all_flagged(self) -> bool
        ensures { result ≡ all_flagged (records box_length self.entry.count self.entry.numbers.now) }
    {
        (0..self.count).all(|i| is_flag(self.numbers[i * BOX_LENGTH + FLAG_PLACE]))
    }

    // The boxes, two at least, combined left to right.
    pub(crate) fn combine(self) -> BBox3d
        requires { 2 ≤ self.count }
        ensures { result ≡ combined_with (box_of (record_at box_length self.entry.numbers.now 0)) (drop 1 (records box_length self.entry.count self.entry.numbers.now)) }
    {
        let mut group = BBox3d::from_record(self.record(0));
        for i in 1..self.count {
            group = group.combine(BBox3d::from_record(self.record(i)));
        }
        group
    }
}
