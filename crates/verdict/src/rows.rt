// The planes of a view side by side, as the verdicts read them: the x of every normal, then every y, every z, and the distances, each
// in a row that has room for the most planes. That they lie so is a claim of its own, `EveryPlace`; several planes are taken at a time. What knows this layout is here.
ghost use Rattle.std.specs.Prelude.{◌≡◌, ◌<◌, ◌≤◌, length, take, IfErr, IfOk};
ghost use Rattle.number.specs.Limits.{most_planes};
ghost use Rattle.number.specs.Answer.{outcome_of};
ghost use Rattle.verdict.specs.View.{planes_held};
ghost use Rattle.verdict.specs.Rows.{rows_length, plane_in_rows, planes_in_rows, with_planes, rows_loaded};

use crate::plane::Plane;
use crate::view::{Planes, planes_held};
use matrix::vec::Vec3d;
use number::answer::Refusal;
use number::limits::MOST_PLANES;

// Where each row begins behind that of the x.
const Y_ROW: usize = MOST_PLANES as usize;

const Z_ROW: usize = 2 * Y_ROW;

const DISTANCE_ROW: usize = 3 * Y_ROW;

// The numbers of all rows.
pub const ROWS_LENGTH: usize = 4 * Y_ROW;

// The rows, and how many planes are in them. A place behind these is never read.
#[derive(Clone, Copy)]
pub struct Rows {
    pub(crate) numbers: [f64; ROWS_LENGTH],
    pub(crate) count: u32,
    pub ghost room: { count ≤ most_planes },
}

// The planes of a record, each to its place. What stands elsewhere is kept.
#[inline(always)]
fn gather(planes: Planes, rows: &mut [f64])
    requires { length rows.old ≡ rows_length }
    ensures { rows.new ≡ with_planes planes.entry.numbers.now planes.entry.count rows.old }
{
    for i in 0..planes.count {
        let plane = planes.plane(i);
        let place = i as usize;
        rows[place] = plane.normal.x;
        rows[place + Y_ROW] = plane.normal.y;
        rows[place + Z_ROW] = plane.normal.z;
        rows[place + DISTANCE_ROW] = plane.distance;
    }
}

// How many planes a record holds, by its count and its length, and these to their places in a slice that has room for just the rows. One of another length is left
// alone, and by a record that is refused each is.
pub fn load(volume: &[f64], rows: &mut [f64]) -> Result<u32, Refusal>
    ensures { (outcome_of result ≡ planes_held volume.now) × (rows.new ≡ rows_loaded (planes_held volume.now) volume.now rows.old) }
{
    let count = planes_held(volume)?;
    if rows.len() == ROWS_LENGTH {
        gather(
            Planes {
                numbers: volume,
                count,
            },
            rows,
        );
    }
    Ok(count)
}

impl Rows {
    // No plane yet.
    pub const NONE: Rows = Rows {
        numbers: [0.0; ROWS_LENGTH],
        count: 0,
    };

    // Of the planes that some numbers are as many as are counted, the most at most.
    pub fn of(numbers: [f64; ROWS_LENGTH], count: u32) -> Rows
        ensures { planes_in_rows result.numbers result.count ≡ take count (planes_in_rows numbers most_planes) }
    {
        Rows {
            numbers,
            count: count.min(MOST_PLANES),
        }
    }

    // The plane at a place.
    #[inline(always)]
    pub(crate) fn plane(&self, i: u32) -> Plane
        requires { i < self.now.count }
        ensures { result ≡ plane_in_rows self.now.numbers i }
    {
        let place = i as usize;
        Plane {
            normal: Vec3d {
                x: self.numbers[place],
                y: self.numbers[place + Y_ROW],
                z: self.numbers[place + Z_ROW],
            },
            distance: self.numbers[place + DISTANCE_ROW],
        }
    }

    // The planes of a record, each to its place. What stands elsewhere is kept.
    #[inline(always)]
    pub fn gather(&mut self, planes: Planes)
        ensures numbers { self.new.numbers ≡ with_planes planes.entry.numbers.now planes.entry.count self.old.numbers }
        ensures count { self.new.count ≡ planes.entry.count }
    {
        gather(planes, &mut self.numbers);
        self.count = planes.count;
    }

    // How many planes a record holds, by its count and its length, and these to their places. A record that is refused leaves the rows alone.
    pub fn load(&mut self, volume: &[f64]) -> Result<u32, Refusal>
        ensures held { outcome_of result ≡ planes_held volume.now }
        ensures numbers { self.new.numbers ≡ rows_loaded (planes_held volume.now) volume.now self.old.numbers }
        ensures count { IfOk result (λ n. self.new.count ≡ n) }
        ensures kept { IfErr result (λ _. self.new.count ≡ self.old.count) }
    {
        self.count = load(volume, &mut self.numbers)?;
        Ok(self.count)
    }
}
