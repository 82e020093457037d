// The twelve marked verdicts: each case's number and its verdict, as the operations answer.
#![tactic(auto)]

ghost use Rattle.std.specs.Prelude.{◌≡◌};
ghost use Rattle.number.specs.Answer.{outcome_of};
ghost use Rattle.verdict.specs.FrustumCalls.{intersects_point_call, intersects_segment_call, intersects_box_call};
ghost use Rattle.verdict.specs.Marked.{three, cube, box_record, identity_rows, turn_rows, plus};

use number::answer::Refusal;
use verdict::frustum_calls::{intersects_bbox, intersects_point, intersects_segment};

// A cube: how many planes bound it, these, and four rays of zeros.
const CUBE: [f64; 49] = [
    6.0,
    // x at least 0
    1.0, 0.0, 0.0, 0.0,
    // x at most 10
    -1.0, 0.0, 0.0, -10.0,
    // y at least 0
    0.0, 1.0, 0.0, 0.0,
    // y at most 10
    0.0, -1.0, 0.0, -10.0,
    // z at least 0
    0.0, 0.0, 1.0, 0.0,
    // z at most 10
    0.0, 0.0, -1.0, -10.0,
    // the first ray
    0.0, 0.0, 0.0, 0.0, 0.0, 0.0,
    // the second ray
    0.0, 0.0, 0.0, 0.0, 0.0, 0.0,
    // the third ray
    0.0, 0.0, 0.0, 0.0, 0.0, 0.0,
    // the fourth ray
    0.0, 0.0, 0.0, 0.0, 0.0, 0.0,
];

#[tactic(auto, using(crate::proofs::Cube::the_cube))]
fn point(p: [f64; 3]) -> Result<bool, Refusal>
    ensures { outcome_of result ≡ intersects_point_call cube p }
{
    intersects_point(&CUBE, &p)
}

#[tactic(auto, using(crate::proofs::Cube::the_cube))]
fn segment(p0: [f64; 3], p1: [f64; 3]) -> Result<bool, Refusal>
    ensures { outcome_of result ≡ intersects_segment_call cube p0 p1 }
{
    intersects_segment(&CUBE, &p0, &p1)
}

// A box under the identity, from a least to a greatest corner.
fn upright(least: [f64; 3], greatest: [f64; 3]) -> Result<bool, Refusal>
    ensures { outcome_of result ≡ intersects_box_call cube (box_record least greatest identity_rows) }
{
    let [x0, y0, z0] = least;
    let [x1, y1, z1] = greatest;
    intersects_bbox(
        &CUBE,
        &[
            x0, y0, z0, x1, y1, z1, 1.0, 0.0, 0.0, 0.0, 0.0, 1.0, 0.0, 0.0, 0.0, 0.0, 1.0, 0.0,
            0.0, 0.0, 0.0, 1.0, 0.0,
        ],
    )
}

// The box from 0 to 1 along each axis, after a quarter turn from x to y and a move along x.
fn turned(x: f64) -> Result<bool, Refusal>
    ensures { outcome_of result ≡ intersects_box_call cube (box_record (three (plus 0) (plus 0) (plus 0)) (three (plus 1) (plus 1) (plus 1)) (turn_rows x)) }
{
    intersects_bbox(
        &CUBE,
        &[
            0.0, 0.0, 0.0, 1.0, 1.0, 1.0, 0.0, 1.0, 0.0, 0.0, -1.0, 0.0, 0.0, 0.0, 0.0, 0.0, 1.0,
            0.0, x, 0.0, 0.0, 1.0, 0.0,
        ],
    )
}

// By the kit's `io`: what `println!` stands on calls more of the C library.
fn print_case(number: u64, verdict: Result<bool, Refusal>) {
    io::print_decimal(1, number);
    let line: &[u8] = match verdict {
        Ok(true) => b" yes\n",
        Ok(false) => b" no\n",
        Err(_) => b" refused\n",
    };
    io::write_all(1, line);
}

fn main() {
    let verdicts = [
        point([0.0, 0.0, 0.0]),
        point([11.0, 5.0, 5.0]),
        segment([-5.0, 5.0, 5.0], [15.0, 5.0, 5.0]),
        segment([-5.0, 5.0, 5.0], [5.0, -5.0, 5.0]),
        segment([-6.0, 5.0, 5.0], [5.0, -6.0, 5.0]),
        segment([-1.0, 0.0, 0.0], [-1.0, 10.0, 10.0]),
        segment([11.0, 5.0, 5.0], [11.0, 5.0, 5.0]),
        upright([10.0, 0.0, 0.0], [12.0, 1.0, 1.0]),
        upright([11.0, 0.0, 0.0], [12.0, 1.0, 1.0]),
        upright([1.0, 0.0, 0.0], [0.0, 1.0, 1.0]),
        turned(0.0),
        turned(-1.0),
    ];
    for (number, verdict) in (1..=12).zip(verdicts) {
        print_case(number, verdict);
    }
}
