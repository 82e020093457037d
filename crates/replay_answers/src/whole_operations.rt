// The operations over whole numbers. A signed 32-bit number is its pattern as a word.
use crate::calls::Unplayed;
use exact::bbox::intersects_bbox;
use number::answer::Refusal;
use number::format::to_bits;
use replay::answer::put_verdict;
use replay::inputs::Inputs;
use replay::words::ROOM;
use whole::segment::intersects_segment;

// The whole number of a pattern of 32 bits, and 0 of a longer one.
fn whole(x: f64) -> i32 {
    match u32::try_from(to_bits(x)) {
        Ok(pattern) => pattern.cast_signed(),
        Err(_) => 0,
    }
}

// Numbers as whole numbers, to the front of a room for them.
fn wholes<'a>(numbers: &[f64], room: &'a mut [i32]) -> Result<&'a [i32], Unplayed> {
    if room.len() < numbers.len() {
        return Err(Unplayed::TooLong);
    }
    let wholes = &mut room[..numbers.len()];
    for (whole_number, number) in wholes.iter_mut().zip(numbers) {
        *whole_number = whole(*number);
    }
    Ok(wholes)
}

// What a slice for a witness holds before a call.
const NO_WITNESS: [i64; 4] = [-1; 4];

// Whether a call left a witness just where it answered yes: a k of at least 1, in a slice that had none. That the witness is in box and view is
// proved, and which it is no record tells.
fn is_witnessed(verdict: Result<bool, Refusal>, witness: &[i64; 4]) -> bool {
    match verdict {
        Ok(true) => 1 <= witness[3],
        _ => *witness == NO_WITNESS,
    }
}

#[derive(Clone, Copy)]
pub(crate) enum WholeOperation {
    Segment,
    BBox,
}

impl From<u8> for WholeOperation {
    fn from(number: u8) -> WholeOperation {
        match number {
            1 => WholeOperation::Segment,
            _ => WholeOperation::BBox,
        }
    }
}

impl WholeOperation {
    pub(crate) fn call(
        self,
        inputs: Inputs<'_>,
        out: &mut [f64],
    ) -> Result<Result<(), Refusal>, Unplayed> {
        let mut view = [0; ROOM];
        let mut first = [0; 8];
        let mut second = [0; 8];
        let view = wholes(inputs.a, &mut view)?;
        let first = wholes(inputs.b, &mut first)?;
        let second = wholes(inputs.c, &mut second)?;
        let verdict = match self {
            WholeOperation::Segment => intersects_segment(view, first, second),
            WholeOperation::BBox => {
                let mut witness = NO_WITNESS;
                let verdict = intersects_bbox(view, first, &mut witness);
                if !is_witnessed(verdict, &witness) {
                    return Err(Unplayed::Witness);
                }
                verdict
            }
        };
        Ok(put_verdict(verdict, out))
    }
}
