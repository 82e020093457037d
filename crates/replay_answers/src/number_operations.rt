// The operations of the crate `number`. A binary32 number is its pattern as a word.
use number::answer::Refusal;
use number::format::{from_bits, from_bits_32, narrow, to_bits, to_bits_32, widen};
use number::grid::grid;
use number::order::{abs, max, min};
use number::root::sqrt;
use number::slice::at;
use replay::answer::put_number;
use replay::inputs::Inputs;

fn narrowed(x: f64) -> f64 {
    from_bits(u64::from(to_bits_32(narrow(x))))
}

fn widened(x: f64) -> Result<f64, Refusal> {
    match u32::try_from(to_bits(x)) {
        Ok(pattern) => Ok(widen(from_bits_32(pattern))),
        Err(_) => Err(Refusal::Kind),
    }
}

#[derive(Clone, Copy)]
pub(crate) enum NumberOperation {
    SquareRoot,
    Absolute,
    Least,
    Greatest,
    Narrow,
    Widen,
    Grid,
}

impl From<u8> for NumberOperation {
    fn from(number: u8) -> NumberOperation {
        match number {
            1 => NumberOperation::SquareRoot,
            2 => NumberOperation::Absolute,
            3 => NumberOperation::Least,
            4 => NumberOperation::Greatest,
            5 => NumberOperation::Narrow,
            7 => NumberOperation::Grid,
            _ => NumberOperation::Widen,
        }
    }
}

impl NumberOperation {
    pub(crate) fn call(self, inputs: Inputs<'_>, out: &mut [f64]) -> Result<(), Refusal> {
        let x = at(inputs.a, 0);
        let y = at(inputs.b, 0);
        match self {
            NumberOperation::SquareRoot => put_number(Ok(sqrt(x)), out),
            NumberOperation::Absolute => put_number(Ok(abs(x)), out),
            NumberOperation::Least => put_number(Ok(min(x, y)), out),
            NumberOperation::Greatest => put_number(Ok(max(x, y)), out),
            NumberOperation::Narrow => put_number(Ok(narrowed(x)), out),
            NumberOperation::Widen => put_number(widened(x), out),
            NumberOperation::Grid => grid(inputs.a, out),
        }
    }
}
