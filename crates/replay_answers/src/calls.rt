// The operations, by the families that records number.
use crate::camera_operations::CameraOperation;
use crate::matrix_operations::{MatrixOperation, RangeOperation};
use crate::number_operations::NumberOperation;
use crate::slot_operations::{PlaceOperation, SlotsOperation};
use crate::verdict_operations::{BBoxOperation, PlaneOperation, RayOperation, VerdictOperation};
use crate::whole_operations::WholeOperation;
use number::answer::Refusal;
use replay::inputs::Inputs;

// Why a call is none that a record can have: numbers that do not fit where they are put, or a witness that was not left as it must be.
#[derive(Clone, Copy)]
pub(crate) enum Unplayed {
    TooLong,
    Witness,
}

#[derive(Clone, Copy)]
pub(crate) enum Operation {
    Number(NumberOperation),
    Matrix(MatrixOperation),
    Range(RangeOperation),
    BBox(BBoxOperation),
    Plane(PlaneOperation),
    Ray(RayOperation),
    Camera(CameraOperation),
    Verdict(VerdictOperation),
    Whole(WholeOperation),
    Place(PlaceOperation),
    Slots(SlotsOperation),
}

// The number of a family, and that of an operation there. Each match takes a number that it does not name for the one it ends with.
impl From<[u8; 2]> for Operation {
    fn from(numbers: [u8; 2]) -> Operation {
        let [family, operation] = numbers;
        match family {
            1 => Operation::Number(operation.into()),
            2 => Operation::Matrix(operation.into()),
            3 => Operation::Range(operation.into()),
            4 => Operation::BBox(operation.into()),
            5 => Operation::Plane(operation.into()),
            6 => Operation::Ray(operation.into()),
            7 => Operation::Camera(operation.into()),
            8 => Operation::Verdict(operation.into()),
            9 => Operation::Whole(operation.into()),
            10 => Operation::Place(operation.into()),
            _ => Operation::Slots(operation.into()),
        }
    }
}

impl Operation {
    // Calls it. Each family matches over its operations, since these take inputs of different numbers and kinds: in a
    // table of functions each would need a closure of its own, that says no more than its arm.
    pub(crate) fn call(
        self,
        inputs: Inputs<'_>,
        out: &mut [f64],
    ) -> Result<Result<(), Refusal>, Unplayed> {
        Ok(match self {
            Operation::Number(operation) => operation.call(inputs, out),
            Operation::Matrix(operation) => operation.call(inputs, out),
            Operation::Range(operation) => operation.call(inputs, out),
            Operation::BBox(operation) => operation.call(inputs, out),
            Operation::Plane(operation) => operation.call(inputs, out),
            Operation::Ray(operation) => operation.call(inputs, out),
            Operation::Camera(operation) => operation.call(inputs, out),
            Operation::Verdict(operation) => operation.call(inputs, out),
            Operation::Whole(operation) => operation.call(inputs, out)?,
            Operation::Place(operation) => operation.call(inputs, out),
            Operation::Slots(operation) => operation.call(inputs, out),
        })
    }
}
