// The operations of the crate `matrix`.
use matrix::{matrix_calls, range_calls};
use number::answer::Refusal;
use replay::answer::{put_number, put_verdict};
use replay::inputs::Inputs;

#[derive(Clone, Copy)]
pub(crate) enum MatrixOperation {
    Product,
    Transpose,
    Inverse,
    Transform,
    TransformAffine,
    TransformDirection,
    TransformHomogeneous,
    Determinant,
    IsRightHanded,
}

impl From<u8> for MatrixOperation {
    fn from(number: u8) -> MatrixOperation {
        match number {
            1 => MatrixOperation::Product,
            2 => MatrixOperation::Transpose,
            3 => MatrixOperation::Inverse,
            4 => MatrixOperation::Transform,
            5 => MatrixOperation::TransformAffine,
            6 => MatrixOperation::TransformDirection,
            7 => MatrixOperation::TransformHomogeneous,
            8 => MatrixOperation::Determinant,
            _ => MatrixOperation::IsRightHanded,
        }
    }
}

impl MatrixOperation {
    pub(crate) fn call(self, inputs: Inputs<'_>, out: &mut [f64]) -> Result<(), Refusal> {
        let Inputs { a, b, .. } = inputs;
        match self {
            MatrixOperation::Product => matrix_calls::product(a, b, out),
            MatrixOperation::Transpose => matrix_calls::transpose(a, out),
            MatrixOperation::Inverse => matrix_calls::inverse(a, out),
            MatrixOperation::Transform => matrix_calls::transform(a, b, out),
            MatrixOperation::TransformAffine => matrix_calls::transform_affine(a, b, out),
            MatrixOperation::TransformDirection => matrix_calls::transform_dir(a, b, out),
            MatrixOperation::TransformHomogeneous => matrix_calls::transform_homogeneous(a, b, out),
            MatrixOperation::Determinant => put_number(matrix_calls::determinant3(a), out),
            MatrixOperation::IsRightHanded => put_verdict(matrix_calls::is_right_handed(a), out),
        }
    }
}

#[derive(Clone, Copy)]
pub(crate) enum RangeOperation {
    IsEmpty,
    Union,
    Intersection,
    Midpoint,
    DistanceSquared,
    Transformed,
    Corners,
}

impl From<u8> for RangeOperation {
    fn from(number: u8) -> RangeOperation {
        match number {
            1 => RangeOperation::IsEmpty,
            2 => RangeOperation::Union,
            3 => RangeOperation::Intersection,
            4 => RangeOperation::Midpoint,
            5 => RangeOperation::DistanceSquared,
            6 => RangeOperation::Transformed,
            _ => RangeOperation::Corners,
        }
    }
}

impl RangeOperation {
    pub(crate) fn call(self, inputs: Inputs<'_>, out: &mut [f64]) -> Result<(), Refusal> {
        let Inputs { a, b, .. } = inputs;
        match self {
            RangeOperation::IsEmpty => put_verdict(range_calls::is_empty(a), out),
            RangeOperation::Union => range_calls::union(a, b, out),
            RangeOperation::Intersection => range_calls::intersection(a, b, out),
            RangeOperation::Midpoint => range_calls::midpoint(a, out),
            RangeOperation::DistanceSquared => put_number(range_calls::distance_squared(a, b), out),
            RangeOperation::Transformed => range_calls::transformed(a, b, out),
            RangeOperation::Corners => range_calls::corners(a, out),
        }
    }
}
