// The operations on boxes, planes and rays, and the lone verdicts.
use group::group_calls;
use number::answer::Refusal;
use number::slice::at;
use placed::bbox::exact_bbox;
use replay::answer::{put_number, put_verdict};
use replay::inputs::Inputs;
use verdict::{bbox_calls, frustum_calls, plane_calls, ray_calls};

#[derive(Clone, Copy)]
pub(crate) enum BBoxOperation {
    Combine,
    Transform,
    Volume,
    AlignedRange,
    Centroid,
    CombineGroup,
}

impl From<u8> for BBoxOperation {
    fn from(number: u8) -> BBoxOperation {
        match number {
            1 => BBoxOperation::Combine,
            2 => BBoxOperation::Transform,
            3 => BBoxOperation::Volume,
            4 => BBoxOperation::AlignedRange,
            5 => BBoxOperation::Centroid,
            _ => BBoxOperation::CombineGroup,
        }
    }
}

impl BBoxOperation {
    pub(crate) fn call(self, inputs: Inputs<'_>, out: &mut [f64]) -> Result<(), Refusal> {
        let Inputs { a, b, .. } = inputs;
        match self {
            BBoxOperation::Combine => bbox_calls::combine(a, b, out),
            BBoxOperation::Transform => bbox_calls::transform(a, b, out),
            BBoxOperation::Volume => put_number(bbox_calls::volume(a), out),
            BBoxOperation::AlignedRange => bbox_calls::aligned_range(a, out),
            BBoxOperation::Centroid => bbox_calls::centroid(a, out),
            BBoxOperation::CombineGroup => group_calls::combine_group(a, out),
        }
    }
}

#[derive(Clone, Copy)]
pub(crate) enum PlaneOperation {
    New,
    FromPoints,
    FromEquation,
    Distance,
    OnPositiveSide,
    Transformed,
}

impl From<u8> for PlaneOperation {
    fn from(number: u8) -> PlaneOperation {
        match number {
            1 => PlaneOperation::New,
            2 => PlaneOperation::FromPoints,
            3 => PlaneOperation::FromEquation,
            4 => PlaneOperation::Distance,
            5 => PlaneOperation::OnPositiveSide,
            _ => PlaneOperation::Transformed,
        }
    }
}

impl PlaneOperation {
    pub(crate) fn call(self, inputs: Inputs<'_>, out: &mut [f64]) -> Result<(), Refusal> {
        let Inputs { a, b, c, .. } = inputs;
        match self {
            PlaneOperation::New => plane_calls::new(a, at(b, 0), out),
            PlaneOperation::FromPoints => plane_calls::from_points(a, b, c, out),
            PlaneOperation::FromEquation => plane_calls::from_equation(a, out),
            PlaneOperation::Distance => put_number(plane_calls::distance(a, b), out),
            PlaneOperation::OnPositiveSide => put_verdict(plane_calls::on_positive_side(a, b), out),
            PlaneOperation::Transformed => plane_calls::transformed(a, b, out),
        }
    }
}

#[derive(Clone, Copy)]
pub(crate) enum RayOperation {
    Point,
    Transformed,
    IntersectPlane,
    IntersectTriangle,
}

impl From<u8> for RayOperation {
    fn from(number: u8) -> RayOperation {
        match number {
            1 => RayOperation::Point,
            2 => RayOperation::Transformed,
            3 => RayOperation::IntersectPlane,
            _ => RayOperation::IntersectTriangle,
        }
    }
}

impl RayOperation {
    pub(crate) fn call(self, inputs: Inputs<'_>, out: &mut [f64]) -> Result<(), Refusal> {
        let Inputs { a, b, c, d } = inputs;
        match self {
            RayOperation::Point => ray_calls::point(a, at(b, 0), out),
            RayOperation::Transformed => ray_calls::transformed(a, b, out),
            RayOperation::IntersectPlane => ray_calls::intersect_plane(a, b, out),
            RayOperation::IntersectTriangle => ray_calls::intersect_triangle(a, b, c, d, out),
        }
    }
}

#[derive(Clone, Copy)]
pub(crate) enum VerdictOperation {
    Point,
    Segment,
    Triangle,
    BBox,
    ViewVolume,
    ExactBBox,
}

impl From<u8> for VerdictOperation {
    fn from(number: u8) -> VerdictOperation {
        match number {
            1 => VerdictOperation::Point,
            2 => VerdictOperation::Segment,
            3 => VerdictOperation::Triangle,
            4 => VerdictOperation::BBox,
            5 => VerdictOperation::ViewVolume,
            _ => VerdictOperation::ExactBBox,
        }
    }
}

impl VerdictOperation {
    pub(crate) fn call(self, inputs: Inputs<'_>, out: &mut [f64]) -> Result<(), Refusal> {
        let Inputs { a, b, c, d } = inputs;
        let verdict = match self {
            VerdictOperation::Point => frustum_calls::intersects_point(a, b),
            VerdictOperation::Segment => frustum_calls::intersects_segment(a, b, c),
            VerdictOperation::Triangle => frustum_calls::intersects_triangle(a, b, c, d),
            VerdictOperation::BBox => frustum_calls::intersects_bbox(a, b),
            VerdictOperation::ViewVolume => frustum_calls::intersects_view_volume(a, b),
            VerdictOperation::ExactBBox => exact_bbox(a, b),
        };
        put_verdict(verdict, out)
    }
}
