// A volume from the matrices of a view and of a projection. Their product brings points into clip space, and a point is seen where x, y and
// z lie from −w to w there.
ghost use Rattle.std.specs.Prelude.{◌≡◌, true, false};
ghost use Rattle.std.specs.Float.Ieee.{neg};
ghost use Rattle.number.specs.Answer.{reply};
ghost use Rattle.volume.specs.Volume.{side, edge, numbers, from_matrices_call};

use matrix::matrix::Mat4d;
use matrix::vec::{Vec3d, Vec4d};
use number::answer::Refusal;
use number::limits::{FEWEST_PLANES, MATRIX_LENGTH};
use number::slice;
use verdict::plane::Plane;
use verdict::ray::Ray;
use verdict::view::volume_length;

// The plane whose equation has the sums of two columns, or what else they come to number by number.
fn by_columns<F: Fn(f64, f64) -> f64>(w: Vec4d, column: Vec4d, joined: F) -> Plane
    requires { F.IsAlwaysCallable joined }
    ensures along { F.post joined w.x column.x result.normal.x × F.post joined w.y column.y result.normal.y × F.post joined w.z column.z result.normal.z }
    ensures distance { (last : _) × F.post joined w.w column.w last × (result.distance ≡ neg last) }
{
    Plane {
        normal: Vec3d {
            x: joined(w.x, column.x),
            y: joined(w.y, column.y),
            z: joined(w.z, column.z),
        },
        distance: -joined(w.w, column.w),
    }
}

// The plane from which on a coordinate is at least −w, by the columns of w and of the coordinate.
fn at_least(w: Vec4d, column: Vec4d) -> Plane
    ensures { result ≡ side false w column }
{
    by_columns(w, column, |w, x| w + x)
}

// The plane from which on it is at most w.
fn at_most(w: Vec4d, column: Vec4d) -> Plane
    ensures { result ≡ side true w column }
{
    by_columns(w, column, |w, x| w - x)
}

// The ray along an edge of the volume, at x and y in clip space, from the near plane on. The inverse brings it back from there.
#[tactic(auto, using(matrix::proofs::Literals::zero_bits, matrix::proofs::Literals::one_bits))]
fn edge(inverse: Mat4d, x: f64, y: f64) -> Ray
    ensures { result ≡ edge inverse x y }
{
    let start = inverse.transform(Vec3d { x, y, z: -1.0 });
    let ahead = inverse.transform(Vec3d { x, y, z: 0.0 });
    Ray {
        start,
        direction: ahead.sub(start).normalize(),
    }
}

// The numbers of the volume whose points a matrix brings into clip space, in the order of its record.
fn numbers(matrix: Mat4d, inverse: Mat4d) -> [f64; 49]
    ensures { result ≡ numbers matrix inverse }
{
    let columns = matrix.transpose();
    let left = at_least(columns.r3, columns.r0);
    let right = at_most(columns.r3, columns.r0);
    let bottom = at_least(columns.r3, columns.r1);
    let top = at_most(columns.r3, columns.r1);
    let near = at_least(columns.r3, columns.r2);
    let far = at_most(columns.r3, columns.r2);
    let left_bottom = edge(inverse, -1.0, -1.0);
    let left_top = edge(inverse, -1.0, 1.0);
    let right_top = edge(inverse, 1.0, 1.0);
    let right_bottom = edge(inverse, 1.0, -1.0);
    let planes = [
        left.numbers(),
        right.numbers(),
        bottom.numbers(),
        top.numbers(),
        near.numbers(),
        far.numbers(),
    ];
    let rays = [
        left_bottom.numbers(),
        left_top.numbers(),
        right_top.numbers(),
        right_bottom.numbers(),
    ];
    // the count stays in front
    let mut all = [f64::from(FEWEST_PLANES); 49];
    slice::store_at(planes.as_flattened(), &mut all, 1);
    slice::store_at(rays.as_flattened(), &mut all, 25);
    all
}

// The volume of a view and a projection, into a slice for a record of the fewest planes. It is refused as singular where their product has no
// inverse, and as not finite where one of its own numbers is not.
#[tactic(auto, unfolding(crate::specs::Volume::from_matrices_call, crate::specs::Volume::clip_volume, crate::specs::Volume::finite_only, number::specs::Answer::leaving))]
pub fn from_view_and_projection(
    view: &[f64],
    projection: &[f64],
    out: &mut [f64],
) -> Result<(), Refusal>
    ensures { reply result out.new ≡ from_matrices_call view.now projection.now out.old }
{
    if view.len() != MATRIX_LENGTH {
        return Err(Refusal::InputLength);
    }
    if projection.len() != MATRIX_LENGTH {
        return Err(Refusal::InputLength);
    }
    if out.len() != volume_length(FEWEST_PLANES) {
        return Err(Refusal::OutputLength);
    }
    let product = Mat4d::load(view).product(Mat4d::load(projection));
    let inverse = product.inverse().ok_or(Refusal::Singular)?;
    let all = numbers(product, inverse);
    if !slice::all_finite(&all) {
        return Err(Refusal::NotFinite);
    }
    slice::store(&all, out);
    Ok(())
}
