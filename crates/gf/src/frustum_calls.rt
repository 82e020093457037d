// The verdicts.
ghost use Rattle.std.specs.Prelude.{◌≡◌};
ghost use Rattle.number.specs.Answer.{lone, put_verdict};
ghost use Rattle.verdict.specs.FrustumCalls.{intersects_point_call, intersects_segment_call, intersects_box_call, intersects_triangle_call, view_volume_call};

use number::answer::put_verdict;

#[unsafe(no_mangle)]
pub extern "C" fn gf_intersects_point(volume: &[f64], p: &[f64], out: &mut u32) -> u32
    ensures { lone result out.new ≡ put_verdict (intersects_point_call volume.now p.now) out.old }
{
    put_verdict(verdict::frustum_calls::intersects_point(volume, p), out)
}

#[unsafe(no_mangle)]
pub extern "C" fn gf_intersects_segment(
    volume: &[f64],
    p0: &[f64],
    p1: &[f64],
    out: &mut u32,
) -> u32
    ensures { lone result out.new ≡ put_verdict (intersects_segment_call volume.now p0.now p1.now) out.old }
{
    put_verdict(
        verdict::frustum_calls::intersects_segment(volume, p0, p1),
        out,
    )
}

#[unsafe(no_mangle)]
pub extern "C" fn gf_intersects_bbox(volume: &[f64], bbox: &[f64], out: &mut u32) -> u32
    ensures { lone result out.new ≡ put_verdict (intersects_box_call volume.now bbox.now) out.old }
{
    put_verdict(verdict::frustum_calls::intersects_bbox(volume, bbox), out)
}

#[unsafe(no_mangle)]
pub extern "C" fn gf_intersects_triangle(
    volume: &[f64],
    p0: &[f64],
    p1: &[f64],
    p2: &[f64],
    out: &mut u32,
) -> u32
    ensures { lone result out.new ≡ put_verdict (intersects_triangle_call volume.now p0.now p1.now p2.now) out.old }
{
    put_verdict(
        verdict::frustum_calls::intersects_triangle(volume, p0, p1, p2),
        out,
    )
}

#[unsafe(no_mangle)]
pub extern "C" fn gf_intersects_view_volume(b: &[f64], m: &[f64], out: &mut u32) -> u32
    ensures { lone result out.new ≡ put_verdict (view_volume_call b.now m.now) out.old }
{
    put_verdict(verdict::frustum_calls::intersects_view_volume(b, m), out)
}
