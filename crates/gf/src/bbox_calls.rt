// The operations on boxes.
ghost use Rattle.std.specs.Prelude.{◌≡◌};
ghost use Rattle.number.specs.Answer.{answered, lone, put};
ghost use Rattle.verdict.specs.BBoxCalls.{combine_call, transform_box_call, volume_call, aligned_range_call, centroid_call};

use number::answer::{put, status};

#[unsafe(no_mangle)]
pub extern "C" fn gf_bbox_combine(a: &[f64], b: &[f64], out: &mut [f64]) -> u32
    ensures { answered result out.new ≡ combine_call a.now b.now out.old }
{
    status(verdict::bbox_calls::combine(a, b, out))
}

#[unsafe(no_mangle)]
pub extern "C" fn gf_bbox_transform(b: &[f64], m: &[f64], out: &mut [f64]) -> u32
    ensures { answered result out.new ≡ transform_box_call b.now m.now out.old }
{
    status(verdict::bbox_calls::transform(b, m, out))
}

#[unsafe(no_mangle)]
pub extern "C" fn gf_bbox_volume(b: &[f64], out: &mut f64) -> u32
    ensures { lone result out.new ≡ put (volume_call b.now) out.old }
{
    put(verdict::bbox_calls::volume(b), out)
}

#[unsafe(no_mangle)]
pub extern "C" fn gf_bbox_aligned_range(b: &[f64], out: &mut [f64]) -> u32
    ensures { answered result out.new ≡ aligned_range_call b.now out.old }
{
    status(verdict::bbox_calls::aligned_range(b, out))
}

#[unsafe(no_mangle)]
pub extern "C" fn gf_bbox_centroid(b: &[f64], out: &mut [f64]) -> u32
    ensures { answered result out.new ≡ centroid_call b.now out.old }
{
    status(verdict::bbox_calls::centroid(b, out))
}
