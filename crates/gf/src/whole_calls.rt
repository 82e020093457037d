// The verdicts over whole numbers.
ghost use Rattle.std.specs.Prelude.{◌≡◌};
ghost use Rattle.number.specs.Answer.{lone, put_verdict};
ghost use Rattle.exact.specs.BBoxCall.{WholeBoxPut};
ghost use Rattle.whole.specs.SegmentCall.{whole_segment_call};

use number::answer::put_verdict;

#[unsafe(no_mangle)]
pub extern "C" fn gf_whole_intersects_segment(
    view: &[i32],
    p0: &[i32],
    p1: &[i32],
    out: &mut u32,
) -> u32
    ensures { lone result out.new ≡ put_verdict (whole_segment_call view.now p0.now p1.now) out.old }
{
    put_verdict(whole::segment::intersects_segment(view, p0, p1), out)
}

#[unsafe(no_mangle)]
pub extern "C" fn gf_whole_intersects_bbox(
    view: &[i32],
    bounds: &[i32],
    witness: &mut [i64],
    out: &mut u32,
) -> u32
    ensures { WholeBoxPut view.now bounds.now witness.old out.old (lone result out.new) witness.new }
{
    put_verdict(exact::bbox::intersects_bbox(view, bounds, witness), out)
}
