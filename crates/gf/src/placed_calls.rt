// The exact verdict on a box, by the records of a volume and a box.
ghost use Rattle.number.specs.Answer.{lone};
ghost use Rattle.placed.specs.BBoxCall.{ExactBoxPut};

use number::answer::put_verdict;

#[unsafe(no_mangle)]
pub extern "C" fn gf_exact_bbox(volume: &[f64], bbox: &[f64], out: &mut u32) -> u32
    ensures { ExactBoxPut volume.now bbox.now out.old (lone result out.new) }
{
    put_verdict(placed::bbox::exact_bbox(volume, bbox), out)
}
