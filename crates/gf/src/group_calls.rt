// Several boxes in one slice: combined, or each asked of one view.
ghost use Rattle.std.specs.Prelude.{◌≡◌};
ghost use Rattle.number.specs.Answer.{answered};
ghost use Rattle.group.specs.Group.{group_call};
ghost use Rattle.group.specs.Batch.{intersects_boxes_call};

use number::answer::status;

#[unsafe(no_mangle)]
pub extern "C" fn gf_bbox_combine_group(boxes: &[f64], out: &mut [f64]) -> u32
    ensures { answered result out.new ≡ group_call boxes.now out.old }
{
    status(group::group_calls::combine_group(boxes, out))
}

#[unsafe(no_mangle)]
pub extern "C" fn gf_intersects_bboxes(volume: &[f64], boxes: &[f64], out: &mut [u32]) -> u32
    ensures { answered result out.new ≡ intersects_boxes_call volume.now boxes.now out.old }
{
    status(group::batch::intersects_bboxes(volume, boxes, out))
}
