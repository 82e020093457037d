// A batch: many boxes, each asked of one view, of which the record is tested and its planes are gathered once.
ghost use Rattle.std.specs.Prelude.{◌≡◌, length};
ghost use Rattle.number.specs.Limits.{box_length};
ghost use Rattle.number.specs.Answer.{reply};
ghost use Rattle.number.specs.Records.{records};
ghost use Rattle.verdict.specs.Rows.{planes_in_rows};
ghost use Rattle.group.specs.Batch.{slots_by, intersects_boxes_call};

use crate::group::Boxes;
use number::answer::Refusal;
use number::limits::BOX_LENGTH;
use number::slice::all_finite;
use verdict::frustum::box_in_view;
use verdict::rows::Rows;
use verdict::view::{Lent, View};

// Whether each box is in view, by the planes of the rows: 1 or 0 to its slot.
fn answer(rows: &Rows, boxes: Boxes, out: &mut [u32])
    requires { length out.old ≡ boxes.count }
    ensures { out.new ≡ slots_by (planes_in_rows rows.now.numbers rows.now.count) (records box_length boxes.entry.count boxes.entry.numbers.now) }
{
    for i in 0..out.len() {
        out[i] = u32::from(box_in_view(rows, boxes.record(i)));
    }
}

// Whether each of some boxes is in the view, 1 or 0 to its slot.
pub fn intersects_bboxes(volume: &[f64], boxes: &[f64], out: &mut [u32]) -> Result<(), Refusal>
    ensures { reply result out.new ≡ intersects_boxes_call volume.now boxes.now out.old }
{
    if boxes.len() == 0 {
        return Err(Refusal::InputLength);
    }
    if boxes.len() % BOX_LENGTH != 0 {
        return Err(Refusal::InputLength);
    }
    let group = Boxes::of(boxes);
    let view = View::checked(
        volume,
        Lent {
            room: out.len() == group.count,
            flags: group.all_flagged(),
            finite: all_finite(boxes),
        },
    )?;
    let mut rows = Rows::NONE;
    rows.gather(view.planes);
    answer(&rows, group, out);
    Ok(())
}
