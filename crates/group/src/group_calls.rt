// The operation on groups of boxes, over lent slices.
ghost use Rattle.std.specs.Prelude.{◌≡◌, length};
ghost use Rattle.number.specs.Answer.{reply};
ghost use Rattle.number.specs.Limits.{box_length};
ghost use Rattle.group.specs.Group.{group_call};

use crate::group::{Boxes, MOST_NUMBERS};
use number::answer::Refusal;
use number::limits::BOX_LENGTH;

// The numbers of a record to another's place, one by one: at once they are copied by a call of the C library, which the archive does without.
fn copy_record(from: &[f64], to: &mut [f64])
    requires { (length from.now ≡ box_length) × (length to.old ≡ box_length) }
    ensures { to.new ≡ from.now }
{
    for i in 0..BOX_LENGTH {
        to[i] = from[i];
    }
}

// The size of a group that needs no combining.
const SINGLE: usize = 1;

// One box that holds those of a group, combined left to right. A single box comes back as it is.
pub fn combine_group(boxes: &[f64], out: &mut [f64]) -> Result<(), Refusal>
    ensures { reply result out.new ≡ group_call boxes.now out.old }
{
    if boxes.len() == 0 {
        return Err(Refusal::GroupSize);
    }
    if MOST_NUMBERS < boxes.len() {
        return Err(Refusal::GroupSize);
    }
    if boxes.len() % BOX_LENGTH != 0 {
        return Err(Refusal::InputLength);
    }
    if out.len() != BOX_LENGTH {
        return Err(Refusal::OutputLength);
    }
    let group = Boxes::of(boxes);
    if !group.all_flagged() {
        return Err(Refusal::Kind);
    }
    if group.count == SINGLE {
        copy_record(boxes, out);
        return Ok(());
    }
    group.combine().store(out);
    Ok(())
}
