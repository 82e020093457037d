// What a farm file comes to: a verdict for each of its boxes, or why it is refused.
ghost use Rattle.std.specs.Prelude.{◌≡◌};
ghost use Rattle.number.specs.Answer.{outcome_of};
ghost use Rattle.farm.specs.FarmFile.{listing, farm_file_call, Judged};
ghost use Rattle.farm.specs.Steps.{JudgedBy};

use crate::directory::{Directory, SLOT_COUNT};
use crate::sections::NUMBERS_ROOM;
use number::answer::Refusal;
use number::limits::LARGEST_FILE;

// How many boxes a file has, the verdict of each to its slot, 1 for a box in view and 0 for one that is not, by the numbers of its sections,
// which go to the front of a room. Those of a refused file say nothing. The slots are numbers, with their count beside them, as C has them.
fn judge_by(file: &[u8], room: &mut [f64; NUMBERS_ROOM], out: &mut [u32]) -> Result<u32, Refusal>
    ensures { JudgedBy file.now out.old (outcome_of result) room.new out.new }
{
    if LARGEST_FILE < file.len() {
        return Err(Refusal::InputLength);
    }
    if out.len() != SLOT_COUNT {
        return Err(Refusal::OutputLength);
    }
    let Some(directory) = Directory::read(file) else {
        return Err(Refusal::Directory);
    };
    let sections = directory.sections()?;
    sections.answer(room, out)
}

// How many boxes a file has, and the numbers of its sections, one behind the other, in front of a room.
#[derive(Clone, Copy)]
pub struct Judgement {
    pub boxes: u32,
    pub numbers: [f64; NUMBERS_ROOM],
}

// The same with its numbers, for what is told of its boxes besides.
pub fn judge(file: &[u8], out: &mut [u32]) -> Result<Judgement, Refusal>
    ensures { Judged file.now out.old result out.new }
{
    let mut numbers = [0.0f64; NUMBERS_ROOM];
    let boxes = judge_by(file, &mut numbers, out)?;
    Ok(Judgement { boxes, numbers })
}

// How many boxes a file has, and the verdict of each to its slot.
pub fn farm_file(file: &[u8], out: &mut [u32]) -> Result<u32, Refusal>
    ensures { listing (outcome_of result) out.new ≡ farm_file_call file.now out.old }
{
    let mut room = [0.0f64; NUMBERS_ROOM];
    judge_by(file, &mut room, out)
}
