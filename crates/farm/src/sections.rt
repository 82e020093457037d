// The sections of a well-formed farm file: their sizes and numbers, and whether each box is in view.
ghost use Rattle.std.specs.Prelude.{◌≡◌, true, ◌++◌, ◌/◌, ◌<◌, ◌≤◌, length, take, drop, MatchResult};
ghost use Rattle.number.specs.Answer.{outcome_of, outcome, refused, number_of};
ghost use Rattle.verdict.specs.View.{is_count};
ghost use Rattle.farm.specs.Directory.{section_count, section_at, numbers_of, file_numbers, InFront};
ghost use Rattle.farm.specs.FarmFile.{count_number, plane_count, boxes_sized, sized, slot_count, listing, listed, sized_planes};
ghost use Rattle.farm.specs.Steps.{boxes_seen};

use crate::directory::{Directory, SLOT_COUNT};
use group::batch::intersects_bboxes;
use number::answer::Refusal;
use number::bytes::{load, number_at};
use number::limits::{BOX_LENGTH, FEWEST_PLANES, MOST_PLANES, PLANE_LENGTH, RAY_LENGTH};
use number::slots::clear;
use verdict::view::{plane_count_of, volume_length};

// The bytes of a number.
pub const NUMBER_SIZE: usize = 8;

// The bytes of a box.
const BOX_SIZE: u32 = NUMBER_SIZE as u32 * BOX_LENGTH as u32;

// Room for the volume of any file: a count, the most planes and four rays.
const VOLUME_ROOM: usize = 1 + MOST_PLANES as usize * PLANE_LENGTH + 4 * RAY_LENGTH;

// Room for the numbers of any file: those of the volume, and those of the most boxes. No list that is pushed to, since each section is loaded
// straight to its place.
pub const NUMBERS_ROOM: usize = VOLUME_ROOM + SLOT_COUNT * BOX_LENGTH;

// A file whose sections have as many bytes as their records each, and how many planes its volume has.
#[derive(Clone, Copy)]
pub struct Sections<'a> {
    directory: Directory<'a>,
    planes: u32,
    ghost count: { is_count (count_number directory.file.now) ≡ true },
    ghost sizes: { sized directory.file.now ≡ true },
    ghost counted: { planes ≡ plane_count directory.file.now },
}

impl<'a> Directory<'a> {
    // Whether each section behind the volume's has as many bytes as a box.
    fn are_boxes(&self) -> bool
        ensures { result ≡ boxes_sized self.now.file.now }
    {
        for i in 1..self.count {
            if self.section(i).size != BOX_SIZE {
                return false;
            }
        }
        true
    }

    // The sections, by the number in front of the volume, which says how many planes there are.
    pub fn sections(&self) -> Result<Sections<'a>, Refusal>
        ensures { let b = self.now.file.now in MatchResult result
            (λ s. (outcome s.planes ≡ sized_planes b) × (s.directory.file.now ≡ b))
            (λ r. refused (number_of r) ≡ sized_planes b) }
    {
        let volume = self.section(0);
        let size = volume.size as usize;
        if size < NUMBER_SIZE * volume_length(FEWEST_PLANES) {
            return Err(Refusal::SectionLength);
        }
        let start = volume.offset as usize;
        let planes = plane_count_of(number_at(self.file, start))?;
        if size != NUMBER_SIZE * volume_length(planes) {
            return Err(Refusal::SectionLength);
        }
        if !self.are_boxes() {
            return Err(Refusal::SectionLength);
        }
        Ok(Sections {
            directory: *self,
            planes,
        })
    }

    // The numbers of a section to the front of a room; answers how many they are.
    fn load_section(&self, i: u32, room: &mut [f64]) -> usize
        requires { let b = self.now.file.now in (i < section_count b) × ((section_at b i).size / 8 ≤ length room.old) }
        ensures { let b = self.now.file.now in (result ≡ (section_at b i).size / 8) × (room.new ≡ numbers_of b (section_at b i) ++ drop ((section_at b i).size / 8) room.old) }
    {
        let found = self.section(i);
        let size = found.size as usize;
        let start = found.offset as usize;
        let count = size / NUMBER_SIZE;
        load(self.file, start, &mut room[..count]);
        count
    }

    // The numbers of all sections, one behind the other, to the front of a room; answers how many they are.
    fn load(&self, room: &mut [f64]) -> usize
        requires { length (file_numbers self.now.file.now) ≤ length room.old }
        ensures { (length room.new ≡ length room.old) × (result ≤ length room.new) × (take result room.new ≡ file_numbers self.now.file.now) }
    {
        let mut taken: usize = 0;
        for i in 0..self.count {
            taken += self.load_section(i, &mut room[taken..]);
        }
        taken
    }
}

impl<'a> Sections<'a> {
    // What the file comes to, by the numbers of all its sections: its boxes are a batch, and a slot without a box is cleared.
    fn answer_by(&self, numbers: &[f64], out: &mut [u32]) -> Result<u32, Refusal>
        requires { (numbers.now ≡ file_numbers self.now.directory.file.now) × (length out.old ≡ slot_count) }
        ensures { listing (outcome_of result) out.new ≡ listed (boxes_seen self.now.directory.file.now) out.old }
    {
        let size = volume_length(self.planes);
        let count = self.directory.count - 1;
        let boxes = count as usize;
        intersects_bboxes(&numbers[..size], &numbers[size..], &mut out[..boxes])?;
        clear(&mut out[boxes..]);
        Ok(count)
    }

    // What the file comes to, and the numbers of its sections to the front of a room.
    pub(crate) fn answer(
        &self,
        room: &mut [f64; NUMBERS_ROOM],
        out: &mut [u32],
    ) -> Result<u32, Refusal>
        requires { length out.old ≡ slot_count }
        ensures { let b = self.now.directory.file.now in (listing (outcome_of result) out.new ≡ listed (boxes_seen b) out.old) × InFront (file_numbers b) room.new }
    {
        let taken = self.directory.load(room);
        self.answer_by(&room[..taken], out)
    }
}
