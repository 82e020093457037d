// The lines that a farm file gives, as bytes.
ghost use Rattle.std.specs.Prelude.{◌≡◌, map, ◌≤◌, length};
ghost use Rattle.farm.specs.FarmFile.{slot_count, farm_file};
ghost use Rattle.farm.specs.Text.{lines_from, Added};
ghost use Rattle.farm.specs.Lines.{line, lines_of};
ghost use Rattle.farm.specs.Steps.{is_yes};

use crate::directory::SLOT_COUNT;
use crate::farm_file::farm_file;
use crate::text::{Text, refused};

// The line of a box.
fn push_line(text: &mut Text, section: u32, yes: bool)
    ensures { Added text.old (line section yes) text.new }
{
    text.push_decimal(section);
    text.push(if yes {
        b" yes\n".as_slice()
    } else {
        b" no\n".as_slice()
    });
}

// The lines of boxes, by their slots.
fn lines_of_slots(slots: &[u32]) -> Text
    requires { length slots.now ≤ slot_count }
    ensures { result ≡ lines_from line 1 (map is_yes slots.now) }
{
    let mut text = Text::new();
    for (i, slot) in slots.iter().enumerate() {
        push_line(&mut text, i as u32 + 1, *slot == 1);
    }
    text
}

// The lines that a file gives.
pub fn lines(file: &[u8]) -> Text
    ensures { result ≡ lines_of (farm_file file.now) }
{
    let mut slots = [0u32; SLOT_COUNT];
    match farm_file(file, &mut slots) {
        Ok(boxes) => lines_of_slots(&slots[..boxes as usize]),
        Err(refusal) => refused(refusal),
    }
}
