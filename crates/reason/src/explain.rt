// The lines that say why each block of a farm file has its class, as bytes.
ghost use Rattle.std.specs.Prelude.{◌≡◌, ◌*◌, ◌≤◌, length};
ghost use Rattle.number.specs.Limits.{box_length, most_planes};
ghost use Rattle.number.specs.Answer.{outcome_of, outcome};
ghost use Rattle.number.specs.Places.{places_below};
ghost use Rattle.verdict.specs.FrustumCalls.{intersects_box_call};
ghost use Rattle.verdict.specs.PlanesMeaning.{is_set};
ghost use Rattle.farm.specs.Directory.{file_numbers, InFront};
ghost use Rattle.farm.specs.FarmFile.{slot_count};
ghost use Rattle.farm.specs.Text.{Added};
ghost use Rattle.farm.specs.Steps.{FileAnswered};
ghost use Rattle.reason.specs.Lines.{verdict_word, place_words, exact_word};
ghost use Rattle.reason.specs.Explained.{Told, Explained};
ghost use Rattle.reason.specs.Steps.{BehindAdded, LineOf, AllSeen, LinesOf};

use farm::directory::{SLOT_COUNT, section_at};
use farm::farm_file::judge;
use farm::sections::NUMBER_SIZE;
use farm::text::{Text, refused};
use number::answer::Refusal;
use number::limits::{BOX_LENGTH, MOST_PLANES};
use placed::bbox::exact_bbox;
use verdict::bbox::BBox3d;
use verdict::planes_behind_calls::blocking_planes;

// The verdict.
fn push_verdict(text: &mut Text, yes: bool)
    ensures { Added text.old (verdict_word yes) text.new }
{
    text.push(if yes {
        b" yes".as_slice()
    } else {
        b" no".as_slice()
    });
}

// The places of the bits that are set.
fn push_places(text: &mut Text, bits: u32)
    ensures { Added text.old (place_words (places_below most_planes (is_set bits))) text.new }
{
    for place in 0..MOST_PLANES {
        let behind = (bits >> place) % 2 == 1;
        if behind {
            text.push(b" ");
            text.push_decimal(place);
        }
    }
}

// What is told behind the verdict of a box.
fn push_behind(text: &mut Text, yes: bool, volume: &[f64], bbox: &[f64])
    requires { outcome yes ≡ intersects_box_call volume.now bbox.now }
    ensures { BehindAdded volume.now bbox.now yes text.old text.new }
{
    if yes {
        return;
    }
    if BBox3d::from_record(bbox).range.is_empty() {
        text.push(b" empty");
    } else if let Ok(bits) = blocking_planes(volume, bbox) {
        push_places(text, bits);
    }
}

// The exact verdict, where it is another.
fn push_exact(text: &mut Text, yes: bool, exact: Result<bool, Refusal>)
    ensures { Added text.old (exact_word yes (outcome_of exact)) text.new }
{
    match exact {
        Ok(true) if !yes => text.push(b" exact-yes"),
        Ok(false) if yes => text.push(b" exact-no"),
        _ => {}
    }
}

// The line of a section, by the verdict of its box and the records of both.
fn push_box(text: &mut Text, section: u32, yes: bool, volume: &[f64], bbox: &[f64])
    requires { outcome yes ≡ intersects_box_call volume.now bbox.now }
    ensures { LineOf volume.now bbox.now section text.old text.new }
{
    text.push_decimal(section);
    push_verdict(text, yes);
    push_behind(text, yes, volume, bbox);
    push_exact(text, yes, exact_bbox(volume, bbox));
    text.push(b"\n");
}

// The lines of boxes, one behind the other, each with its verdict in a slot. No instance of `lines_of_slots`, whose lines are a formula, while
// these are told by a relation. And the records are cut by their places: with `chunks_exact` the loop's invariant would speak of three iterators.
fn lines_of_boxes(volume: &[f64], boxes: &[f64], slots: &[u32]) -> Text
    requires boxes_len { (length boxes.now ≡ length slots.now * box_length) × (length slots.now ≤ slot_count) }
    requires all_seen { AllSeen volume.now boxes.now slots.now }
    ensures { LinesOf volume.now boxes.now (length slots.now) result }
{
    let mut text = Text::new();
    for (i, slot) in slots.iter().enumerate() {
        let from = i * BOX_LENGTH;
        push_box(
            &mut text,
            i as u32 + 1,
            *slot == 1,
            volume,
            &boxes[from..from + BOX_LENGTH],
        );
    }
    text
}

// The lines of a file that is answered, by its numbers and its slots.
fn lines_of_file(file: &[u8], numbers: &[f64], slots: &[u32]) -> Text
    requires { FileAnswered file.now (length slots.now) slots.now × InFront (file_numbers file.now) numbers.now }
    ensures { Told file.now result }
{
    let (volume, rest) = numbers.split_at(section_at(file, 0).size as usize / NUMBER_SIZE);
    lines_of_boxes(volume, &rest[..slots.len() * BOX_LENGTH], slots)
}

// The lines that a file gives. A refused file gives the line of `farm_file`.
pub fn explain(file: &[u8]) -> Text
    ensures { Explained file.now result }
{
    let mut slots = [0u32; SLOT_COUNT];
    match judge(file, &mut slots) {
        Ok(judgement) => lines_of_file(
            file,
            &judgement.numbers,
            &slots[..judgement.boxes as usize],
        ),
        Err(refusal) => refused(refusal),
    }
}
