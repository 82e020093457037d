// The directory of a farm file: a count of sections, then where each begins and how many bytes it has.
ghost use Rattle.std.specs.Prelude.{◌≡◌, true, false, ◌≤◌, length, MatchOption};
ghost use Rattle.number.specs.Limits.{most_sections};
ghost use Rattle.farm.specs.Directory.{section_count, section_at, sections_from, directory_end, end_of, in_order, well_formed};

use number::bytes::word_32;
use number::limits::{FEWEST_SECTIONS, MOST_SECTIONS};

// The bytes of a count, an offset or a length, and of what the directory says of a section.
const WORD_SIZE: usize = 4;

const ENTRY_SIZE: usize = 2 * WORD_SIZE;

// A slot for each box that a file can have.
pub const SLOT_COUNT: usize = MOST_SECTIONS - 1;

#[derive(Clone, Copy)]
pub struct Section {
    pub offset: u32,
    pub size: u32,
}

impl Section {
    // Just behind its last byte: a sum that may have more than 32 bits.
    fn end(self) -> usize
        ensures { result ≡ end_of self }
    {
        self.offset as usize + self.size as usize
    }
}

// Where the directory says something of a section, and where a directory of so many sections ends.
fn entry_at(i: u32) -> usize
    ensures { result ≡ directory_end i }
{
    WORD_SIZE + ENTRY_SIZE * i as usize
}

// Where a section lies, by the directory; zeros where the file is too short to say.
pub fn section_at(file: &[u8], i: u32) -> Section
    ensures { result ≡ section_at file.now i }
{
    let entry = entry_at(i);
    Section {
        offset: word_32(file, entry),
        size: word_32(file, entry + WORD_SIZE),
    }
}

// Whether no section starts before the end of the directory or of the section before it, or passes the end of the file.
fn in_order(file: &[u8], count: u32) -> bool
    requires { count ≤ most_sections }
    ensures { result ≡ in_order (directory_end count) (length file.now) (sections_from file.now 0 count) }
{
    let mut from = entry_at(count);
    for i in 0..count {
        let section = section_at(file, i);
        if (section.offset as usize) < from {
            return false;
        }
        let end = section.end();
        if file.len() < end {
            return false;
        }
        from = end;
    }
    true
}

fn is_well_formed(file: &[u8]) -> bool
    ensures { result ≡ well_formed file.now }
{
    if file.len() < WORD_SIZE {
        return false;
    }
    let sections = word_32(file, 0);
    let count = sections as usize;
    if count < FEWEST_SECTIONS {
        return false;
    }
    if MOST_SECTIONS < count {
        return false;
    }
    if file.len() < entry_at(sections) {
        return false;
    }
    in_order(file, sections)
}

// A well-formed farm file, and how many sections it has.
#[derive(Clone, Copy)]
pub struct Directory<'a> {
    pub file: &'a [u8],
    pub count: u32,
    ghost counted: { count ≡ section_count file.now },
    ghost formed: { well_formed file.now ≡ true },
}

impl<'a> Directory<'a> {
    // What the bytes say, if they are well formed.
    pub fn read(file: &'a [u8]) -> Option<Directory<'a>>
        ensures { MatchOption result (well_formed file.now ≡ false) (λ d. d.file.now ≡ file.now) }
    {
        if !is_well_formed(file) {
            return None;
        }
        let count = word_32(file, 0);
        Some(Directory { file, count })
    }

    pub fn section(&self, i: u32) -> Section
        ensures { result ≡ section_at self.now.file.now i }
    {
        section_at(self.file, i)
    }
}
