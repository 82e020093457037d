// Standard input, for a program that answers one file.
#![tactic(auto)]

ghost use Rattle.io.specs.Counts.{IsPrefixLen};

use number::limits::LARGEST_FILE;

// Room for a farm file: one byte more than the largest has, since what is longer need not be kept to be told.
pub const FILE_ROOM: usize = LARGEST_FILE + 1;

// Reads on, and answers whether there was more.
fn passes_more() -> bool {
    let mut bytes = io::large_buffer();
    0 < io::read_full(0, &mut bytes)
}

// Reads standard input to its end, as much as there is room for to the front of a room; answers how many bytes that are.
pub fn read_whole(room: &mut [u8]) -> usize
    ensures { IsPrefixLen result room.new }
{
    let size = io::read_full(0, room);
    for _ in 0..u64::MAX {
        if !passes_more() {
            break;
        }
    }
    size
}
