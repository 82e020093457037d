// Reads a farm file from standard input to its end, and prints for each box its number, whether it is in view and why; or that the
// file is refused.
// This source stands in further crates too, each for another file at standard input: a program is run on one.
#![tactic(auto)]

use input::{FILE_ROOM, read_whole};
use reason::explain::explain;

fn main() {
    let mut room = [0u8; FILE_ROOM];
    let size = read_whole(&mut room);
    io::write_all(1, explain(&room[..size]).as_slice());
}
