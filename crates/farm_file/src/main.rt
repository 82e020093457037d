// Reads a farm file from standard input to its end, and prints its lines: for each box its number and whether it is in view, or
// that the file is refused.
// This source stands in further crates too, each for another file at standard input: a program is run on one.
#![tactic(auto)]

use farm::lines::lines;
use input::{FILE_ROOM, read_whole};

fn main() {
    let mut room = [0u8; FILE_ROOM];
    let size = read_whole(&mut room);
    io::write_all(1, lines(&room[..size]).as_slice());
}
