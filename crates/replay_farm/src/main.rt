// Replays recorded farm files, one behind the other on standard input: 32 bits that say how many bytes a file has, the low byte
// first, and its bytes. For each the program prints its place, its lines and its explained lines.
#![tactic(auto)]

use farm::lines::lines;
use input::FILE_ROOM;
use number::bytes::word_32;
use reason::explain::explain;

fn print_place(place: u64) {
    io::write_all(1, b"file ");
    io::print_decimal(1, place);
    io::write_all(1, b"\n");
}

// Reads a file of so many bytes and prints its lines, if there is room for it.
fn replay_file(place: u64, room: &mut [u8], size: usize) {
    if room.len() < size {
        return;
    }
    let file = &mut room[..size];
    io::read_full(0, file);
    print_place(place);
    io::write_all(1, lines(file).as_slice());
    io::write_all(1, explain(file).as_slice());
}

// Replays the next file, and answers whether there was one.
fn replay_next(place: u64) -> bool {
    let mut head = [0u8; 4];
    if io::read_full(0, &mut head) < head.len() {
        return false;
    }
    let mut room = [0u8; FILE_ROOM];
    replay_file(place, &mut room, word_32(&head, 0) as usize);
    true
}

fn main() {
    for place in 1..u64::MAX {
        if !replay_next(place) {
            break;
        }
    }
}
