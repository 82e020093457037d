// Reads a view and a projection matrix from standard input to its end, and writes the volume that they make: numbers in the form that a
// farm file has them in; or prints that they are refused.
// This source stands in further crates too, each for another file at standard input: a program is run on one.
#![tactic(auto)]

use input::read_whole;
use view_bytes::camera_view::{MATRICES_SIZE, camera_view};

fn main() {
    // one byte more than two matrices have: what is longer need not be kept to be told
    let mut room = [0u8; MATRICES_SIZE + 1];
    let size = read_whole(&mut room);
    io::write_all(1, camera_view(&room[..size]).as_slice());
}
