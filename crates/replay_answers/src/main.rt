// Replays answers recorded from Rust. For each operation the program writes how many of its records the crates below agree with, and how
// many it read.
#![tactic(auto)]

mod calls;
mod camera_operations;
mod matrix_operations;
mod number_operations;
mod record;
mod slot_operations;
mod verdict_operations;
mod whole_operations;

use record::replay_all;

fn main() {
    replay_all();
}
