// What a replay of recorded answers stands on: the words of a record, the inputs of a call, what it answers, and
// the comparison. What reads and prints is in the program, since no equation can say it.
#![tactic(auto)]

pub mod answer;
pub mod inputs;
pub mod lengths;
pub mod same;
pub mod trials;
pub mod words;
