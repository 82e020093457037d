// Why each block of a farm file has its class: the lines of the program `explain`.
#![tactic(auto)]

pub mod explain;
