// A segment engine over signed 32-bit whole numbers, which compares its crossings as fractions. It makes no float operation.
#![tactic(auto)]

mod fraction;
pub mod segment;
pub mod view;
