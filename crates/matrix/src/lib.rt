// Vectors, matrices and ranges: row vectors, and matrices held row by row.
#![tactic(auto)]

pub mod inverse;
pub mod matrix;
pub mod matrix_calls;
pub mod range;
pub mod range_calls;
pub mod record;
pub mod vec;
