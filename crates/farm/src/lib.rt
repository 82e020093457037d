// The farm file: the view and the boxes of one application in one string of bytes.
#![tactic(auto)]

pub mod directory;
pub mod farm_file;
pub mod lines;
pub mod sections;
pub mod text;
