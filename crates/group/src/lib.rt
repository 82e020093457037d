// Several box records in one slice: combined into one box, or each asked of one view.
#![tactic(auto)]

pub mod batch;
pub mod group;
pub mod group_calls;
