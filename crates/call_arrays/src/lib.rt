// Answers as codes, and in the arrays that a caller lends: what the exported functions are made of.
#![tactic(auto)]

mod batches;
mod brackets;
mod reports;
mod steps;

pub use batches::{batch_code, write_batch};
pub use brackets::write_bracket;
pub use reports::report_code;
pub use steps::write_step;
