// The rows of the run-length table of a chain of states, to the last unit.
#![tactic(auto)]

mod rows;

pub use rows::{Totals, run_rows};
