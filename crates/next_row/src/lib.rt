// One row of the run-length table: the units of all states moved on by one point, in one pass, to the last unit.
#![tactic(auto)]

mod flow;
mod inflow;

pub use flow::{Point, next_point};
