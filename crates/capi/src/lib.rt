// The exported functions, for callers in C and Rust: numbers, fixed-size arrays and slices.
#![tactic(auto)]

mod batches;
mod brackets;
mod lists;
mod monitors;
mod plots;
mod reports;
mod shifts;
mod tables;

pub use batches::catrovindy_batch;
pub use brackets::catrovindy_bracket;
pub use lists::{VERSION, catrovindy_check, catrovindy_version};
pub use monitors::{catrovindy_step, catrovindy_zone};
pub use plots::catrovindy_plot;
pub use reports::{catrovindy_monitor_report, catrovindy_table_report, catrovindy_weights_report};
pub use shifts::catrovindy_shift_weights;
pub use tables::catrovindy_table;
