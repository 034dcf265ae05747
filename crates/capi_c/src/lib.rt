// The static library for callers in C and Rust: each function under its name and by the C calling convention. Each is the function of `capi` of that
// name, and promises what that one promises.
#![tactic(auto)]

mod batches;
mod brackets;
mod lists;
mod monitors;
mod plots;
mod reports;
mod shifts;
mod tables;

pub use batches::catrovindy_batch;
pub use brackets::catrovindy_bracket;
pub use lists::{catrovindy_check, catrovindy_version};
pub use monitors::{catrovindy_step, catrovindy_zone};
pub use plots::catrovindy_plot;
pub use reports::{catrovindy_monitor_report, catrovindy_table_report, catrovindy_weights_report};
pub use shifts::catrovindy_shift_weights;
pub use tables::catrovindy_table;
