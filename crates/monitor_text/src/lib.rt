// The monitor program's text: a chart line, rule lines, and point lines to the end.
#![tactic(auto)]

mod monitors;

pub use monitors::{MonitorText, monitor_text};

// The number of nodes of a bench: 0 to 15.
pub const NODES: u32 = 16;

// The fewest bytes of a point line: `point`, two commas, each with a digit, LF.
pub const MIN_POINT: usize = 5 + 2 * 2 + 1;
