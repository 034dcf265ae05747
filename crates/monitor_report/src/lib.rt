// The monitor program: its sixteen nodes, and what it prints for a text.
#![tactic(auto)]

mod monitors;
mod nodes;
mod points;

pub use monitors::{monitor_output, monitor_report};

// The most points that a text can have.
pub const MAX_POINTS: usize = text::MAX_TEXT / monitor_text::MIN_POINT;

// Room for the monitor program's lines: one for each point, and a total for each node.
pub const MONITOR_SIZE: usize = monitor_lines::POINT_ROOM * MAX_POINTS
    + monitor_lines::TOTAL_ROOM * monitor_text::NODES as usize;
