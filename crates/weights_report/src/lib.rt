// The weights program: its line, and what it prints for a text.
#![tactic(auto)]

mod shifts;
mod weight_line;
mod weights;

pub use shifts::shift_text;
pub use weight_line::{WEIGHTS_ROOM, put_weights};
pub use weights::{weights_output, weights_report};

// Room for the weights program's line.
pub const WEIGHTS_SIZE: usize = crate::WEIGHTS_ROOM;
