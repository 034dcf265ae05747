// Lines of a text: a keyword, its fields and LF, read at an offset; and a run of such lines.
#![tactic(auto)]

mod lines;
mod reader;
mod runs;

pub use lines::{LineRead, MOST_FIELDS};
pub use reader::{Reader, line, line_at, run, run_at};
pub use runs::Run;

// The longest text that is read, in bytes.
pub const MAX_TEXT: usize = 65536;
