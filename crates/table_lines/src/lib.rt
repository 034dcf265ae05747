// The table program's lines, written into a lent buffer.
// For the crates of this repository, which see to the room: hence each `requires`.
#![tactic(auto)]

mod percents;
mod rooms;
mod row_lines;
mod tables;

pub use percents::put_percent;
pub use rooms::{MAX_ROWS, TABLE_ROOM};
pub use row_lines::put_standings;
pub use tables::put_table;
