// The lines that the monitor program prints: of a point, and of a node's total. For the crates of this repository, which see to the room.
#![tactic(auto)]

mod lines;

pub use lines::{POINT_ROOM, PointLine, TOTAL_ROOM, TotalLine, put_point, put_total};
