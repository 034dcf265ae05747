// A writer into a lent buffer: bytes, numbers in decimal, fields, the line of a refusal.
// For the crates of this repository, which see to the room: hence each `requires`.
#![tactic(auto)]

mod refused;
mod writer;

pub use refused::put_answer;
pub use writer::Writer;

// The most digits of a number of 64 bits, and of one of 32 bits.
pub const NUMBER_ROOM: usize = 20;

pub const SHORT_ROOM: usize = 10;

// A comma and a number of 64 bits, and of 32 bits.
pub const FIELD_ROOM: usize = 1 + NUMBER_ROOM;

pub const SHORT_FIELD: usize = 1 + SHORT_ROOM;
