// What the programs read from standard input and write to standard output, and how they name an error in one of them.
#![tactic(auto)]

mod failure;
mod input;
mod program;
mod written;

pub use failure::Failure;
pub use input::read_input;
pub use program::run;
pub use written::lines;
