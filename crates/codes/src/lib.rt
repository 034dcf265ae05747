// What all exported functions share: codes, rule lists of slots, and the sizes of arrays.
#![tactic(auto)]

mod codes;
pub mod sizes;

pub use codes::{code, list_of};
