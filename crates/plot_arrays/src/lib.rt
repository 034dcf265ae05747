// The plot record as callers in C and Rust get it: two arrays.
#![tactic(auto)]

mod arrays;

pub use arrays::{KINDS, VALUES, write_kinds, write_values};
