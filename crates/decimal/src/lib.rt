// Words, numbers and signed numbers at an offset of a text, in decimal.
#![tactic(auto)]

mod number;
mod signed;
mod word;

pub use number::field;
pub use signed::{signed_field, signed_value};
pub use word::past;
