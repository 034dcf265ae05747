// The windows of the rules: what a chart remembers of its points, and what a point does to it.
#![tactic(auto)]

mod state;
mod window;

pub use state::{move_of, valid_state};

// What a point does to a state, whatever the count: quiet, with the next state; or signal, with the mask of all rules that hold.
#[derive(Clone, Copy)]
pub enum Move {
    Quiet(u64),
    Signal(u32),
}
