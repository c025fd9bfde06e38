#![tactic(auto)]

// What assignments are worth, and which of two is the cheaper.
mod choosing;
mod falsify;
mod tally;
mod valuing;

pub use choosing::{Choice, better};
pub use valuing::{value, valued};
