#![tactic(auto)]

// Questions as they come on standard input: bytes, numbers of four bytes, and arguments with their length in front.
mod arguments;
mod numbers;

pub use arguments::{ArgumentError, next_argument};
pub use numbers::{next_byte, next_number};
