#![tactic(auto)]

// Check: the text, the claim, the assignment, and then the records of a derivation.
mod checking;
mod claims;
mod judging;

pub use checking::check;
