#![tactic(auto)]

// The walk over a derivation: its records, the extensions with branches still to visit, and the answer.
mod branching;
mod desk;
mod frames;
mod records;
mod steps;
mod walk;

pub use desk::Desk;
pub use walk::after_claim;
