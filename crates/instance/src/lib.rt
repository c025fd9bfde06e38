#![tactic(auto)]

// What every layer shares: the instance record with its limits, the refusal, the answers, the sizes of the lent memory, and the
// instance as it lies in the store. Lent words and an instance's numbers are `u64`, places and lengths `usize`: `as` leads between
// them in every layer, since std has no `From` for them and a `try_from` could not fail.
mod answers;
mod faults;
mod held;
mod lending;
mod memory;
mod refusals;
mod weights;
mod workspaces;

pub use answers::{Aim, Checked, Claim, Surveyed, Valued, Worth, Written};
pub use faults::Fault;
pub use held::{FLAGS_AT, Held, LITERALS_AT, WEIGHTS_AT};
pub use lending::over_store;
pub use memory::clear;
pub use refusals::{Stage, refusal};
pub use weights::Weight;
pub use workspaces::{CELLS, FOUND, FRAMES, LINKS, LOG, STORE};

// What an instance text says of itself: the largest variable number written (0 if none), the clauses, the literals as
// written, and the total soft weight.
#[derive(Clone, Copy, Debug, Default, PartialEq, Eq)]
pub struct Instance {
    pub variables: u64,
    pub clauses: usize,
    pub written: usize,
    pub total: u64,
}

impl Instance {
    pub const VARIABLES: u64 = 500;

    pub const CLAUSES: usize = 1000;

    pub const LITERALS: usize = 4000;

    pub const WEIGHT: u64 = 1000000000000;
}
