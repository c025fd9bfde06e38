#![tactic(auto)]

// A record of a derivation after its claim: extend the clause of this number, contradict at this variable, or close the
// branch and go to the next.
#[derive(Clone, Copy, Debug, PartialEq, Eq)]
pub enum Record {
    E(usize),
    C(usize),
    Q,
}
