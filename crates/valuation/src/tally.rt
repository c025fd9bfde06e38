ghost use Rattle.std.specs.Prelude.{◌≡◌, length};
ghost use Rattle.valuation.specs.Tally.{Tallied};

use crate::falsify::falsifies;
use instance::{Held, Weight, Worth};

// What an assignment is worth, clause by clause.
pub fn tallied(held: &Held, bytes: &[u8]) -> Worth
    requires { length bytes.now ≡ held.now.counts.variables }
    ensures { Tallied held.now.store.now bytes.now held.now.counts.clauses result }
{
    let mut worth = Worth::default();
    for k in 0..held.counts.clauses {
        if falsifies(held, k, bytes) {
            match held.weight_of(k) {
                Weight::Soft(w) => worth.falsified += w,
                Weight::Hard if worth.first_broken == 0 => worth.first_broken = k + 1,
                Weight::Hard => {}
            }
        }
    }
    worth
}
