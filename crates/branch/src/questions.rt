ghost use Rattle.std.specs.Prelude.{List, ◌≡◌, ◌<◌};
ghost use Rattle.instance.specs.Limits.{most_clauses};
ghost use Rattle.instance.specs.Clause.{Clause};
ghost use Rattle.calculus.specs.Derivation.{closable};
ghost use Rattle.calculus.specs.Branch as calculus;
ghost use Rattle.branch.specs.Shows.{open_in, Shows};

use crate::{BOOKED, Branch, DEAD, SHUTS};
use instance::Claim;

impl Branch<'_> {
    #[tactic(auto, using(crate::proofs::Readings::dead_test))]
    pub fn is_dead(&self) -> bool
        ensures { (cs : List Clause) (b : calculus.Branch) → Shows cs self.now.journal.cells.now b → result ≡ b.dead }
    {
        self.journal.cells[DEAD] == 1
    }

    // Whether the clause of number k + 1 can be extended.
    #[tactic(auto, using(crate::proofs::Readings::open_test))]
    pub fn can_extend(&self, k: usize) -> bool
        requires { k < most_clauses }
        ensures { (cs : List Clause) (b : calculus.Branch) → Shows cs self.now.journal.cells.now b → result ≡ open_in b.rules k }
    {
        self.journal.cells[SHUTS + k] == 0
    }

    // Whether the branch may be closed.
    #[tactic(auto, using(crate::proofs::Readings::booked_is), unfolding(calculus::specs::Derivation::closable))]
    pub fn can_close(&self, claim: Claim) -> bool
        ensures { (cs : List Clause) (b : calculus.Branch) → Shows cs self.now.journal.cells.now b → result ≡ closable claim b }
    {
        self.is_dead()
            || match claim {
                Claim::Minimum(m) => m <= self.journal.cells[BOOKED],
                Claim::Infeasible => false,
            }
    }
}
