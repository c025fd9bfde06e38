ghost use Rattle.std.specs.Prelude.{false, List, ◌≡◌, ℕ, ◌+◌, ◌*◌, ◌<◌, ◌≤◌, ◌^◌, eqb, length, get_or};
ghost use Rattle.instance.specs.Limits.{most_variables};
ghost use Rattle.instance.specs.Memory.{cells_size};
ghost use Rattle.instance.specs.Clause.{Clause};
ghost use Rattle.calculus.specs.Branch as calculus;
ghost use Rattle.journal.specs.Lent.{Remains};
ghost use Rattle.branch.specs.Cells.{booked_at, marks_at};
ghost use Rattle.branch.specs.Works.{Works};
ghost use Rattle.branch.specs.Extensions.{Coded};
ghost use Rattle.branch.specs.Contradictions.{Alive, Settles, Settled, Clashed};

use crate::{BOOKED, Branch, DEAD, MARKS};
use instance::Fault;

// What a contradiction books, and what it leaves of the two weights.
#[derive(Clone, Copy)]
struct Settlement {
    booked: u64,
    first: u64,
    second: u64,
}

// The weights of a variable's two literals: where one literal is hard the other's weight is booked, and the weight on the hard
// side stays. Otherwise the smaller weight is taken from both.
fn settle(a: u64, b: u64, a_hard: bool, b_hard: bool) -> Settlement
    ensures { Settles a b a_hard b_hard result }
{
    if a_hard {
        return Settlement {
            booked: b,
            first: a,
            second: 0,
        };
    }
    if b_hard {
        return Settlement {
            booked: a,
            first: 0,
            second: b,
        };
    }
    let booked = a.min(b);
    Settlement {
        booked,
        first: a - booked,
        second: b - booked,
    }
}

impl Branch<'_> {
    // Whether the literal is marked hard.
    fn is_hard(&self, literal: usize) -> bool
        requires { Coded literal }
        ensures { result ≡ eqb (get_or self.now.journal.cells.now (marks_at + literal) 0) 1 }
    {
        self.journal.cells[MARKS + literal] == 1
    }

    // Stores a settlement of the literals p and q.
    fn book(&mut self, p: usize, q: usize, s: Settlement)
        requires in_bounds { (p < cells_size) × (q < cells_size) × (2 * self.old.journal.top + 5 < length self.old.journal.log.now) }
        requires booking_fits { (booked_at < p) × (booked_at < q) × (get_or self.old.journal.cells.now booked_at 0 + s.booked < 2 ^ 64) }
        ensures settled { Settled self.old.journal.cells.now self.old.journal.log.now self.old.journal.top p q s
            self.new.journal.cells.now self.new.journal.log.now self.new.journal.top }
        ensures same_memory { Remains self.old.journal self.new.journal }
    {
        let total = self.journal.cells[BOOKED] + s.booked;
        self.journal.put(q, s.second);
        self.journal.put(p, s.first);
        self.journal.put(BOOKED, total);
    }

    // Contradiction at variable x, on a branch that is not dead.
    pub fn contradict(&mut self, x: usize) -> Result<(), Fault>
        requires alive { Alive self.old.journal.cells.now self.old.journal.top }
        requires in_range { (1 ≤ x) × (x ≤ most_variables) }
        ensures clashed { (cs : List Clause) (d : ℕ) (b : calculus.Branch) → Works cs self.old.journal.cells.now self.old.journal.top d 0 b → b.dead ≡ false
            → Clashed cs d self.old.journal.cells.now self.old.journal.log.now self.old.journal.top
            self.new.journal.cells.now self.new.journal.log.now self.new.journal.top result (calculus.contradict x b) }
        ensures same_memory { Remains self.old.journal self.new.journal }
    {
        let p = 2 * x;
        let q = 2 * x + 1;
        let p_hard = self.is_hard(p);
        let q_hard = self.is_hard(q);
        if p_hard && q_hard {
            self.journal.put(DEAD, 1);
            return Ok(());
        }
        let s = settle(self.journal.cells[p], self.journal.cells[q], p_hard, q_hard);
        if s.booked == 0 {
            return Err(Fault::NothingToContradict);
        }
        self.book(p, q, s);
        Ok(())
    }
}
