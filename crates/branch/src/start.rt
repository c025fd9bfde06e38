ghost use Rattle.std.specs.Prelude.{◌≡◌, suc, ◌+◌, ◌<◌, ◌≤◌, ◌^◌, length, get_or};
ghost use Rattle.instance.specs.Memory.{cells_size, log_size};
ghost use Rattle.instance.specs.Clause.{Problem, soft_of};
ghost use Rattle.instance.specs.Weights.{meant};
ghost use Rattle.instance.specs.Store.{Stored};
ghost use Rattle.calculus.specs.Branch as calculus;
ghost use Rattle.branch.specs.Works.{Works};
ghost use Rattle.branch.specs.Roots.{given, Rooted};

use crate::{BOOKED, Branch, DEAD, MARKS, SHUTS};
use instance::{CELLS, Held, Weight};
use journal::Journal;

// A soft weight goes to one cell; a hard clause sets another. The root's cells are filled before there is a branch with a log, so
// they go alone here.
#[tactic(auto, unfolding(crate::specs::Roots::given, instance::specs::Clause::soft_of))]
fn give(cells: &mut [u64], mark: usize, sum: usize, weight: Weight)
    requires { (mark < length cells.old) × (sum < length cells.old) × (get_or cells.old sum 0 + soft_of (meant weight) < 2 ^ 64) }
    ensures { cells.new ≡ given cells.old mark sum (meant weight) }
{
    match weight {
        Weight::Hard => cells[mark] = 1,
        Weight::Soft(w) => cells[sum] += w,
    }
}

// The clause of number k + 1 at the root.
fn enter(held: &Held, cells: &mut [u64], k: usize)
    requires { Rooted held.now.store.now held.now.counts.clauses k cells.old × (k < held.now.counts.clauses) }
    ensures { Rooted held.now.store.now held.now.counts.clauses (suc k) cells.new }
{
    let weight = held.weight_of(k);
    match held.codes_of(k) {
        [] => give(cells, DEAD, BOOKED, weight),
        [code] => {
            let literal = *code as usize;
            give(cells, MARKS + literal, literal, weight);
        }
        _ => {
            if !held.is_tautology(k) {
                cells[SHUTS + k] = 0;
            }
        }
    }
}

// The root's cells, of the instance in the store. They ask for no log: a branch alone has one.
pub fn root(held: &Held, cells: &mut [u64])
    requires enough_cells { cells_size ≤ length cells.old }
    ensures { (I : Problem) → Stored held.now.store.now I → held.now.counts.clauses ≡ length I.clauses
        → Works I.clauses cells.new 0 0 0 (calculus.root I.clauses) }
{
    cells[..SHUTS].fill(0);
    cells[SHUTS..CELLS].fill(1);
    for k in 0..held.counts.clauses {
        enter(held, cells, k);
    }
}

impl<'a> Branch<'a> {
    // The root of the instance in the store.
    pub fn root(held: &Held, cells: &'a mut [u64], log: &'a mut [u64]) -> Branch<'a>
        requires enough_cells { cells_size ≤ length cells.old }
        requires enough_log { log_size ≤ length log.old }
        ensures works { (I : Problem) → Stored held.now.store.now I → held.now.counts.clauses ≡ length I.clauses
            → Works I.clauses result.journal.cells.now 0 0 0 (calculus.root I.clauses) }
        ensures height { result.journal.top ≡ 0 }
        ensures log_kept { result.journal.log.now ≡ log.old }
        ensures cells_length { length result.journal.cells.now ≡ length cells.old }
        ensures same_cells { result.journal.cells.ghost_name ≡ cells.entry.ghost_name }
        ensures same_log { result.journal.log.ghost_name ≡ log.entry.ghost_name }
    {
        root(held, cells);
        Branch {
            journal: Journal { cells, log, top: 0 },
        }
    }
}
