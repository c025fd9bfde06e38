ghost use Rattle.std.specs.Prelude.{ℕ, List, ◌≡◌, ◌<◌, ◌≤◌, length, take};
ghost use Rattle.std.specs.Borrow.{MutBor};
ghost use Rattle.std.specs.Fn.{FnOnceReturnsAtMut};
ghost use Rattle.instance.specs.Memory.{store_size, ample, returned};
ghost use Rattle.instance.specs.Refusals.{staged};

use crate::faults::Fault;
use crate::memory::clear;
use crate::refusals::Stage;
use crate::workspaces::STORE;

// Works over the store, and leaves it as every question must; too small a store is a refusal. What the work may count on, that the
// store is long enough, stands in the clauses of those who are lent it: a struct for that one bound would be no plainer.
pub fn over_store<T, F: FnOnce(&mut [u64]) -> Result<T, Stage>>(
    store: &mut [u64],
    work: F,
) -> Result<T, Stage>
    requires { (s : MutBor (List ℕ)) → store_size ≤ length s.now → F.pre work s }
    ensures refused { length store.old < store_size → result ≡ Err (staged 1 0) }
    ensures worked { store_size ≤ length store.old
        → (left : List ℕ) × FnOnceReturnsAtMut F.FnOnce work (take store_size store.old) result left }
    ensures after { store.new ≡ returned (ample store_size store.old) store_size store.old }
{
    if store.len() < STORE {
        return Err(Fault::MemoryTooSmall.at(0));
    }
    let answer = work(&mut store[..STORE]);
    clear(store, STORE);
    answer
}
