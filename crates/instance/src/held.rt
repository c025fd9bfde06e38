ghost use Rattle.std.specs.Prelude.{◌≡◌, ◌+◌, ◌<◌, ◌≤◌, length, get_or};
ghost use Rattle.instance.specs.Limits.{most_clauses, most_literals};
ghost use Rattle.instance.specs.Clause.{tautology};
ghost use Rattle.instance.specs.Weights.{decoded};
ghost use Rattle.instance.specs.Store.{start_in, end_in, codes_in, literals_in, weights_at, literals_at, Holds};
ghost use Rattle.instance.specs.Theorems.Facts.{facts};

use crate::Instance;
use crate::weights::Weight;

// Where the store keeps the clauses' weights, their flags and the kept literals; the clauses' ends stand at its beginning.
pub const WEIGHTS_AT: usize = 1000;

pub const FLAGS_AT: usize = 2000;

pub const LITERALS_AT: usize = 3000;

// A store that holds an instance, with the instance's numbers. The parts of the store lie one behind the other in lent memory of
// `u64`: there is no heap. A clause goes by its index and a literal by its place, whose bound each method asks for as `v[i]` does.
#[derive(Clone, Copy)]
pub struct Held<'a> {
    pub store: &'a [u64],
    pub counts: Instance,
    ghost holds: { Holds store.now counts } by { Prim.hlevel facts },
}

impl<'a> Held<'a> {
    // Where, among the kept literals, those of the clause of number k + 1 begin.
    pub fn start_of(&self, k: usize) -> usize
        requires { k ≤ length self.now.store.now }
        ensures { result ≡ start_in self.now.store.now k }
    {
        if k == 0 {
            return 0;
        }
        self.store[k - 1] as usize
    }

    // Where they end.
    pub fn end_of(&self, k: usize) -> usize
        requires { k < most_clauses }
        ensures { result ≡ end_in self.now.store.now k }
    {
        self.store[k] as usize
    }

    pub fn weight_of(&self, k: usize) -> Weight
        requires { k < most_clauses }
        ensures { result ≡ decoded (get_or self.now.store.now (weights_at + k) 0) }
    {
        Weight::from(self.store[WEIGHTS_AT + k])
    }

    // The store keeps a word for it, which is 1 for a tautology.
    pub fn is_tautology(&self, k: usize) -> bool
        requires { k < self.now.counts.clauses }
        ensures { result ≡ tautology (literals_in self.now.store.now k) }
    {
        self.store[FLAGS_AT + k] == 1
    }

    // The code of the kept literal at a place: 2x is x, 2x + 1 is its opposite. It stays a number, since it is also the place of the
    // literal's cell.
    pub fn literal_at(&self, place: usize) -> usize
        requires { place < most_literals }
        ensures { result ≡ get_or self.now.store.now (literals_at + place) 0 }
    {
        self.store[LITERALS_AT + place] as usize
    }

    // The codes of the literals of the clause of number k + 1.
    pub fn codes_of(&self, k: usize) -> &'a [u64]
        requires { k < self.now.counts.clauses }
        ensures { result.now ≡ codes_in self.now.store.now k }
    {
        &self.store[LITERALS_AT + self.start_of(k)..LITERALS_AT + self.end_of(k)]
    }
}
