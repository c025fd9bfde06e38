ghost use Rattle.std.specs.Prelude.{map, ◌≡◌, ◌+◌, ◌<◌, ◌≤◌, length};
ghost use Rattle.instance.specs.Limits.{most_clauses, most_literals, most_weight};
ghost use Rattle.instance.specs.Clause.{opposite as oppositeOf, occurs};
ghost use Rattle.instance.specs.Memory.{store_size};
ghost use Rattle.instance.specs.Store.{literal_of};
ghost use Rattle.instance.specs.Weights.{coded};
ghost use Rattle.reader.specs.Reading.{nothing};
ghost use Rattle.reader.specs.Survey.{counts};

use instance::{FLAGS_AT, Instance, LITERALS_AT, WEIGHTS_AT, Weight};

// The instance as far as it is read: its numbers, and its clauses in the store.
#[derive(Drop)]
pub struct Draft<'a> {
    store: &'a mut [u64],
    pub counts: Instance,

    // How many literals of all clauses are kept, and where those of the clause at work begin among them. Both stand beside the lent
    // store because there is no heap, whose lists would know their own lengths.
    kept: usize,
    start: usize,
    ghost room: { store_size ≤ length store.now },
    ghost order: { start ≤ kept },
    ghost shorter: { kept ≤ counts.written },
    ghost many: { counts.written ≤ most_literals },
}

impl<'a> Draft<'a> {
    ghost use Rattle.reader.specs.Drafts.{codes_from, Begins, Keeps, Closes};

    // Nothing is read yet. The bound on the store: see `over_store`.
    #[tactic(auto, unfolding(crate::specs::Reading::nothing, crate::specs::Survey::counts, instance::specs::Clause::total_of))]
    pub fn new(store: &'a mut [u64]) -> Draft<'a>
        requires { store_size ≤ length store.old }
        ensures lent { result.store.ghost_name ≡ store.entry.ghost_name }
        ensures store { result.store.now ≡ store.old }
        ensures counts { result.counts ≡ counts nothing }
        ensures kept { result.kept ≡ 0 }
    {
        Draft {
            store,
            counts: Instance::default(),
            kept: 0,
            start: 0,
        }
    }

    // A clause begins: its weight, and no tautology so far. This, `keep` and `close` ask that a clause is left: not every
    // draft has one, since the most clauses may be done.
    pub fn begin(&mut self, weight: Weight)
        requires clause_left { self.old.counts.clauses < most_clauses }
        requires weight_left { self.old.counts.total + coded weight ≤ most_weight }
        ensures { Begins self.old weight self.new }
    {
        self.store[WEIGHTS_AT + self.counts.clauses] = u64::from(weight);
        // A flag is 0 or 1, not a `bool`, since the store is lent memory of `u64`.
        self.store[FLAGS_AT + self.counts.clauses] = 0;
        self.counts.total += u64::from(weight);
        self.start = self.kept;
    }

    // The codes of the literals that the clause at work has.
    fn codes(&self) -> &[u64]
        ensures { result.now ≡ codes_from self.now.store.now self.now.start self.now.kept }
    {
        &self.store[LITERALS_AT + self.start..LITERALS_AT + self.kept]
    }

    // A literal is written. The clause keeps it, unless it has it already; with its opposite there, the clause is a tautology.
    pub fn keep(&mut self, code: u64)
        requires clause_left { self.old.counts.clauses < most_clauses }
        requires literal_left { self.old.counts.written < most_literals }
        ensures { Keeps self.old code self.new }
    {
        self.counts.variables = self.counts.variables.max(code / 2);
        self.counts.written += 1;
        if has(self.codes(), code) {
            return;
        }
        let is_opposed = has(self.codes(), opposite(code));
        self.store[LITERALS_AT + self.kept] = code;
        self.kept += 1;
        if is_opposed {
            self.store[FLAGS_AT + self.counts.clauses] = 1;
        }
    }

    // The clause is done.
    pub fn close(&mut self)
        requires { self.old.counts.clauses < most_clauses }
        ensures { Closes self.old self.new }
    {
        self.store[self.counts.clauses] = self.kept as u64;
        self.counts.clauses += 1;
    }
}

// Whether a literal of these codes is the one of this code. std's `contains` goes by groups of words, in a longer loop
// (docs/DESIGN-PASS.md, "Speed").
fn has(codes: &[u64], code: u64) -> bool
    ensures { result ≡ occurs (literal_of code) (map literal_of codes.now) }
{
    for &c in codes {
        if c == code {
            return true;
        }
    }
    false
}

fn opposite(code: u64) -> u64
    ensures { literal_of result ≡ oppositeOf (literal_of code) }
{
    code ^ 1
}
