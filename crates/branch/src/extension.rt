ghost use Rattle.std.specs.Prelude.{◌<◌};
ghost use Rattle.instance.specs.Limits.{most_clauses};
ghost use Rattle.instance.specs.Weights.{meant};
ghost use Rattle.journal.specs.Lent.{Remains};
ghost use Rattle.branch.specs.Extensions.{Open, Coming, Coded, Spent, Gained};

use crate::{Branch, MARKS, SHUTS};
use instance::Weight;

impl Branch<'_> {
    // The clause of number k + 1 is extended below.
    pub fn spend(&mut self, k: usize)
        requires open_clause { Open self.old.journal.cells.now self.old.journal.top k }
        requires in_range { k < most_clauses }
        ensures spent { Spent self.old.journal.cells.now self.old.journal.log.now self.old.journal.top k
            self.new.journal.cells.now self.new.journal.log.now self.new.journal.top }
        ensures same_memory { Remains self.old.journal self.new.journal }
    {
        self.journal.put(SHUTS + k, 1);
    }

    // A literal gains a weight or the hard mark.
    pub fn gain(&mut self, literal: usize, weight: Weight)
        requires coming { Coming self.old.journal.cells.now self.old.journal.top (meant weight) }
        requires in_range { Coded literal }
        ensures gained { Gained self.old.journal.cells.now self.old.journal.log.now self.old.journal.top literal (meant weight)
            self.new.journal.cells.now self.new.journal.log.now self.new.journal.top }
        ensures same_memory { Remains self.old.journal self.new.journal }
    {
        match weight {
            Weight::Hard => self.journal.put(MARKS + literal, 1),
            Weight::Soft(w) => {
                let gained = self.journal.cells[literal] + w;
                self.journal.put(literal, gained);
            }
        }
    }
}
