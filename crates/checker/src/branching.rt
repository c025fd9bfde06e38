ghost use Rattle.std.specs.Prelude.{◌<◌, ◌≤◌};
ghost use Rattle.instance.specs.Limits.{most_clauses};
ghost use Rattle.checker.specs.Walking.{Standing, Extending, Extended, Turned};

use crate::frames::Frame;
use crate::walk::Walk;

impl Walk<'_, '_> {
    // Extends the clause of number k + 1, and enters the first branch.
    pub fn extend(&mut self, k: usize)
        requires extending { Extending self.old k }
        requires in_range { k < most_clauses }
        ensures { Extended self.old k self.new }
    {
        let first = self.held.start_of(k);
        self.branch.spend(k);
        self.frames.push(Frame {
            clause: k,
            next: first + 1,
            height: self.branch.journal.top,
        });
        let literal = self.held.literal_at(first);
        let weight = self.held.weight_of(k);
        self.branch.gain(literal, weight);
    }

    // Enters the next branch of the last frame, from the state that the extension left. A frame goes with its last branch.
    pub fn turn(&mut self)
        requires standing { Standing self.old }
        requires deep { 1 ≤ self.old.frames.depth }
        ensures { Turned self.old self.new }
    {
        let frame = self.frames.last();
        // A struct within `self` has to be lent before a method that changes its journal is called.
        let branch = &mut self.branch;
        branch.journal.rewind(frame.height);
        let literal = self.held.literal_at(frame.next);
        let weight = self.held.weight_of(frame.clause);
        branch.gain(literal, weight);
        if frame.next + 1 == self.held.end_of(frame.clause) {
            self.frames.pop();
        } else {
            self.frames.advance(frame.next + 1);
        }
    }
}
