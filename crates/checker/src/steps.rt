ghost use Rattle.std.specs.Prelude.{false, List, ◌≡◌};
ghost use Rattle.instance.specs.Clause.{Problem};
ghost use Rattle.calculus.specs.Branch.{Branch};
ghost use Rattle.calculus.specs.Derivation.{closing, extending, contradicting, step as stepped};
ghost use Rattle.checker.specs.Walking.{Stands, Standing, Alive};
ghost use Rattle.checker.specs.Moves.{Moved, Steps};

use crate::walk::Walk;
use calculus::Record;
use instance::{Claim, Fault, Instance};

// What a record that is not refused leaves: an open branch to go on with, or none.
#[derive(Clone, Copy, Debug, PartialEq, Eq)]
pub enum Step {
    GoesOn,
    AllClosed,
}

impl Walk<'_, '_> {
    fn on_extend(&mut self, number: usize) -> Result<Step, Fault>
        requires { Standing self.old }
        ensures { Steps (λ I b. extending number b) self.old self.new result }
    {
        if number == 0 || Instance::CLAUSES < number || !self.branch.can_extend(number - 1) {
            return Err(Fault::NotExtendable);
        }
        self.extend(number - 1);
        Ok(Step::GoesOn)
    }

    fn on_contradict(&mut self, x: usize) -> Result<Step, Fault>
        requires { Alive self.old }
        ensures { (I : Problem) (b : Branch) (bs : List Branch) → Stands I self.old b bs → b.dead ≡ false
            → Moved I self.new bs result (contradicting I x b) }
    {
        let n = self.held.counts.variables;
        if x == 0 || n < x as u64 {
            return Err(Fault::NothingToContradict);
        }
        self.branch.contradict(x)?;
        Ok(Step::GoesOn)
    }

    fn on_close(&mut self, claim: Claim) -> Result<Step, Fault>
        requires { Standing self.old }
        ensures { Steps (λ I b. closing claim b) self.old self.new result }
    {
        if !self.branch.can_close(claim) {
            return Err(Fault::NotClosable);
        }
        if self.frames.depth == 0 {
            return Ok(Step::AllClosed);
        }
        self.turn();
        Ok(Step::GoesOn)
    }

    // One record on the branch at work.
    pub fn step(&mut self, record: Record, claim: Claim) -> Result<Step, Fault>
        requires { Standing self.old }
        ensures { Steps (λ I b. stepped I claim «record» b) self.old self.new result }
    {
        // A match, since records are an enum of three kinds.
        match record {
            Record::E(number) if !self.branch.is_dead() => self.on_extend(number),
            Record::C(x) if !self.branch.is_dead() => self.on_contradict(x),
            Record::Q => self.on_close(claim),
            Record::E(_) | Record::C(_) => Err(Fault::DeadBranch),
        }
    }
}
