ghost use Rattle.std.specs.Prelude.{List, [], ◌∷◌, ◌≡◌, drop};
ghost use Rattle.instance.specs.Clause.{Problem};
ghost use Rattle.instance.specs.Answers.{shown_by};
ghost use Rattle.instance.specs.Store.{Given};
ghost use Rattle.calculus.specs.Branch as calculus;
ghost use Rattle.calculus.specs.Derivation.{walk as walked};
ghost use Rattle.derivation.specs.Bytes.{items};
ghost use Rattle.checker.specs.Desks.{Remains};

use crate::desk::Desk;
use crate::frames::Frames;
use crate::records::decode;
use crate::steps::Step;
use branch::Branch;
use instance::{Claim, Fault, Held, Stage};

// The instance, the branch at work, and the frames of the other open branches. Which branches these are (`Standing`) is asked of each
// call: it is data and no mere fact, and it does not hold in the middle of a step.
#[derive(Drop)]
pub struct Walk<'h, 'a> {
    pub held: Held<'h>,
    pub branch: Branch<'a>,
    pub frames: Frames<'a>,
}

impl Walk<'_, '_> {
    ghost use Rattle.checker.specs.Walking.{Stands, Standing};

    // The records from a place on, and how many they are.
    fn run(&mut self, proof: &[u8], from: usize, claim: Claim) -> Result<usize, Stage>
        requires { Standing self.old }
        ensures { (I : Problem) (b : calculus.Branch) (bs : List calculus.Branch) → Stands I self.old b bs
            → shown_by claim result ≡ walked I claim (items (drop from proof.now)) from 0 (b ∷ bs) }
    {
        // By hand: each record says where the next one begins.
        let mut at = from;
        let mut records = 0;
        while at < proof.len() {
            let Some((record, next)) = decode(proof, at) else {
                return Err(Fault::NoRecord.at(at));
            };
            records += 1;
            match self.step(record, claim).map_err(|fault| fault.at(at))? {
                Step::GoesOn => at = next,
                Step::AllClosed if next < proof.len() => return Err(Fault::BytesLeft.at(next)),
                Step::AllClosed => return Ok(records),
            }
        }
        Err(Fault::BranchOpen.at(at))
    }
}

// The derivation after its claim: each record is taken in turn, from the root on. `Given` names the instance that the promise speaks
// of: a premise, and no fact of the value alone.
pub fn after_claim(
    held: &Held,
    desk: &mut Desk,
    proof: &[u8],
    from: usize,
    claim: Claim,
) -> Result<usize, Stage>
    ensures shown { (I : Problem) → Given held.now.store.now held.now.counts.variables held.now.counts.clauses I
        → shown_by claim result ≡ walked I claim (items (drop from proof.now)) from 0 (calculus.root I.clauses ∷ []) }
    ensures same_memory { Remains desk.old desk.new }
{
    let mut walk = Walk {
        held: *held,
        branch: Branch::root(held, &mut *desk.cells, &mut *desk.log),
        frames: Frames {
            words: &mut *desk.frames,
            depth: 0,
        },
    };
    // Not the last expression: the call would lend the walk past its end.
    let records = walk.run(proof, from, claim);
    records
}
