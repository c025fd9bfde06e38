ghost use Rattle.std.specs.Prelude.{List, ◌≡◌, ℕ, ◌≤◌, length};
ghost use Rattle.instance.specs.Answers.{checked};
ghost use Rattle.instance.specs.Clause.{Problem};
ghost use Rattle.instance.specs.Memory.{store_size};
ghost use Rattle.instance.specs.Store.{Given};
ghost use Rattle.derivation.specs.Check.{followed, claimed, check_of};
ghost use Rattle.checker.specs.Desks.{Remains};
ghost use Rattle.verdict.specs.Claims.{before};

use crate::claims::claim_of;
use checker::{Desk, after_claim};
use instance::{Claim, Fault, Held, Stage};
use reader::read;
use valuation::valued;

// What a claim asks of the assignment. Under `Infeasible` the assignment is not read. `Given` names the instance that the promise
// speaks of: a premise, and no fact of the value alone.
fn check_assignment(held: &Held, bytes: &[u8], claim: Claim) -> Result<(), Stage>
    ensures { (proof : List ℕ) (I : Problem) → Given held.now.store.now held.now.counts.variables held.now.counts.clauses I
        → before result (followed I proof claim) ≡ claimed I bytes.now proof claim }
{
    let Claim::Minimum(m) = claim else {
        return Ok(());
    };
    let worth = valued(held, bytes)?;
    if worth.first_broken != 0 {
        return Err(Fault::HardClauseBroken.at(worth.first_broken));
    }
    if worth.falsified != m {
        return Err(Fault::OtherWeight.at(0));
    }
    Ok(())
}

// The claim that is shown and the number of records, with the workspaces left as the work left them. The inputs come singly, as
// `check` is lent them, whose signature may not change. The bound on the store: see `over_store`.
pub fn answer(
    text: &[u8],
    bytes: &[u8],
    proof: &[u8],
    store: &mut [u64],
    desk: &mut Desk,
) -> Result<(Claim, usize), Stage>
    requires { store_size ≤ length store.old }
    ensures judged { checked result ≡ check_of text.now bytes.now proof.now }
    ensures same_memory { Remains desk.old desk.new }
{
    let counts = read(text, store)?;
    let held = Held { store, counts };
    let (claim, from) = claim_of(proof).ok_or(Fault::NoClaim.at(0))?;
    check_assignment(&held, bytes, claim)?;
    let records = after_claim(&held, desk, proof, from, claim)?;
    Ok((claim, records))
}
