ghost use Rattle.derivation.specs.Check.{CheckAnswers};
ghost use Rattle.derivation.specs.Demands.{Meant};
ghost use Rattle.verdict.specs.Workspaces.{desk};

use crate::judging::answer;
use checker::Desk;
use instance::{CELLS, Checked, FRAMES, Fault, LOG, STORE, clear};

// Check: whether a derivation shows that the assignment is cheapest, or that no assignment meets the hard clauses. Inputs and
// workspaces are lent one by one: this signature and its clause `CheckAnswers` may not change.
pub fn check(
    text: &[u8],
    bytes: &[u8],
    proof: &[u8],
    store: &mut [u64],
    cells: &mut [u64],
    log: &mut [u64],
    frames: &mut [u64],
) -> Checked
    ensures answers { CheckAnswers text.now bytes.now proof.now
        (desk store.old cells.old log.old frames.old) result
        (desk store.new cells.new log.new frames.new) }
    ensures meant { Meant text.now bytes.now result }
{
    // Four workspaces, each of its own size: `over_store` has the one that the other questions share.
    if store.len() < STORE || cells.len() < CELLS || log.len() < LOG || frames.len() < FRAMES {
        return Checked::Refused(Fault::MemoryTooSmall.at(0));
    }
    let mut desk = Desk {
        cells: &mut cells[..CELLS],
        log: &mut log[..LOG],
        frames: &mut frames[..FRAMES],
    };
    let verdict = answer(text, bytes, proof, &mut store[..STORE], &mut desk);
    clear(store, STORE);
    clear(cells, CELLS);
    clear(log, LOG);
    clear(frames, FRAMES);
    Checked::from(verdict)
}
