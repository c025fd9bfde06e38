ghost use Rattle.std.specs.Prelude.{◌≡◌};
ghost use Rattle.derivation.specs.Check.{check_of};
ghost use Rattle.derivation.specs.Demands.{Meant};

use instance::{CELLS, Checked, FRAMES, LOG, STORE};

// The judgement on a series, over workspaces of its own: they are never too small. The inputs come singly, as `verdict::check` takes
// them, whose signature may not change.
#[tactic(auto, unfolding(derivation::specs::Check::roomy, instance::specs::Memory::ample))]
pub fn judge_series(text: &[u8], bytes: &[u8], proof: &[u8]) -> Checked
    ensures answer { result ≡ check_of text.now bytes.now proof.now }
    ensures meant { Meant text.now bytes.now result }
{
    let mut store = [0u64; STORE];
    let mut cells = [0u64; CELLS];
    let mut log = [0u64; LOG];
    let mut frames = [0u64; FRAMES];
    verdict::check(
        text,
        bytes,
        proof,
        &mut store,
        &mut cells,
        &mut log,
        &mut frames,
    )
}
