ghost use Rattle.std.specs.Prelude.{◌≡◌};
ghost use Rattle.derivation.specs.Bytes.{claim_at};
ghost use Rattle.verdict.specs.Claims.{claimed_as};

use instance::Claim;

// The claim at the front of a derivation, and the place after it.
#[tactic(auto, using(crate::proofs::Fronts::fronts))]
pub fn claim_of(proof: &[u8]) -> Option<(Claim, usize)>
    ensures { result ≡ claimed_as (claim_at proof.now) }
{
    match proof {
        [b'M', rest @ ..] => {
            let m = u64::from_be_bytes(*rest.first_chunk()?);
            Some((Claim::Minimum(m), 9))
        }
        [b'N', ..] => Some((Claim::Infeasible, 1)),
        _ => None,
    }
}
