ghost use Rattle.std.specs.Prelude.{◌≡◌, ◌+◌, ◌<◌, length, get_or, drop};
ghost use Rattle.derivation.specs.Bytes.{item_at};
ghost use Rattle.checker.specs.Decoding.{decoded_as};

use calculus::Record;

// The whole record that stands at a place, and the place after it.
#[tactic(auto, using(crate::proofs::Decodes::decoding))]
pub fn decode(proof: &[u8], at: usize) -> Option<(Record, usize)>
    requires { at < length proof.now }
    ensures { result ≡ decoded_as (item_at (get_or proof.now at 0) (drop (at + 1) proof.now)) at }
{
    // E and C have an arm each: they differ in a constructor, and one arm with a test inside would be no plainer.
    match &proof[at..] {
        [b'E', high, low, ..] => {
            let clause = u16::from_be_bytes([*high, *low]);
            Some((Record::E(usize::from(clause)), at + 3))
        }
        [b'C', high, low, ..] => {
            let variable = u16::from_be_bytes([*high, *low]);
            Some((Record::C(usize::from(variable)), at + 3))
        }
        [b'Q', ..] => Some((Record::Q, at + 1)),
        _ => None,
    }
}
