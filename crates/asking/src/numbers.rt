ghost use Rattle.std.specs.Prelude.{◌≡◌, [], ◌∷◌, IfSome};
ghost use Rattle.std.specs.Int.{w32, to_be_bytes};
ghost use Rattle.std.specs.Io.KnownBytes.{Consumes};
ghost use Rattle.asking.specs.Numbers.{Below};

use std::io::Read;

// The next bytes of the input, as many as the array has. A read that fails counts as the input's end.
fn next_bytes<const N: usize, R: Read>(input: &mut R) -> Option<[u8; N]>
    ensures { IfSome result (λ bytes. Consumes (R.remaining input.old) (R.remaining input.new) bytes) }
{
    let mut bytes = [0u8; N];
    input.read_exact(&mut bytes).ok()?;
    Some(bytes)
}

// The next byte of the input.
pub fn next_byte<R: Read>(input: &mut R) -> Option<u8>
    ensures { IfSome result (λ byte. Consumes (R.remaining input.old) (R.remaining input.new) (byte ∷ [])) }
{
    let one = next_bytes::<1, R>(input)?;
    Some(one[0])
}

// Four bytes, the highest first.
#[tactic(auto, using(std::proofs::lemmas::Nat::be_bytes_4))]
pub fn next_number<R: Read>(input: &mut R) -> Option<u64>
    ensures below { Below result }
    ensures read { IfSome result (λ n. Consumes (R.remaining input.old) (R.remaining input.new) (to_be_bytes w32 n)) }
{
    let four = next_bytes::<4, R>(input)?;
    Some(u64::from(u32::from_be_bytes(four)))
}
