ghost use Rattle.std.specs.Prelude.{◌≡◌, ◌<◌, ◌≤◌, ◌/◌, length};
ghost use Rattle.instance.specs.Meaning.{assigned, holds, falsified};
ghost use Rattle.instance.specs.Store.{literal_of, literals_in};

use instance::Held;

// Whether an assignment makes the literal of this code true.
#[tactic(auto, using(crate::proofs::Literals::even_code, crate::proofs::Literals::odd_code))]
fn is_true(bytes: &[u8], code: u64) -> bool
    requires { (2 ≤ code) × (code / 2 ≤ length bytes.now) }
    ensures { result ≡ holds (assigned bytes.now) (literal_of code) }
{
    let value = bytes[(code / 2 - 1) as usize] == 1;
    if code % 2 == 0 { value } else { !value }
}

// Whether an assignment falsifies the clause of number k + 1: it makes none of its literals true.
pub fn falsifies(held: &Held, k: usize, bytes: &[u8]) -> bool
    requires clause { k < held.now.counts.clauses }
    requires size { length bytes.now ≡ held.now.counts.variables }
    ensures { result ≡ falsified (assigned bytes.now) (literals_in held.now.store.now k) }
{
    held.codes_of(k).iter().all(|&c| !is_true(bytes, c))
}
