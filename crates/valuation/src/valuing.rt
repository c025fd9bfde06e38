ghost use Rattle.std.specs.Prelude.{◌≡◌, ◌≤◌, length};
ghost use Rattle.instance.specs.Answers.{valued as as_answer};
ghost use Rattle.instance.specs.Clause.{Problem};
ghost use Rattle.instance.specs.Memory.{store_size};
ghost use Rattle.instance.specs.Store.{Given};
ghost use Rattle.valuation.specs.Value.{valued as valuedOf, value_of, ValueAnswers};

use crate::tally::tallied;
use instance::{Fault, Held, Stage, Valued, Worth, over_store};
use reader::read;

// What an assignment is worth to the instance in the store. `Given` names the instance that the promise speaks of: a premise, and no
// fact of the value alone.
pub fn valued(held: &Held, bytes: &[u8]) -> Result<Worth, Stage>
    ensures { (I : Problem) → Given held.now.store.now held.now.counts.variables held.now.counts.clauses I
        → as_answer result ≡ valuedOf I bytes.now }
{
    if bytes.len() as u64 != held.counts.variables {
        return Err(Fault::WrongLength.at(0));
    }
    if let Some(place) = bytes.iter().position(|&b| 1 < b) {
        return Err(Fault::ByteOverOne.at(place));
    }
    Ok(tallied(held, bytes))
}

// The value, with the instance left in the store. The bound on the store: see `over_store`.
fn value_left(text: &[u8], bytes: &[u8], store: &mut [u64]) -> Result<Worth, Stage>
    requires { store_size ≤ length store.old }
    ensures { as_answer result ≡ value_of text.now bytes.now }
{
    let counts = read(text, store)?;
    valued(&Held { store, counts }, bytes)
}

// Value: the first broken hard clause (0 if none), and the soft weight falsified.
pub fn value(text: &[u8], bytes: &[u8], store: &mut [u64]) -> Valued
    ensures { ValueAnswers text.now bytes.now store.old result store.new }
{
    Valued::from(over_store(store, |store| value_left(text, bytes, store)))
}
