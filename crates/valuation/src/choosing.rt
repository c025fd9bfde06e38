ghost use Rattle.std.specs.Prelude.{◌≡◌, ◌≤◌, length};
ghost use Rattle.std.specs.Result.{result_unwrap_or};
ghost use Rattle.instance.specs.Memory.{store_size};
ghost use Rattle.instance.specs.declared.answers.Valued.{Valued};
ghost use Rattle.valuation.specs.Better.{beats, chosen, better_of, Handed, BetterAnswers};
ghost use Rattle.valuation.specs.declared.choosing.Choice.TheVariants.{Neither};

use crate::valuing::valued;
use instance::{Held, Stage, Worth, over_store};
use reader::read;

// Which of the two lent assignments is handed back; neither stands for the empty part at the start of the first. An enum with all
// three, since the definition `better_of` answers in it.
#[derive(Clone, Copy, Debug, PartialEq, Eq)]
pub enum Choice {
    First,
    Second,
    Neither,
}

impl Choice {
    // The part of memory that it names.
    fn part<'a>(self, first: &'a [u8], second: &'a [u8]) -> &'a [u8]
        ensures { Handed self first.entry second.entry result }
    {
        match self {
            Self::First => first,
            Self::Second => second,
            Self::Neither => &first[..0],
        }
    }
}

// Whether a worth comes before another: hard clauses first, then the weight. It is no `Ord`: two that break hard clauses tie,
// whatever they weigh.
#[tactic(auto, unfolding(crate::specs::Better::beats))]
fn comes_before(this: Worth, other: Worth) -> bool
    ensures { result ≡ beats this.first_broken this.falsified other.first_broken other.falsified }
{
    this.first_broken == 0 && (other.first_broken != 0 || this.falsified < other.falsified)
}

#[tactic(auto, unfolding(crate::specs::Better::chosen))]
fn cheaper(first: Worth, second: Worth) -> Choice
    ensures { result ≡ chosen (Valued.Worth first.first_broken first.falsified) (Valued.Worth second.first_broken second.falsified) }
{
    if comes_before(second, first) {
        Choice::Second
    } else {
        Choice::First
    }
}

// The choice, with the instance left in the store. The bound on the store: see `over_store`.
fn choice_left(text: &[u8], first: &[u8], second: &[u8], store: &mut [u64]) -> Result<Choice, Stage>
    requires { store_size ≤ length store.old }
    ensures { result_unwrap_or result Neither ≡ better_of text.now first.now second.now }
{
    let counts = read(text, store)?;
    let held = Held { store, counts };
    Ok(cheaper(valued(&held, first)?, valued(&held, second)?))
}

// Better of two: hands back the cheaper of the two lent assignments, as that very part.
pub fn better<'a>(text: &[u8], first: &'a [u8], second: &'a [u8], store: &mut [u64]) -> &'a [u8]
    ensures { BetterAnswers text.now first.entry second.entry store.old result store.new }
{
    let choice = over_store(store, |store| choice_left(text, first, second, store));
    choice.unwrap_or(Choice::Neither).part(first, second)
}
