ghost use Rattle.std.specs.Prelude.{◌≡◌};
ghost use Rattle.instance.specs.Refusals.{staged};

use std::fmt;

// A refusal: its stage and, inside, its number and its place. The number is no `Fault`, since `refusal` promises a stage for any.
#[derive(Clone, Copy, Debug, PartialEq, Eq)]
pub enum Stage {
    Memory(u64, usize),
    Text(u64, usize),
    Assignment(u64, usize),
    Derivation(u64, usize),
    Writing(u64, usize),
}

// The one place where a number gets its stage.
#[tactic(auto, unfolding(crate::specs::Refusals::staged))]
pub fn refusal(number: u64, place: usize) -> Stage
    ensures { result ≡ staged number place }
{
    match number {
        0..=1 => Stage::Memory(number, place),
        2..=8 => Stage::Text(number, place),
        9..=10 | 12..=13 => Stage::Assignment(number, place),
        11 | 14..=20 => Stage::Derivation(number, place),
        _ => Stage::Writing(number, place),
    }
}

impl Stage {
    ghost use Rattle.instance.specs.Refusals.{number_of, place_of};

    // The number and the place, whatever the stage.
    #[tactic(auto, unfolding(crate::specs::Refusals::number_of, crate::specs::Refusals::place_of))]
    fn parts(self) -> (u64, usize)
        ensures { result ≡ (number_of self, place_of self) }
    {
        match self {
            Stage::Memory(number, place)
            | Stage::Text(number, place)
            | Stage::Assignment(number, place)
            | Stage::Derivation(number, place)
            | Stage::Writing(number, place) => (number, place),
        }
    }
}

// `refused 18 at 19`.
impl fmt::Display for Stage {
    ghost use Rattle.std.specs.Prelude.{Some};
    ghost use Rattle.instance.specs.Lines.{refusal_line};

    ghost output = { λ stage. Some (refusal_line stage) };

    fn fmt<W: fmt::Write>(&self, f: &mut fmt::Formatter<W>) -> fmt::Result {
        let (number, place) = self.parts();
        write!(f, "refused {number} at {place}")
    }
}
