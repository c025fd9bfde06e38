ghost use Rattle.std.specs.Prelude.{◌≡◌, ◌<◌, ◌≤◌, length};
ghost use Rattle.instance.specs.Limits.{most_weight};
ghost use Rattle.reader.specs.Words.{weight_spelled, later_word};
ghost use Rattle.reader.specs.Said.{spelled_as, FirstSaid, word_says};

use crate::numbers::read_number;
use instance::{Fault, Instance, Weight};

// A clause's weight, or none where it is out of its limits.
fn weight_spelled(token: &[u8]) -> Result<Option<Weight>, Fault>
    ensures { result ≡ spelled_as (weight_spelled token.now) }
{
    match token {
        b"h" => Ok(Some(Weight::Hard)),
        b"0" => Ok(None),
        digits => Ok(read_number(digits, Instance::WEIGHT)?.map(Weight::Soft)),
    }
}

// A clause's first token. Spelling, clause count, weight, total: in this order.
pub fn first_word(token: &[u8], clauses: usize, total: u64) -> Result<Weight, Fault>
    requires { total ≤ most_weight }
    ensures { FirstSaid token.now clauses total result }
{
    let spelled = weight_spelled(token)?;
    if clauses >= Instance::CLAUSES {
        return Err(Fault::TooManyClauses);
    }
    let weight = spelled.ok_or(Fault::WeightOutOfRange)?;
    if total + u64::from(weight) > Instance::WEIGHT {
        return Err(Fault::TotalTooLarge);
    }
    Ok(weight)
}

// A later token of a clause: a literal's code in the store, or none at the clause's end. Spelling, variable, literal count: in
// this order.
pub fn later_word(token: &[u8], written: usize) -> Result<Option<u64>, Fault>
    requires { 0 < length token.now }
    ensures { word_says result ≡ later_word written token.now }
{
    let (digits, is_opposite) = match token {
        b"0" => return Ok(None),
        [b'-', digits @ ..] => (digits, true),
        digits => (digits, false),
    };
    let variable = read_number(digits, Instance::VARIABLES)?.ok_or(Fault::VariableTooLarge)?;
    if written >= Instance::LITERALS {
        return Err(Fault::TooManyLiterals);
    }
    Ok(Some(2 * variable + u64::from(is_opposite)))
}
