ghost use Rattle.std.specs.Prelude.{◌≡◌};
ghost use Rattle.instance.specs.Answers.{surveyed, valued, checked};

use crate::Instance;
use crate::refusals::Stage;
use std::fmt;

// What Survey, Value, Check and Write answer: an enum each, with a refused case that holds the stage. The definitions `survey_of`,
// `value_of`, `check_of` and `answered` answer in them. Below the questions a `Result` says the same.

// Survey: the numbers of the instance.
#[derive(Clone, Copy, Debug, PartialEq, Eq)]
pub enum Surveyed {
    Counted(Instance),
    Refused(Stage),
}

impl From<Result<Instance, Stage>> for Surveyed {
    ghost from_gives = { λ read answer. answer ≡ surveyed read };

    fn from(read: Result<Instance, Stage>) -> Surveyed {
        match read {
            Ok(counts) => Surveyed::Counted(counts),
            Err(stage) => Surveyed::Refused(stage),
        }
    }
}

// The number of the first broken hard clause, and the soft weight falsified. The number is 0 if none is broken, as the definitions
// `first_broken` and `beats` count.
#[derive(Clone, Copy, Debug, Default, PartialEq, Eq)]
pub struct Worth {
    pub first_broken: usize,
    pub falsified: u64,
}

// Value: the first broken hard clause (0 if none), and the soft weight falsified.
#[derive(Clone, Copy, Debug, PartialEq, Eq)]
pub enum Valued {
    Worth(usize, u64),
    Refused(Stage),
}

impl From<Result<Worth, Stage>> for Valued {
    ghost from_gives = { λ value answer. answer ≡ valued value };

    fn from(value: Result<Worth, Stage>) -> Valued {
        match value {
            Ok(worth) => Valued::Worth(worth.first_broken, worth.falsified),
            Err(stage) => Valued::Refused(stage),
        }
    }
}

// What a derivation claims: that the minimum is this number, or that no assignment meets the hard clauses.
#[derive(Clone, Copy, Debug, PartialEq, Eq)]
pub enum Claim {
    Minimum(u64),
    Infeasible,
}

impl fmt::Display for Claim {
    ghost use Rattle.std.specs.Prelude.{Some};
    ghost use Rattle.instance.specs.Lines.{claim_words};

    ghost output = { λ claim. Some (claim_words claim) };

    fn fmt<W: fmt::Write>(&self, f: &mut fmt::Formatter<W>) -> fmt::Result {
        match self {
            Claim::Minimum(m) => write!(f, "minimum {m}"),
            Claim::Infeasible => write!(f, "infeasible"),
        }
    }
}

// Check: the claim that was shown, and the number of records after it.
#[derive(Clone, Copy, Debug, PartialEq, Eq)]
pub enum Checked {
    Accepted(Claim, usize),
    Refused(Stage),
}

impl From<Result<(Claim, usize), Stage>> for Checked {
    ghost from_gives = { λ shown answer. answer ≡ checked shown };

    fn from(shown: Result<(Claim, usize), Stage>) -> Checked {
        match shown {
            Ok((claim, records)) => Checked::Accepted(claim, records),
            Err(stage) => Checked::Refused(stage),
        }
    }
}

// `accepted minimum 2 steps 5`, `accepted infeasible steps 1`, or the refusal.
impl fmt::Display for Checked {
    ghost use Rattle.std.specs.Prelude.{Some};
    ghost use Rattle.instance.specs.Lines.{checked_line};

    ghost output = { λ answer. Some (checked_line answer) };

    fn fmt<W: fmt::Write>(&self, f: &mut fmt::Formatter<W>) -> fmt::Result {
        match self {
            Checked::Accepted(claim, steps) => write!(f, "accepted {claim} steps {steps}"),
            Checked::Refused(stage) => write!(f, "{stage}"),
        }
    }
}

// What Write is asked to show: that the lent assignment is cheapest, or that no assignment meets the hard clauses.
#[derive(Clone, Copy, Debug, PartialEq, Eq)]
pub enum Aim {
    Cheapest,
    Infeasible,
}

// Write: the bytes written, and the number of records after the claim.
#[derive(Clone, Copy, Debug, PartialEq, Eq)]
pub enum Written {
    Derivation(usize, usize),
    Refused(Stage),
}
