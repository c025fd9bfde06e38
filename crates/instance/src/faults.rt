ghost use Rattle.std.specs.Prelude.{◌≡◌};
ghost use Rattle.instance.specs.Refusals.{staged};
ghost use Rattle.instance.specs.Faults.{numbered};

use crate::refusals::{Stage, refusal};

// Why a question is turned away, in the order of the refusals' numbers.
#[derive(Clone, Copy, Debug, PartialEq, Eq)]
pub enum Fault {
    MemoryTooSmall,
    WrongToken,
    ClauseWithoutEnd,
    TooManyClauses,
    WeightOutOfRange,
    TotalTooLarge,
    VariableTooLarge,
    TooManyLiterals,
    WrongLength,
    ByteOverOne,
    NoClaim,
    HardClauseBroken,
    OtherWeight,
    NoRecord,
    NotExtendable,
    NothingToContradict,
    DeadBranch,
    NotClosable,
    BranchOpen,
    BytesLeft,
    NoRoom,
    Refuted,
}

impl From<Fault> for u64 {
    ghost from_gives = { λ fault number. number ≡ numbered fault };

    fn from(fault: Fault) -> u64 {
        match fault {
            Fault::MemoryTooSmall => 1,
            Fault::WrongToken => 2,
            Fault::ClauseWithoutEnd => 3,
            Fault::TooManyClauses => 4,
            Fault::WeightOutOfRange => 5,
            Fault::TotalTooLarge => 6,
            Fault::VariableTooLarge => 7,
            Fault::TooManyLiterals => 8,
            Fault::WrongLength => 9,
            Fault::ByteOverOne => 10,
            Fault::NoClaim => 11,
            Fault::HardClauseBroken => 12,
            Fault::OtherWeight => 13,
            Fault::NoRecord => 14,
            Fault::NotExtendable => 15,
            Fault::NothingToContradict => 16,
            Fault::DeadBranch => 17,
            Fault::NotClosable => 18,
            Fault::BranchOpen => 19,
            Fault::BytesLeft => 20,
            Fault::NoRoom => 21,
            Fault::Refuted => 22,
        }
    }
}

impl Fault {
    // The refusal with its place.
    pub fn at(self, place: usize) -> Stage
        ensures { result ≡ staged (numbered self) place }
    {
        refusal(u64::from(self), place)
    }
}
