//! A refusal by its number, and a number by its refusal.
use crate::Refusal;
use std::error::Error;
use std::fmt;

/// A number that no refusal has.
#[derive(Clone, Copy, Debug, PartialEq, Eq, Hash)]
pub struct UnknownNumber(pub u64);

impl TryFrom<u64> for Refusal {
    type Error = UnknownNumber;

    ghost use Rattle.refusal.specs.Number.{Names};

    ghost try_from_gives = { Names };

    fn try_from(number: u64) -> Result<Self, UnknownNumber> {
        match number {
            1 => Ok(Refusal::LogLength),
            2 => Ok(Refusal::Version),
            3 => Ok(Refusal::LogType),
            4 => Ok(Refusal::BufferSize),
            5 => Ok(Refusal::PastEnd),
            6 => Ok(Refusal::UnknownAction),
            7 => Ok(Refusal::Grammar),
            8 => Ok(Refusal::Thread),
            9 => Ok(Refusal::Clock),
            10 => Ok(Refusal::NoOpenCall),
            11 => Ok(Refusal::Depth),
            12 => Ok(Refusal::FunctionCount),
            13 => Ok(Refusal::Ticks),
            14 => Ok(Refusal::ShortTable),
            15 => Ok(Refusal::NoRoom),
            16 => Ok(Refusal::OutOfRange),
            17 => Ok(Refusal::NoUnit),
            18 => Ok(Refusal::NoMeasuredCall),
            19 => Ok(Refusal::UnknownKind),
            20 => Ok(Refusal::Offset),
            22 => Ok(Refusal::Unsound),
            30 => Ok(Refusal::TextLength),
            31 => Ok(Refusal::NotJson),
            32 => Ok(Refusal::Nesting),
            33 => Ok(Refusal::RepeatedName),
            34 => Ok(Refusal::WrongKind),
            35 => Ok(Refusal::IdOutside),
            36 => Ok(Refusal::RepeatedId),
            37 => Ok(Refusal::ListCount),
            38 => Ok(Refusal::Missing),
            39 => Ok(Refusal::CountSum),
            40 => Ok(Refusal::TransitionTable),
            41 => Ok(Refusal::NoTransition),
            42 => Ok(Refusal::UnmatchedBits),
            43 => Ok(Refusal::PastWanted),
            44 => Ok(Refusal::BitsLeft),
            _ => Err(UnknownNumber(number)),
        }
    }
}

impl fmt::Display for Refusal {
    ghost use Rattle.std.specs.Prelude.{Some};
    ghost use Rattle.refusal.specs.Texts.{refusal_text};

    ghost output = { λ r. Some (refusal_text r) };

    fn fmt<W: fmt::Write>(&self, f: &mut fmt::Formatter<W>) -> fmt::Result {
        write!(f, "refusal {}", self.number())
    }
}

impl Error for Refusal {}

impl fmt::Display for UnknownNumber {
    ghost use Rattle.std.specs.Prelude.{Some};
    ghost use Rattle.refusal.specs.Texts.{unknown_text};

    ghost output = { λ e. Some (unknown_text e) };

    fn fmt<W: fmt::Write>(&self, f: &mut fmt::Formatter<W>) -> fmt::Result {
        write!(f, "no refusal has number {}", self.0)
    }
}

impl Error for UnknownNumber {}
