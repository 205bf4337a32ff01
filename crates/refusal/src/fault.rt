//! A refusal with its place.
use crate::Refusal;
use std::error::Error;
use std::fmt;

/// A refusal, and the byte of what was read at which it was met.
#[derive(Clone, Copy, Debug, PartialEq, Eq, Hash)]
pub struct Fault {
    pub refusal: Refusal,
    pub place: usize,
}

impl Refusal {
    ghost use Rattle.std.specs.Prelude.{◌≡◌};

    /// Met at a place.
    pub fn at(self, place: usize) -> Fault
        ensures { result ≡ record { refusal = self; place = place } }
    {
        Fault {
            refusal: self,
            place,
        }
    }
}

impl fmt::Display for Fault {
    ghost use Rattle.std.specs.Prelude.{Some};
    ghost use Rattle.refusal.specs.Texts.{fault_text};

    ghost output = { λ f. Some (fault_text f) };

    fn fmt<W: fmt::Write>(&self, f: &mut fmt::Formatter<W>) -> fmt::Result {
        write!(f, "refused {} at {}", self.refusal.number(), self.place)
    }
}

impl Error for Fault {}
