//! What the modeller hands back.

ghost use Rattle.std.specs.Prelude.{◌≡◌, Some};
ghost use Rattle.modeller.specs.Answered.{reply_text};
ghost use Rattle.modeller.specs.Refusals.{number_and_place, refused_text};

use reader::types::Refusal;
use solid::types::Told;
use std::error::Error;
use std::fmt;

/// Why nothing is told.
#[derive(Clone, Copy, Debug, PartialEq, Eq)]
pub enum Refused {
    /// A fault of the text.
    Text(Refusal),
    /// The words lent for the steps are too few.
    Steps,
    /// The words lent for the work are too few.
    Work,
}

impl Refused {
    /// The refusal's number.
    // Users know refusals by these numbers, so they are told as such.
    pub fn number(self) -> usize
        ensures { result ≡ (number_and_place self).number }
    {
        match self {
            Refused::Text(Refusal::Grammar(_)) => 1,
            Refused::Text(Refusal::Name(_)) => 2,
            Refused::Text(Refusal::Limit(_)) => 3,
            Refused::Text(Refusal::Range(_)) => 4,
            Refused::Steps | Refused::Work => 5,
        }
    }

    /// Where it is refused.
    // Users know the place beside the number; of too few words it says which.
    pub fn place(self) -> usize
        ensures { result ≡ (number_and_place self).place }
    {
        match self {
            Refused::Text(Refusal::Grammar(at))
            | Refused::Text(Refusal::Name(at))
            | Refused::Text(Refusal::Limit(at))
            | Refused::Text(Refusal::Range(at)) => at,
            Refused::Steps => 0,
            Refused::Work => 1,
        }
    }
}

impl From<Refusal> for Refused {
    ghost use Rattle.modeller.specs.declared.types.Refused.{Refused};

    ghost from_gives = { λ why r. r ≡ Refused.Text why };

    fn from(why: Refusal) -> Refused {
        Refused::Text(why)
    }
}

impl fmt::Display for Refused {
    ghost output = { λ why. Some (refused_text why) };

    fn fmt<W: fmt::Write>(&self, f: &mut fmt::Formatter<W>) -> fmt::Result {
        write!(f, "refused {} at {}", self.number(), self.place())
    }
}

impl Error for Refused {}

/// The answer to a question.
#[derive(Clone, Copy, Debug, PartialEq, Eq)]
pub enum Reply {
    /// Where the place is.
    Place(Told),
}

impl fmt::Display for Reply {
    ghost output = { λ reply. Some (reply_text reply) };

    fn fmt<W: fmt::Write>(&self, f: &mut fmt::Formatter<W>) -> fmt::Result {
        match self {
            Reply::Place(told) => write!(f, "{told}"),
        }
    }
}
