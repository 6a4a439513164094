ghost use Rattle.std.specs.Prelude.{◌≡◌, Some};
ghost use Rattle.std.specs.Fmt.{decimal};
ghost use Rattle.model.specs.Refusals.{number};

use std::error::Error;
use std::fmt;

// The grounds on which a call or a file is refused, each with its number, in the order in which they are checked.
#[derive(Clone, Copy, PartialEq, Eq, Debug)]
pub enum Refusal {
    FileSize = 1,
    Header = 2,
    Offsets = 3,
    FigureCount = 4,
    Rows = 5,
    Sample = 6,
    Width = 7,
    Part = 8,
    Full = 9,
    SameFigures = 10,
    NotAdmissible = 11,
    ClaimBytes = 12,
    NotStanding = 13,
    Mixture = 14,
    ProofLength = 15,
    ProofNumber = 16,
    OutOfRange = 17,
    NotShown = 18,
    Buffer = 19,
}

impl Refusal {
    // The number that is returned and printed.
    pub fn number(self) -> u8
        ensures { result ≡ number self }
    {
        self as u8
    }
}

impl fmt::Display for Refusal {
    ghost output = { λ refusal. Some (decimal (number refusal)) };

    fn fmt<W: fmt::Write>(&self, f: &mut fmt::Formatter<W>) -> fmt::Result {
        write!(f, "{}", self.number())
    }
}

impl Error for Refusal {}
