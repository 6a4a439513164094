ghost use Rattle.std.specs.Prelude.{◌≡◌, Some};
ghost use Rattle.model.specs.Errors.{error_text};
ghost use Rattle.model.specs.declared.make_error.MakeError.TheVariants.{Refused, Memory};

use crate::Refusal;
use std::alloc::AllocError;
use std::error::Error;
use std::fmt;

// Why something that needs memory was not made: a ground of refusal, or want of memory, which has no number.
#[derive(Clone, Copy, PartialEq, Eq, Debug)]
pub enum MakeError {
    Refused(Refusal),
    Memory,
}

// By hand, as the next one is, since contracts name what `?` makes of an error.
impl From<Refusal> for MakeError {
    ghost from_gives = { λ refusal r. r ≡ Refused refusal };

    fn from(refusal: Refusal) -> MakeError {
        MakeError::Refused(refusal)
    }
}

impl From<AllocError> for MakeError {
    ghost from_gives = { λ _ r. r ≡ Memory };

    fn from(_error: AllocError) -> MakeError {
        MakeError::Memory
    }
}

impl fmt::Display for MakeError {
    ghost output = { λ error. Some (error_text error) };

    fn fmt<W: fmt::Write>(&self, f: &mut fmt::Formatter<W>) -> fmt::Result {
        match self {
            Self::Refused(refusal) => write!(f, "refused {refusal}"),
            Self::Memory => f.write_str("out of memory"),
        }
    }
}

impl Error for MakeError {}
