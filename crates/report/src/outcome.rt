ghost use Rattle.std.specs.Prelude.{Some};
ghost use Rattle.report.specs.Texts.{outcome_text};

use model::{Judgement, Refusal};
use std::fmt;

// What a preference said of a difference, with the words for what shows nothing.
#[derive(Clone, Copy)]
pub struct Outcome<'a> {
    pub answer: Result<Judgement, Refusal>,
    pub nothing: &'a str,
}

impl fmt::Display for Outcome<'_> {
    ghost output = { λ outcome. Some (outcome_text outcome.answer outcome.nothing.now) };

    fn fmt<W: fmt::Write>(&self, f: &mut fmt::Formatter<W>) -> fmt::Result {
        let nothing = self.nothing;
        match self.answer {
            Ok(Judgement::Shown) => f.write_str("shown: no admissible weight makes it negative"),
            Ok(Judgement::NotShown) => write!(f, "not shown: {nothing}"),
            Ok(Judgement::OutOfRange) => write!(f, "out of range: {nothing}"),
            Err(refusal) => write!(f, "refused {refusal}"),
        }
    }
}
