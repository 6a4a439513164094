ghost use Rattle.std.specs.Prelude.{◌≡◌, Some};
ghost use Rattle.model.specs.Answers.{top_word};

use std::fmt;

// Whether some admissible weight makes the variant the single best. Its words are its own, so it is no `ListAnswer`.
#[derive(Clone, Copy, PartialEq, Eq, Debug)]
pub enum TopAnswer {
    First,
    Never,
    Open,
}

impl TopAnswer {
    // As text that lives as long as the program; `Display` writes it.
    pub fn word(self) -> &'static str
        ensures { result.now ≡ top_word self }
    {
        match self {
            TopAnswer::First => "first",
            TopAnswer::Never => "never",
            TopAnswer::Open => "open",
        }
    }
}

impl fmt::Display for TopAnswer {
    ghost output = { λ answer. Some (top_word answer) };

    fn fmt<W: fmt::Write>(&self, f: &mut fmt::Formatter<W>) -> fmt::Result {
        f.write_str(self.word())
    }
}
