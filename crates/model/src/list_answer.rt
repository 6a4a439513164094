ghost use Rattle.std.specs.Prelude.{◌≡◌, Some};
ghost use Rattle.model.specs.Answers.{list_word};

use std::fmt;

// Whether another variant is never worse.
#[derive(Clone, Copy, PartialEq, Eq, Debug)]
pub enum ListAnswer {
    Kept,
    Dropped,
    Open,
}

impl ListAnswer {
    // As text that lives as long as the program; `Display` writes it.
    pub fn word(self) -> &'static str
        ensures { result.now ≡ list_word self }
    {
        match self {
            ListAnswer::Kept => "kept",
            ListAnswer::Dropped => "dropped",
            ListAnswer::Open => "open",
        }
    }
}

impl fmt::Display for ListAnswer {
    ghost output = { λ answer. Some (list_word answer) };

    fn fmt<W: fmt::Write>(&self, f: &mut fmt::Formatter<W>) -> fmt::Result {
        f.write_str(self.word())
    }
}
