ghost use Rattle.kinds.specs.Texts.{multipliers_text};

use model::Preference;
use report::{Outcome, Spaced};
use std::{fmt, io};

// The multipliers of a question, in words where there are none.
#[derive(Clone, Copy)]
struct Multipliers<'a>(&'a [u32]);

impl fmt::Display for Multipliers<'_> {
    ghost output = { λ multipliers. multipliers_text multipliers.0.now };

    fn fmt<W: fmt::Write>(&self, f: &mut fmt::Formatter<W>) -> fmt::Result {
        if self.0.is_empty() {
            f.write_str("without multipliers")
        } else {
            write!(f, "with multipliers{}", Spaced(self.0))
        }
    }
}

// Asks the preference about a difference with multipliers, and prints the question and the answer.
pub(crate) fn ask<P: Preference>(
    rt: &HostRuntime,
    preference: &P,
    difference: &[i64],
    multipliers: &[u32],
) -> io::Result<()> {
    let outcome = Outcome {
        answer: preference.ask_difference(difference, multipliers),
        nothing: "this certificate proves nothing",
    };
    println!(rt;
        "the difference{}, {}\n  {outcome}",
        Spaced(difference),
        Multipliers(multipliers)
    )
}
