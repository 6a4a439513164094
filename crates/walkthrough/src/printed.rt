ghost use Rattle.std.specs.Prelude.{Some, flat_map};
ghost use Rattle.walkthrough.specs.Texts.{pair_text, claim_text, finding_text};

use crate::claims::{Claim, Finding};
use model::Share;
use report::{Outcome, Spaced};
use std::fmt;

// The pairs of a mixture.
#[derive(Clone, Copy)]
struct Mixture<'a>(&'a [Share]);

impl fmt::Display for Mixture<'_> {
    ghost output = { λ mixture. Some (flat_map pair_text mixture.0.now) };

    fn fmt<W: fmt::Write>(&self, f: &mut fmt::Formatter<W>) -> fmt::Result {
        for pair in self.0 {
            write!(f, " sheet {} share {},", pair.variant, pair.share)?;
        }
        Ok(())
    }
}

impl fmt::Display for Claim<'_> {
    ghost output = { claim_text };

    fn fmt<W: fmt::Write>(&self, f: &mut fmt::Formatter<W>) -> fmt::Result {
        let mixture = Mixture(self.mixture);
        let multipliers = Spaced(self.multipliers);
        write!(
            f,
            "a claim against sheet {} by{mixture} with multipliers{multipliers}",
            self.target
        )
    }
}

// The difference, and below it what the preference says of it.
impl fmt::Display for Finding {
    ghost output = { finding_text };

    fn fmt<W: fmt::Write>(&self, f: &mut fmt::Formatter<W>) -> fmt::Result {
        let entries = Spaced(self.difference.as_slice());
        let outcome = Outcome {
            answer: self.judgement,
            nothing: "these multipliers show nothing",
        };
        write!(f, "  the difference is{entries}\n  {outcome}")
    }
}
