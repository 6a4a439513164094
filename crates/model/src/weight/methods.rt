ghost use Rattle.std.specs.Prelude.{◌≡◌, ◌<◌, ◌≤◌, Decides, MatchOption};
ghost use Rattle.model.specs.Limits.{IsFigureCount, Proper, weight_grounds};
ghost use Rattle.model.specs.Refusals.{Checked};
ghost use Rattle.model.specs.Values.{parts_of};
ghost use Rattle.model.specs.Weighing.{total};

use crate::lists::{LIMIT, all_within};
use crate::weight::Weight;
use crate::{PerFigure, Refusal};

impl Weight {
    // The weight with these parts; refused where there are not 1 to 8, one is above the limit, or all are zero.
    pub fn new(parts: &[u32]) -> Result<Weight, Refusal>
        ensures { Checked (weight_grounds parts.now) result (λ made. parts_of made ≡ parts.now) }
    {
        let numbers = PerFigure::new(parts).ok_or(Refusal::Width)?;
        if !all_within(parts, LIMIT) || !any_positive(parts) {
            return Err(Refusal::Part);
        }
        Ok(Weight { parts: numbers })
    }

    // The weight of `dims` figures with these parts, none where they are no proper one.
    pub fn of_width(dims: usize, parts: &[u32]) -> Option<Weight>
        ensures { MatchOption result (IsFigureCount dims → Proper dims parts.now → ⊥) (λ made. (parts_of made ≡ parts.now) × Proper dims parts.now) }
    {
        if parts.len() != dims {
            return None;
        }
        Weight::new(parts).ok()
    }

    pub fn parts(&self) -> &[u32]
        ensures { result.now ≡ parts_of self.now }
    {
        self.parts.as_slice()
    }

    // The sum of the parts.
    pub fn total(&self) -> u64
        ensures value { result ≡ total (parts_of self.now) }
        ensures bound { result ≤ 8000000 }
    {
        self.parts().iter().map(|part| u64::from(*part)).sum()
    }
}

fn any_positive(parts: &[u32]) -> bool
    ensures { Decides result (0 < total parts.now) }
{
    parts.iter().any(|part| *part > 0)
}
