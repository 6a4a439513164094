ghost use Rattle.std.specs.Prelude.{ℕ, suc, ◌<◌, length, pos, ◌≤ℤ◌, Decides};
ghost use Rattle.model.specs.Values.{entries_of};
ghost use Rattle.preferences.specs.Rankings.{ranking_meaning, NeverRises, first_sum};

use crate::ranking::Ranking;
use model::{Difference, Judgement, Preference, Weight};

// The parts of the sample, as many of them as there are figures. They are lent, so they stand in the program.
static ONES: [u32; 8] = [1; 8];

impl Preference for Ranking {
    ghost meaning = { λ ranking. ranking_meaning ranking.dims };

    ghost lawful = { λ ranking. ranking.lawful };

    fn dims(&self) -> usize {
        self.dims
    }

    fn multipliers(&self) -> usize {
        0
    }

    fn sample(&self) -> &[u32] {
        &ONES[0..self.dims]
    }

    fn admits(&self, weight: &Weight) -> bool {
        weight.parts().len() == self.dims && never_rises(weight.parts())
    }

    // As rows judge, but with no multipliers and by another test.
    fn judge(&self, difference: &Difference, multipliers: &[u32]) -> Judgement {
        if difference.entries().len() != self.dims || !multipliers.is_empty() {
            return Judgement::NotShown;
        }
        Judgement::from(no_sum_negative(difference))
    }
}

// Whether no part is greater than the one before it.
fn never_rises(parts: &[u32]) -> bool
    ensures { Decides result (NeverRises parts.now) }
{
    parts.is_sorted_by(|before, part| part <= before)
}

// Whether the sums of the first entry, of the first two, and so on to all of them are not negative.
fn no_sum_negative(difference: &Difference) -> bool
    ensures { Decides result ((n : ℕ) → n < length (entries_of difference.now) → pos 0 ≤ℤ first_sum (entries_of difference.now) (suc n)) }
{
    let entries = difference.entries();
    let mut sum: i64 = 0;
    for entry in entries {
        sum += *entry;
        if sum < 0 {
            return false;
        }
    }
    true
}
