ghost use Rattle.model.specs.Values.{parts_of};
ghost use Rattle.preferences.specs.FurtherRowLaws.{further_lawful};
ghost use Rattle.preferences.specs.FurtherRows.{further_meaning};
ghost use Rattle.preferences.specs.StoredRow.{constraint_of};

use crate::further_row::FurtherRow;
use model::{Difference, Judgement, Preference, Weight};

impl<P: Preference> Preference for FurtherRow<P> {
    ghost meaning = { λ further. further_meaning (P.meaning further.below) (constraint_of further.row) (parts_of further.sample) };

    ghost lawful = { λ further. further_lawful (P.meaning further.below) (P.lawful further.below) (constraint_of further.row) (parts_of further.sample) further.judges };

    fn dims(&self) -> usize {
        self.below.dims()
    }

    fn multipliers(&self) -> usize {
        self.below.multipliers() + 1
    }

    fn sample(&self) -> &[u32] {
        self.sample.parts()
    }

    fn admits(&self, weight: &Weight) -> bool {
        self.below.admits(weight) && self.row.keeps(weight)
    }

    fn judge(&self, difference: &Difference, multipliers: &[u32]) -> Judgement {
        let [first, rest @ ..] = multipliers else {
            return Judgement::NotShown;
        };
        match self.row.added_to(difference, *first) {
            Some(sum) => self.below.judge(&sum, rest),
            None => Judgement::OutOfRange,
        }
    }
}
