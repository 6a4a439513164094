ghost use Rattle.preferences.specs.Stored.{meaning_of};

use crate::rows::Rows;
use crate::rows::multiplied::Multiplied;
use model::{Difference, Judgement, Preference, Weight};

impl Preference for Rows {
    ghost meaning = { meaning_of };

    ghost lawful = { λ rows. rows.lawful };

    fn dims(&self) -> usize {
        self.dims
    }

    fn multipliers(&self) -> usize {
        self.rows.len()
    }

    fn sample(&self) -> &[u32] {
        self.sample.parts()
    }

    fn admits(&self, weight: &Weight) -> bool {
        weight.parts().len() == self.dims && self.rows.iter().all(|row| row.keeps(weight))
    }

    fn judge(&self, difference: &Difference, multipliers: &[u32]) -> Judgement {
        if difference.entries().len() != self.dims || multipliers.len() != self.rows.len() {
            return Judgement::NotShown;
        }
        let rows = Multiplied {
            rows: self.rows.as_slice(),
            multipliers,
        };
        Judgement::from(rows.show(difference))
    }
}
