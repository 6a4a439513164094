ghost use Rattle.std.specs.Prelude.{◌≡◌, ℕ, ◌*◌, ◌<◌, ◌≤◌, map, length, pos, ◌+ℤ◌, ◌≤ℤ◌, Decides, slice_index_or, unsigned_abs};
ghost use Rattle.model.specs.Values.{entries_of};
ghost use Rattle.preferences.specs.Constraints.{lift as lift_of};
ghost use Rattle.preferences.specs.StoredRow.{constraint_of};

use crate::rows::multiplied::Multiplied;
use model::Difference;

impl Multiplied<'_> {
    // What the multipliers add at a figure.
    fn lift(&self, index: usize) -> i64
        ensures value { result ≡ lift_of (map constraint_of self.now.rows.now) self.now.multipliers.now index }
        ensures size { unsigned_abs result ≤ 85899345920000 * 16 }
    {
        let mut sum: i64 = 0;
        for (row, multiplier) in self.rows.iter().zip(self.multipliers) {
            sum += row.times(*multiplier, index);
        }
        sum
    }

    // The difference and what the multipliers add, at a figure; `Row::sum` adds what one row does.
    fn sum(&self, difference: &Difference, index: usize) -> i64
        ensures { result ≡ slice_index_or (entries_of difference.now) index (pos 0) +ℤ lift_of (map constraint_of self.now.rows.now) self.now.multipliers.now index }
    {
        difference.entry(index) + self.lift(index)
    }

    // Whether at each figure the difference and what the multipliers add are together not negative.
    pub(crate) fn show(&self, difference: &Difference) -> bool
        ensures { Decides result ((i : ℕ) → i < length (entries_of difference.now) → pos 0 ≤ℤ (slice_index_or (entries_of difference.now) i (pos 0) +ℤ lift_of (map constraint_of self.now.rows.now) self.now.multipliers.now i)) }
    {
        (0..difference.entries().len()).all(|index| self.sum(difference, index) >= 0)
    }
}
