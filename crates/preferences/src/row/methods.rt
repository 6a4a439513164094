ghost use Rattle.std.specs.Prelude.{◌≡◌, ◌+◌, ◌≤◌, length, pos, ◌+ℤ◌, ◌*ℤ◌, Decides, MatchOption, if◌then◌else◌, nat_lt, slice_index_or, unsigned_abs};
ghost use Rattle.std.specs.List.{AllByRecursion};
ghost use Rattle.model.specs.Limits.{InRange, IsFigureCount};
ghost use Rattle.model.specs.Values.{entries_of, parts_of};
ghost use Rattle.model.specs.Weighing.{total, weighed as weighed_by};
ghost use Rattle.preferences.specs.Constraints.{InRowLimit, Keeps, effective as effective_of};
ghost use Rattle.preferences.specs.FurtherRows.{with_row};
ghost use Rattle.preferences.specs.RowList.{row_at_front};
ghost use Rattle.preferences.specs.StoredRow.{constraint_of};

use crate::row::Row;
use model::{Difference, PerFigure, Weight};
use std::array;

impl Row {
    // The row at the front of a list of numbers: `dims` coefficients and a bound.
    pub(crate) fn read(dims: usize, numbers: &[i32]) -> Row
        requires figures { IsFigureCount dims }
        requires whole { dims + 1 ≤ length numbers.now }
        requires limits { AllByRecursion InRowLimit numbers.now }
        ensures { constraint_of result ≡ row_at_front dims numbers.now }
    {
        Row {
            coefficients: PerFigure::new(&numbers[..dims]).unwrap(),
            bound: numbers[dims],
        }
    }

    // The coefficient at a figure less the bound.
    fn effective(&self, index: usize) -> i64
        ensures value { result ≡ effective_of (constraint_of self.now) index }
        ensures size { unsigned_abs result ≤ 20000 }
    {
        let coefficients = self.coefficients.as_slice();
        let coefficient = coefficients.get(index).copied().unwrap_or(0);
        i64::from(coefficient) - i64::from(self.bound)
    }

    // What a multiplier of the row adds at a figure.
    pub(crate) fn times(&self, multiplier: u32, index: usize) -> i64
        ensures value { result ≡ pos multiplier *ℤ effective_of (constraint_of self.now) index }
        ensures size { unsigned_abs result ≤ 85899345920000 }
    {
        i64::from(multiplier) * self.effective(index)
    }

    // The sum of part times coefficient.
    fn weighed(&self, weight: &Weight) -> i64
        ensures value { result ≡ weighed_by (parts_of weight.now) (constraint_of self.now).coefficients }
        ensures size { unsigned_abs result ≤ 80000000000 }
    {
        let mut sum: i64 = 0;
        for (part, coefficient) in weight.parts().iter().zip(self.coefficients.as_slice()) {
            sum += i64::from(*part) * i64::from(*coefficient);
        }
        sum
    }

    // The bound times the sum of all parts.
    fn allowed(&self, weight: &Weight) -> i64
        ensures value { result ≡ (constraint_of self.now).bound *ℤ pos (total (parts_of weight.now)) }
        ensures size { unsigned_abs result ≤ 80000000000 }
    {
        // `as` is proved to lose nothing; `try_from` would have a case that never comes.
        let total = weight.total() as i64;
        i64::from(self.bound) * total
    }

    // The difference with a multiple of the effective coefficients added at each figure, none where that is beyond the range.
    pub(crate) fn added_to(&self, difference: &Difference, multiplier: u32) -> Option<Difference>
        ensures { MatchOption result (AllByRecursion InRange (with_row (constraint_of self.now) multiplier (entries_of difference.now)) → ⊥) (λ sum. entries_of sum ≡ with_row (constraint_of self.now) multiplier (entries_of difference.now)) }
    {
        // An array of eight, so that no memory is needed.
        let sums: [i64; 8] = array::from_fn(|index| self.sum(difference, multiplier, index));
        Difference::new(&sums[..difference.entries().len()]).ok()
    }

    // The sum for `added_to` at a figure, and 0 past the last, where nothing is added up.
    fn sum(&self, difference: &Difference, multiplier: u32, index: usize) -> i64
        ensures { result ≡ (if nat_lt index (length (entries_of difference.now)) then slice_index_or (entries_of difference.now) index (pos 0) +ℤ (pos multiplier *ℤ effective_of (constraint_of self.now) index) else pos 0) }
    {
        if index < difference.entries().len() {
            difference.entry(index) + self.times(multiplier, index)
        } else {
            0
        }
    }

    // Whether the weight keeps the row.
    pub(crate) fn keeps(&self, weight: &Weight) -> bool
        ensures { Decides result (Keeps (parts_of weight.now) (constraint_of self.now)) }
    {
        self.weighed(weight) <= self.allowed(weight)
    }
}
