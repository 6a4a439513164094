ghost use Rattle.std.specs.Prelude.{◌≡◌, ◌≤◌, pos, slice_index_or, unsigned_abs};
ghost use Rattle.model.specs.Limits.{difference_grounds};
ghost use Rattle.model.specs.Refusals.{Checked};
ghost use Rattle.model.specs.Values.{entries_of};

use crate::difference::Difference;
use crate::lists::{RANGE, all_within};
use crate::{PerFigure, Refusal};

// As figures and weights are made, each with grounds of its own.
impl Difference {
    // The difference with these entries; refused where there are not 1 to 8, or one is beyond the range.
    pub fn new(entries: &[i64]) -> Result<Difference, Refusal>
        ensures { Checked (difference_grounds entries.now) result (λ made. entries_of made ≡ entries.now) }
    {
        let numbers = PerFigure::new(entries).ok_or(Refusal::Width)?;
        if !all_within(entries, RANGE) {
            return Err(Refusal::OutOfRange);
        }
        Ok(Difference { entries: numbers })
    }

    pub fn entries(&self) -> &[i64]
        ensures { result.now ≡ entries_of self.now }
    {
        self.entries.as_slice()
    }

    // The entry at a place from 0, and 0 past the last.
    pub fn entry(&self, index: usize) -> i64
        ensures value { result ≡ slice_index_or (entries_of self.now) index (pos 0) }
        ensures size { unsigned_abs result ≤ 1000000000000 }
    {
        self.entries().get(index).copied().unwrap_or(0)
    }
}
