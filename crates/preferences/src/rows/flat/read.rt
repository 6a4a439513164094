ghost use Rattle.std.specs.Prelude.{◌≡◌, map, IfOk, MatchOption};
ghost use Rattle.model.specs.Limits.{IsFigureCount};
ghost use Rattle.model.specs.Values.{parts_of};
ghost use Rattle.preferences.specs.Constraints.{all_keep};
ghost use Rattle.preferences.specs.Making.{GoodSample};
ghost use Rattle.preferences.specs.RowList.{IsRowList, rows_in};
ghost use Rattle.preferences.specs.StoredRow.{constraint_of};

use crate::row::{ROW_LIMIT, Row};
use crate::rows::flat::RowList;
use model::{Weight, all_within, is_figure_count};
use std::alloc::{AllocError, Global};

impl RowList<'_> {
    // The list of these numbers, none where they are no list of rows.
    pub(crate) fn new(dims: usize, numbers: &[i32]) -> Option<RowList<'_>>
        ensures { MatchOption result (IsFigureCount dims → IsRowList dims numbers.now → ⊥) (λ list. (list.dims ≡ dims) × (list.numbers.now ≡ numbers.now)) }
    {
        if !is_figure_count(dims) {
            return None;
        }
        // The length first, so that a list that is too long is refused unread.
        let width = dims + 1;
        if numbers.len() % width != 0
            || numbers.len() / width > 16
            || !all_within(numbers, ROW_LIMIT)
        {
            return None;
        }
        Some(RowList { dims, numbers })
    }

    // Whether the weight keeps every row. A `for`, as below, since `Row::read` asks of a chunk what no closure is told.
    fn keeps(&self, weight: &Weight) -> bool
        ensures { result ≡ all_keep (parts_of weight.now) (rows_in self.now.dims self.now.numbers.now) }
    {
        for numbers in self.numbers.chunks_exact(self.dims + 1) {
            if !Row::read(self.dims, numbers).keeps(weight) {
                return false;
            }
        }
        true
    }

    // The sample as a weight, where it is proper and admissible under the rows.
    pub(crate) fn sample(&self, sample: &[u32]) -> Option<Weight>
        ensures { MatchOption result (GoodSample self.now.dims self.now.numbers.now sample.now → ⊥) (λ weight. (parts_of weight ≡ sample.now) × GoodSample self.now.dims self.now.numbers.now sample.now) }
    {
        let weight = Weight::of_width(self.dims, sample)?;
        self.keeps(&weight).then_some(weight)
    }

    pub(crate) fn read(&self, heap: Global) -> Result<Vec<Row>, AllocError>
        ensures { IfOk result (λ rows. map constraint_of rows.items ≡ rows_in self.now.dims self.now.numbers.now) }
    {
        let rows = self.numbers.chunks_exact(self.dims + 1);
        let mut held = Vec::with_capacity(heap, rows.len())?;
        for numbers in rows {
            held.push(Row::read(self.dims, numbers))?;
        }
        Ok(held)
    }
}
