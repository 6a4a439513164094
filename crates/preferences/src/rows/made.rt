ghost use Rattle.model.specs.Refusals.{Made};
ghost use Rattle.preferences.specs.Making.{rows_grounds};
ghost use Rattle.preferences.specs.Stored.{Holds};

use crate::rows::Rows;
use crate::rows::flat::RowList;
use model::{MakeError, Refusal, is_figure_count};
use std::alloc::Global;

impl Rows {
    // Rows over `dims` figures, given as one flat list: the coefficients of a row and then its bound, row after row. Every ground of refusal is checked before memory is asked for.
    pub fn new(
        heap: Global,
        dims: usize,
        numbers: &[i32],
        sample: &[u32],
    ) -> Result<Rows, MakeError>
        ensures { Made (rows_grounds dims numbers.now sample.now) result (Holds dims numbers.now sample.now) }
    {
        if !is_figure_count(dims) {
            return Err(MakeError::Refused(Refusal::FigureCount));
        }
        let list = RowList::new(dims, numbers).ok_or(Refusal::Rows)?;
        let sample = list.sample(sample).ok_or(Refusal::Sample)?;
        let rows = list.read(heap)?;
        Ok(Rows { dims, rows, sample })
    }
}
