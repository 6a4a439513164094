ghost use Rattle.std.specs.Prelude.{◌≡◌, MatchOption};
ghost use Rattle.model.specs.Limits.{IsFigureCount};
ghost use Rattle.model.specs.Meaning.{SampleOf};
ghost use Rattle.model.specs.Refusals.{Checked, HandsBack};
ghost use Rattle.model.specs.Values.{parts_of};
ghost use Rattle.preferences.specs.FurtherRows.{further_meaning, further_grounds};
ghost use Rattle.preferences.specs.RowList.{row_at_front};
ghost use Rattle.preferences.specs.Stored.{Tops};
ghost use Rattle.preferences.specs.StoredRow.{constraint_of};

use crate::further_row::FurtherRow;
use crate::row::{ROW_LIMIT, Row};
use model::{HandedBack, Preference, Refusal, Weight, all_within, is_figure_count};

impl<P: Preference> FurtherRow<P> {
    // One row over `below`, given as its coefficients and then its bound. A refusal hands `below` back.
    pub fn new(
        below: P,
        numbers: &[i32],
        sample: &[u32],
    ) -> Result<FurtherRow<P>, HandedBack<P, Refusal>>
        ensures { HandsBack (further_grounds (P.meaning below) numbers.now sample.now) below result (Tops (P.meaning below).dims below numbers.now sample.now) }
    {
        // A `match`, since a closure for `map_err` would take `below`.
        match row_and_sample(&below, numbers, sample) {
            Ok((row, sample)) => Ok(FurtherRow { below, row, sample }),
            Err(refusal) => Err(HandedBack {
                value: below,
                error: refusal,
            }),
        }
    }
}

// The row and the sample, checked against the preference that they are to stand over.
fn row_and_sample<P: Preference>(
    below: &P,
    numbers: &[i32],
    sample: &[u32],
) -> Result<(Row, Weight), Refusal>
    ensures { Checked (further_grounds (P.meaning below.now) numbers.now sample.now) result (λ made. (constraint_of made.0 ≡ row_at_front (P.meaning below.now).dims numbers.now) × (parts_of made.1 ≡ sample.now)) }
{
    let dims = below.dims();
    if !is_figure_count(dims) {
        return Err(Refusal::FigureCount);
    }
    if numbers.len() != dims + 1 || below.multipliers() > 63 {
        return Err(Refusal::Rows);
    }
    if !all_within(numbers, ROW_LIMIT) {
        return Err(Refusal::Rows);
    }
    let row = Row::read(dims, numbers);
    let sample = admissible_sample(below, &row, sample).ok_or(Refusal::Sample)?;
    Ok((row, sample))
}

// The sample as a weight, where it is proper, admissible below, and keeps the row. Rows ask theirs of a list.
fn admissible_sample<P: Preference>(below: &P, row: &Row, sample: &[u32]) -> Option<Weight>
    ensures { MatchOption result (IsFigureCount (P.meaning below.now).dims → SampleOf (further_meaning (P.meaning below.now) (constraint_of row.now) sample.now) sample.now → ⊥) (λ weight. (parts_of weight ≡ sample.now) × SampleOf (further_meaning (P.meaning below.now) (constraint_of row.now) sample.now) sample.now) }
{
    let weight = Weight::of_width(below.dims(), sample)?;
    (below.admits(&weight) && row.keeps(&weight)).then_some(weight)
}
