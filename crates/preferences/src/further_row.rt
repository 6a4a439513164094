ghost use Rattle.std.specs.Prelude.{◌+◌, ◌≤◌};
ghost use Rattle.model.specs.Values.{parts_of};
ghost use Rattle.preferences.specs.FurtherRows.{further_meaning};
ghost use Rattle.preferences.specs.Judging.{JudgesLawfully};
ghost use Rattle.preferences.specs.StoredRow.{constraint_of};

use crate::row::Row;
use model::{Preference, Weight};

mod asked;
mod joined;
mod made;

pub use joined::further_row_joins_rows;

// One row more over any preference, which it contains, with a sample weight of its own.
#[derive(Drop)]
pub struct FurtherRow<P: Preference> {
    below: P,
    row: Row,
    sample: Weight,
    ghost room: { (P.meaning below).multipliers + 1 ≤ 64 },
    // The laws of a preference that speak of judgements, which the trait asks for.
    ghost judges: { JudgesLawfully (further_meaning (P.meaning below) (constraint_of row) (parts_of sample)) },
}
