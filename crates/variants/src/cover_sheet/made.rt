ghost use Rattle.std.specs.Prelude.{◌≡◌};
ghost use Rattle.model.specs.Refusals.{Checked};
ghost use Rattle.variants.specs.Covers.{cover_grounds};

use crate::CoverTerms;
use crate::cover_sheet::{CoverSheet, LIMIT};
use model::Refusal;

// The most waiting days.
const DAYS: u32 = 3_650;

impl CoverSheet {
    // The sheet with these terms; refused where one is above its limit.
    pub fn new(terms: CoverTerms) -> Result<CoverSheet, Refusal>
        ensures { Checked (cover_grounds terms) result (λ made. made.terms ≡ terms) }
    {
        if terms.premium > LIMIT
            || terms.own_share > LIMIT
            || terms.sum_covered > LIMIT
            || terms.waiting_days > DAYS
        {
            return Err(Refusal::Part);
        }
        Ok(CoverSheet { terms })
    }
}
