ghost use Rattle.std.specs.Prelude.{◌≤◌, length};

use crate::CoverTerms;

mod made;
mod order;

// The largest premium, own share and sum covered.
const LIMIT: u32 = 1_000_000;

// A cover sheet: terms within their limits.
#[derive(Clone, Copy)]
pub struct CoverSheet {
    terms: CoverTerms,
    ghost premium: { terms.premium ≤ 1000000 },
    ghost share: { terms.own_share ≤ 1000000 },
    ghost sum: { terms.sum_covered ≤ 1000000 },
    ghost days: { terms.waiting_days ≤ 3650 },
    ghost marks: { length terms.exclusions ≤ 8 },
}
