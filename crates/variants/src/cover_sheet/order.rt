ghost use Rattle.std.specs.Prelude.{◌≡◌};
ghost use Rattle.variants.specs.Covers.{cover_figures, cover_better, marks_set, set_too};
ghost use Rattle.variants.specs.CoverLaws.{cover_limits, cover_order};

use crate::cover_sheet::{CoverSheet, LIMIT};
use model::Variant;

// At least as good when premium, own share and days are no greater, the sum covered is no smaller, and each exclusion stands in the other too.
impl Variant for CoverSheet {
    ghost figures = { λ sheet. cover_figures sheet.terms };

    ghost better = { λ x y. cover_better x.terms y.terms };

    ghost limits = { λ sheet. cover_limits sheet.terms sheet.premium sheet.share sheet.days sheet.marks };

    ghost order = { λ x y better. cover_order x.terms y.terms better };

    fn count(&self) -> usize {
        5
    }

    fn figure(&self, index: usize) -> u32 {
        match index {
            0 => self.terms.premium,
            1 => self.terms.own_share,
            2 => LIMIT - self.terms.sum_covered,
            3 => self.terms.waiting_days,
            4 => count_set(&self.terms.exclusions),
            _ => 0,
        }
    }

    fn at_least_as_good(&self, other: &CoverSheet) -> bool {
        let terms = &self.terms;
        let others = &other.terms;
        terms.premium <= others.premium
            && terms.own_share <= others.own_share
            && terms.waiting_days <= others.waiting_days
            && terms.sum_covered >= others.sum_covered
            && all_set_too(&terms.exclusions, &others.exclusions)
    }
}

// How many marks are set.
fn count_set(marks: &[bool; 8]) -> u32
    ensures { result ≡ marks_set marks.now }
{
    marks.iter().map(|mark| u32::from(*mark)).sum()
}

// Whether each mark that is set is set in the others too.
fn all_set_too(marks: &[bool; 8], others: &[bool; 8]) -> bool
    ensures { result ≡ set_too marks.now others.now }
{
    marks
        .iter()
        .zip(others)
        .all(|(mark, other)| !*mark || *other)
}
