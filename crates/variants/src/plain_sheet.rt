ghost use Rattle.std.specs.Prelude.{◌≡◌};
ghost use Rattle.model.specs.Limits.{figures_grounds};
ghost use Rattle.model.specs.Refusals.{Checked};
ghost use Rattle.model.specs.Variants.{no_greater};
ghost use Rattle.variants.specs.Sheets.{plain_figures};
ghost use Rattle.model.specs.Stored.{figures_limits};
ghost use Rattle.model.specs.Orders.{no_greater_holds};

use model::{Figures, Refusal, Variant};

// A plain sheet: 1 to 8 figures, and nothing else. A kind of sheet, which hands on the order of its figures.
#[derive(Clone, Copy)]
pub struct PlainSheet {
    figures: Figures,
}

impl PlainSheet {
    // The sheet with these figures; refused where there are not 1 to 8, or one is above the limit.
    pub fn new(figures: &[u32]) -> Result<PlainSheet, Refusal>
        ensures { Checked (figures_grounds figures.now) result (λ made. plain_figures made ≡ figures.now) }
    {
        let figures = Figures::new(figures)?;
        Ok(PlainSheet { figures })
    }
}

// At least as good when there are as many figures and none is greater.
impl Variant for PlainSheet {
    ghost figures = { plain_figures };

    ghost better = { λ x y. no_greater (plain_figures x) (plain_figures y) };

    ghost limits = { λ x. figures_limits x.figures };

    ghost order = { λ x y h. no_greater_holds (plain_figures x) (plain_figures y) h };

    fn count(&self) -> usize {
        self.figures.count()
    }

    fn figure(&self, index: usize) -> u32 {
        self.figures.figure(index)
    }

    fn at_least_as_good(&self, other: &PlainSheet) -> bool {
        self.figures.at_least_as_good(&other.figures)
    }
}
