ghost use Rattle.std.specs.Prelude.{◌≡◌};
ghost use Rattle.model.specs.Limits.{figures_grounds};
ghost use Rattle.model.specs.Refusals.{Checked};
ghost use Rattle.model.specs.Values.{figures_of};

use crate::figures::Figures;
use crate::lists::{LIMIT, all_within};
use crate::{PerFigure, Refusal};

impl Figures {
    // The figures in their order; refused where there are not 1 to 8, or one is above the limit.
    pub fn new(figures: &[u32]) -> Result<Figures, Refusal>
        ensures { Checked (figures_grounds figures.now) result (λ made. figures_of made ≡ figures.now) }
    {
        let values = PerFigure::new(figures).ok_or(Refusal::FigureCount)?;
        if !all_within(figures, LIMIT) {
            return Err(Refusal::Part);
        }
        Ok(Figures { values })
    }

    pub fn values(&self) -> &[u32]
        ensures { result.now ≡ figures_of self.now }
    {
        self.values.as_slice()
    }
}
