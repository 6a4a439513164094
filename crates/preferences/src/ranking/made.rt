ghost use Rattle.std.specs.Prelude.{◌≡◌};
ghost use Rattle.model.specs.Meaning.{SampleOf};
ghost use Rattle.model.specs.Refusals.{Checked};
ghost use Rattle.preferences.specs.Rankings.{ranking_grounds, ranking_meaning};

use crate::ranking::Ranking;
use model::{Refusal, is_figure_count};

impl Ranking {
    // The ranking of `dims` figures; refused where they are not 1 to 8. Its sample is a good one.
    pub fn new(dims: usize) -> Result<Ranking, Refusal>
        ensures { Checked (ranking_grounds dims) result (λ made. (made.dims ≡ dims) × SampleOf (ranking_meaning dims) (ranking_meaning dims).sample) }
    {
        if !is_figure_count(dims) {
            return Err(Refusal::FigureCount);
        }
        Ok(Ranking { dims })
    }
}
