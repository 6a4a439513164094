ghost use Rattle.std.specs.Prelude.{◌≡◌};
ghost use Rattle.model.specs.Values.{figures_of, parts_of};
ghost use Rattle.model.specs.Weighing.{score as score_of};

use crate::{Figures, Weight};

// The score of the figures under the weight; lower is better. In natural numbers, where a row weighs in signed ones.
pub fn score(weight: &Weight, figures: &Figures) -> u64
    ensures { result ≡ score_of (parts_of weight.now) (figures_of figures.now) }
{
    let mut sum: u64 = 0;
    for (part, figure) in weight.parts().iter().zip(figures.values()) {
        sum += u64::from(*part) * u64::from(*figure);
    }
    sum
}
