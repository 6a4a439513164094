ghost use Rattle.std.specs.Prelude.{◌≡◌};
ghost use Rattle.model.specs.Values.{figures_of};
ghost use Rattle.model.specs.Variants.{no_greater};
ghost use Rattle.model.specs.Stored.{figures_limits};
ghost use Rattle.model.specs.Orders.{no_greater_holds};

use crate::Variant;
use crate::figures::Figures;

// Figures are a kind of variant themselves: at least as good when there are as many and none is greater.
impl Variant for Figures {
    ghost figures = { figures_of };

    ghost better = { λ x y. no_greater (figures_of x) (figures_of y) };

    ghost limits = { λ x. figures_limits x };

    ghost order = { λ x y h. no_greater_holds (figures_of x) (figures_of y) h };

    fn count(&self) -> usize {
        self.values().len()
    }

    fn figure(&self, index: usize) -> u32 {
        self.values().get(index).copied().unwrap_or(0)
    }

    fn at_least_as_good(&self, other: &Figures) -> bool {
        none_greater(self.values(), other.values())
    }
}

fn none_greater(figures: &[u32], others: &[u32]) -> bool
    ensures { result ≡ no_greater figures.now others.now }
{
    figures.len() == others.len()
        && figures
            .iter()
            .zip(others)
            .all(|(figure, other)| figure <= other)
}
