ghost use Rattle.std.specs.List.{AllByRecursion, AllByRecursion-prop};
ghost use Rattle.std.proofs.Props.{props};
ghost use Rattle.model.specs.Numbers.{numbers_of};
ghost use Rattle.preferences.specs.Constraints.{InRowLimit};

use model::PerFigure;

mod methods;

// The largest coefficient and bound.
pub(crate) const ROW_LIMIT: u64 = 10_000;

// One linear constraint on weights: a coefficient for each figure and a bound, each −10,000 to 10,000.
#[derive(Clone, Copy)]
pub(crate) struct Row {
    coefficients: PerFigure<i32>,
    bound: i32,
    ghost limits: { AllByRecursion InRowLimit (numbers_of coefficients) } by { Prim.hlevel (props, AllByRecursion-prop) },
    ghost bounded: { InRowLimit bound },
}
