ghost use Rattle.std.specs.List.{AllByRecursion, AllByRecursion-prop};
ghost use Rattle.std.proofs.Props.{props};
ghost use Rattle.model.specs.Limits.{InRange};
ghost use Rattle.model.specs.Numbers.{numbers_of};

use crate::PerFigure;

mod methods;

// A difference that may be judged: 1 to 8 entries, each at most 1,000,000,000,000 in size.
#[derive(Clone, Copy)]
pub struct Difference {
    entries: PerFigure<i64>,
    ghost range: { AllByRecursion InRange (numbers_of entries) } by { Prim.hlevel (props, AllByRecursion-prop) },
}
