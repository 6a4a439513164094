ghost use Rattle.std.specs.List.{AllByRecursion, AllByRecursion-prop};
ghost use Rattle.std.proofs.Props.{props};
ghost use Rattle.model.specs.Limits.{InLimit};
ghost use Rattle.model.specs.Numbers.{numbers_of};

use crate::PerFigure;

mod methods;
mod order;

// The figures of a variant: 1 to 8 numbers up to 1,000,000, lower being better.
#[derive(Clone, Copy)]
pub struct Figures {
    values: PerFigure<u32>,
    ghost limits: { AllByRecursion InLimit (numbers_of values) } by { Prim.hlevel (props, AllByRecursion-prop) },
}
