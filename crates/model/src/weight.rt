ghost use Rattle.std.specs.Prelude.{◌<◌};
ghost use Rattle.std.specs.List.{AllByRecursion, AllByRecursion-prop};
ghost use Rattle.std.proofs.Props.{props};
ghost use Rattle.model.specs.Limits.{InLimit};
ghost use Rattle.model.specs.Numbers.{numbers_of};
ghost use Rattle.model.specs.Weighing.{total};

use crate::PerFigure;

mod methods;

// A weight that may be entered: 1 to 8 parts up to 1,000,000, not all zero.
#[derive(Clone, Copy)]
pub struct Weight {
    parts: PerFigure<u32>,
    ghost limits: { AllByRecursion InLimit (numbers_of parts) } by { Prim.hlevel (props, AllByRecursion-prop) },
    ghost some: { 0 < total (numbers_of parts) },
}
